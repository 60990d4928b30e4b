ghost use Rattle.std.specs.Prelude.{◌≡◌, ◌+◌, ◌*◌, ◌<◌, ◌≤◌};
ghost use Rattle.cdb_grid.specs.Units.{degree, height_of, step, side_of, tiles_of, width_at, row_of, column_of, IsOnGlobe};
ghost use Rattle.cdb_grid.specs.Tiles.{point_of, tile_height, tile_side, tile_step_east, element_corner, element_place, inset, IsInTile};

use crate::arc::{Arc, DEGREE};
use crate::family::Family;
use crate::level::Level;
use crate::tile::Tile;
use crate::units;

/// The latitude and the longitude at which the element at a row and a column of a tile stands: the
/// south-west corner of its cell, or for material the cell's centre. Rows count from the south and
/// columns from the west, from 0 (OGC CDB 1.2 Volume 1, tile grids).
pub fn place(tile: &Tile, row: u32, col: u32) -> (Arc, Arc)
    requires row { row < tile_side tile.now }
    requires col { col < tile_side tile.now }
    ensures place { point_of result.0 result.1 ≡ element_place tile.now row col }
    ensures on_globe { IsOnGlobe result.0.units result.1.units }
    ensures within { IsInTile tile.now (point_of result.0 result.1) }
{
    let (north, east) = corner(tile, row, col);
    let inset = inset(tile.family, tile.level);
    units::arcs(north + inset, east + inset * units::width(tile.cell))
}

/// The south-west corner of the cell of the element at a row and a column of a tile: its arc units from
/// the south pole and, eastward, from the meridian of -180 degrees. The cell lies on the globe.
pub fn corner(tile: &Tile, row: u32, col: u32) -> (u64, u64)
    requires row { row < tile_side tile.now }
    requires col { col < tile_side tile.now }
    ensures corner { record { north = result.0; east = result.1 } ≡ element_corner tile.now row col }
    ensures north { result.0 + step (tile_height tile.now) ≤ 180 * degree }
    ensures east { result.1 + tile_step_east tile.now ≤ 360 * degree }
{
    let north = units::row(tile.cell) * DEGREE + along(tile.level, tile.up, row);
    let east = units::column(tile.cell) * DEGREE
        + along(tile.level, tile.right, col) * units::width(tile.cell);
    (north, east)
}

/// The arc units from the edge of a geocell to the cell at an index of a tile, where a cell is one
/// step wide.
fn along(level: Level, tile: u32, index: u32) -> u64
    requires tile { tile < tiles_of (height_of level.number) }
    requires index { index < side_of (height_of level.number) }
    ensures value { let h = height_of level.number in result ≡ (tile * side_of h + index) * step h }
    ensures most { let h = height_of level.number in result + step h ≤ degree }
{
    (tile as u64 * units::side(level) as u64 + index as u64) * units::step_of(level)
}

/// How far north of its cell's corner an element stands.
fn inset(family: Family, level: Level) -> u64
    ensures value { result ≡ inset family (height_of level.number) }
    ensures most { result < step (height_of level.number) }
{
    match family {
        Family::Mat => units::step_of(level) / 2,
        Family::Elev | Family::Low | Family::High => 0,
    }
}
