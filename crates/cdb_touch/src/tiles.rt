//! Tiles by their numbers.
ghost use Rattle.std.specs.Prelude.{◌*◌, ◌/◌, ◌≤◌, ◌<◌};
ghost use Rattle.cdb_grid.specs.Units.{tiles_of, width_at};
ghost use Rattle.cdb_touch.specs.inside.Numbers.{IsNumbered};

use crate::heights;
use cdb_grid::{Family, Tile, units};

/// The tile of a family and a height at a row and a column, which count all rows of the height and
/// all columns of the row of geocells.
pub(crate) fn tile_at(family: Family, height: u32, row: u64, column: u64) -> Tile
    requires least { 1 ≤ height }
    requires most { height ≤ 34 }
    requires row { row < 180 * tiles_of height }
    requires column { column < 360 / width_at (row / tiles_of height) * tiles_of height }
    ensures { IsNumbered family height row column result }
{
    let tiles = heights::tiles(height);
    let width = units::width_of_row(row / tiles);
    Tile {
        family,
        cell: units::geocell(row / tiles, column / tiles * width),
        level: heights::level(height),
        up: (row % tiles) as u32,
        right: (column % tiles) as u32,
    }
}
