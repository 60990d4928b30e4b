ghost use Rattle.std.specs.Prelude.{◌≡◌, ◌↔◌, ◌<◌, ◌≤◌, ◌+◌, ◌*◌, IsSome, IfSome};
ghost use Rattle.cdb_grid.specs.Units.{degree, height_of, step, tiles_of, side_of, IsOnGlobe};
ghost use Rattle.cdb_grid.specs.Tiles.{point_of, IsInGeocell, IsInTile};
ghost use Rattle.cdb_grid.specs.declared.geocell.Geocell.{Geocell};
ghost use Rattle.cdb_grid.specs.declared.tile.Tile.{Tile};

use crate::arc::{Arc, DEGREE};
use crate::family::Family;
use crate::geocell::Geocell;
use crate::level::Level;
use crate::tile::Tile;
use crate::units;

/// The geocell that holds a point of the globe, or `None` exactly where the latitude isn't from -90
/// to below 90 degrees or the longitude isn't from -180 to below 180 degrees
/// (OGC CDB 1.2 Volume 1, geocells).
pub fn geocell_at(lat: Arc, lon: Arc) -> Option<Geocell>
    ensures inside { IsSome result ↔ IsOnGlobe lat.units lon.units }
    ensures holds { IfSome result (λ g. IsInGeocell g (point_of lat lon)) }
    ensures only { (g : Geocell) → IsOnGlobe lat.units lon.units → IsInGeocell g (point_of lat lon) →
        result ≡ Some g }
{
    if !units::is_on_globe(lat, lon) {
        return None;
    }
    let row = units::north_of(lat) / DEGREE;
    let column = units::east_of(lon) / DEGREE;
    let width = units::width_of_row(row);
    Some(units::geocell(row, column - column % width))
}

/// The one tile of a family and a level that holds a point of the globe, or `None` exactly where
/// `geocell_at` is (OGC CDB 1.2 Volume 1, tiling).
pub fn tile_at(family: Family, level: Level, lat: Arc, lon: Arc) -> Option<Tile>
    ensures inside { IsSome result ↔ IsOnGlobe lat.units lon.units }
    ensures family { IfSome result (λ t. t.family ≡ family) }
    ensures level { IfSome result (λ t. t.level.number ≡ level.number) }
    ensures holds { IfSome result (λ t. IsInTile t (point_of lat lon)) }
    ensures only { (t : Tile) → IsOnGlobe lat.units lon.units → t.family ≡ family →
        t.level.number ≡ level.number → IsInTile t (point_of lat lon) → result ≡ Some t }
{
    let cell = geocell_at(lat, lon)?;
    let north = units::north_of(lat) - units::row(cell) * DEGREE;
    let east = units::east_of(lon) - units::column(cell) * DEGREE;
    let up = tile_index(level, 1, north);
    let right = tile_index(level, units::width(cell), east);
    Some(Tile {
        family,
        cell,
        level,
        up,
        right,
    })
}

/// The number of the tile that holds a point so many arc units from the edge of a geocell, whose
/// width is in degrees.
fn tile_index(level: Level, width: u64, offset: u64) -> u32
    requires least { 1 ≤ width }
    requires most { width ≤ 12 }
    requires offset { offset < width * degree }
    ensures bound { result < tiles_of (height_of level.number) }
    ensures low { let h = height_of level.number in (result * side_of h + 0) * (width * step h) ≤ offset }
    ensures high { let h = height_of level.number in offset < (result * side_of h + side_of h) * (width * step h) }
{
    (offset / (width * units::extent(level))) as u32
}
