//! Heights of levels and their steps, and places in arc units and whole degrees from the south pole
//! and from the meridian of -180 degrees.
ghost use Rattle.std.specs.Prelude.{◌≡◌, ℤ, pos, negsuc, ◌≤ℤ◌, ◌<ℤ◌, ◌+◌, ◌-◌, ◌*◌, ◌<◌, ◌≤◌, ◌%◌, ◌↔◌, IsTrue};
ghost use Rattle.cdb_grid.specs.Units.{degree, height_of, step, side_of, tiles_of, width_at, row_of, column_of, from_pole, from_west, IsOnGlobe};

use crate::arc::{Arc, TO_POLE, TO_WEST};
use crate::geocell::Geocell;
use crate::level::Level;
use crate::zone::zone_of;

/// The height of a level, 24 less its number: 1 at level 23, and 34 at level -10
/// (OGC CDB 1.2 Volume 1, levels of detail).
pub fn height(level: Level) -> u32
    ensures value { result ≡ height_of level.number }
    ensures least { 1 ≤ result }
    ensures most { result ≤ 34 }
{
    (24 - level.number) as u32
}

/// The step of a height in latitude, in arc units: from the south edge of a cell to its north edge.
/// It is twice the step of the height below, and one degree at height 34. The step in longitude is
/// so many times as long as the geocell is wide in degrees (OGC CDB 1.2 Volume 1, levels of detail).
#[tactic(auto, using(crate::proofs::UnitLaws::shifted, crate::proofs::UnitLaws::power_pos, crate::proofs::UnitLaws::power_most))]
pub fn step(height: u32) -> u64
    requires { height ≤ 34 }
    ensures value { result ≡ step height }
    ensures least { 1 ≤ result }
    ensures most { result ≤ degree }
{
    2025 * (1 << height)
}

/// The step of a level in latitude, in arc units.
pub(crate) fn step_of(level: Level) -> u64
    ensures value { result ≡ step (height_of level.number) }
    ensures least { 1 ≤ result }
    ensures most { result ≤ degree }
{
    step(height(level))
}

/// The elements along one side of a tile of a level, 1 to 1024
/// (OGC CDB 1.2 Volume 1, tile sizes).
#[tactic(auto, using(crate::proofs::UnitLaws::shift_most))]
pub fn side(level: Level) -> u32
    ensures value { result ≡ side_of (height_of level.number) }
    ensures least { 1 ≤ result }
    ensures most { result ≤ 1024 }
{
    1 << (34 - height(level)).min(10)
}

/// The tiles of a level along one side of a geocell: 1 below level 0, and from there on 2 to the power
/// of the level, at most 8,388,608 (OGC CDB 1.2 Volume 1, levels of detail).
#[tactic(auto, using(crate::proofs::UnitLaws::shifted_32, crate::proofs::UnitLaws::tiles_least, crate::proofs::UnitLaws::tiles_most))]
pub fn tiles_across(level: Level) -> u32
    ensures value { result ≡ tiles_of (height_of level.number) }
    ensures least { 1 ≤ result }
    ensures most { result ≤ 8388608 }
{
    1 << 24u32.saturating_sub(height(level))
}

/// The arc units of a tile of a level from its south edge to its north edge.
pub(crate) fn extent(level: Level) -> u64
    ensures value { result ≡ side_of (height_of level.number) * step (height_of level.number) }
    ensures least { 1 ≤ result }
    ensures most { result ≤ degree }
{
    side(level) as u64 * step_of(level)
}

/// Whether a latitude and a longitude are of the globe.
pub(crate) fn is_on_globe(lat: Arc, lon: Arc) -> bool
    ensures { IsTrue result ↔ IsOnGlobe lat.units lon.units }
{
    (-TO_POLE..TO_POLE).contains(&lat.units) && (-TO_WEST..TO_WEST).contains(&lon.units)
}

/// The arc units from the south pole to a latitude, 0 at -90 degrees.
pub fn north_of(lat: Arc) -> u64
    requires { negsuc (90 * degree - 1) ≤ℤ lat.units }
    ensures value { result ≡ from_pole lat.units }
    ensures most { lat.units <ℤ pos (90 * degree) → result < 180 * degree }
{
    (lat.units + TO_POLE) as u64
}

/// The arc units from the meridian of -180 degrees eastward to a longitude, 0 at -180 degrees.
pub fn east_of(lon: Arc) -> u64
    requires { negsuc (180 * degree - 1) ≤ℤ lon.units }
    ensures value { result ≡ from_west lon.units }
    ensures most { lon.units <ℤ pos (180 * degree) → result < 360 * degree }
{
    (lon.units + TO_WEST) as u64
}

/// The latitude and the longitude of so many arc units from the south pole and from the meridian of
/// -180 degrees.
pub fn arcs(north: u64, east: u64) -> (Arc, Arc)
    requires north { north < 180 * degree }
    requires east { east < 360 * degree }
    ensures north { from_pole result.0.units ≡ north }
    ensures east { from_west result.1.units ≡ east }
    ensures on_globe { IsOnGlobe result.0.units result.1.units }
{
    let lat = Arc {
        units: north as i64 - TO_POLE,
    };
    let lon = Arc {
        units: east as i64 - TO_WEST,
    };
    (lat, lon)
}

/// The row of a geocell: the whole degrees from the south pole to its south edge, 0 to 179.
pub fn row(cell: Geocell) -> u64
    ensures value { result ≡ row_of cell.lat }
    ensures most { result < 180 }
{
    (cell.lat as i64 + 90) as u64
}

/// The column of a geocell: the whole degrees from the meridian of -180 degrees to its west edge,
/// 0 to 359.
pub fn column(cell: Geocell) -> u64
    ensures value { result ≡ column_of cell.lon }
    ensures most { result < 360 }
{
    (cell.lon as i64 + 180) as u64
}

/// The width of a geocell in degrees, 1 to 12 (OGC CDB 1.2 Volume 1, latitude zones).
pub fn width(cell: Geocell) -> u64
    ensures value { result ≡ width_at (row_of cell.lat) }
    ensures least { 1 ≤ result }
    ensures most { result ≤ 12 }
{
    zone_of(cell.lat).width as u64
}

/// The width in degrees of the geocells of a row of degrees, counted from the south pole, 1 to 12
/// (OGC CDB 1.2 Volume 1, latitude zones).
pub fn width_of_row(row: u64) -> u64
    requires { row < 180 }
    ensures value { result ≡ width_at row }
    ensures least { 1 ≤ result }
    ensures most { result ≤ 12 }
{
    zone_of((row as i64 - 90) as i8).width as u64
}

/// The geocell of a row and a column of degrees, counted from the south pole and from the meridian
/// of -180 degrees. Its column is a whole multiple of its row's width.
pub fn geocell(row: u64, column: u64) -> Geocell
    requires row { row < 180 }
    requires column { column < 360 }
    requires on_grid { column % width_at row ≡ 0 }
    ensures row { row_of result.lat ≡ row }
    ensures column { column_of result.lon ≡ column }
{
    Geocell {
        lat: (row as i64 - 90) as i8,
        lon: (column as i64 - 180) as i16,
    }
}
