//! Places in arc units north of the south pole and east of the meridian of -180 degrees.
ghost use Rattle.std.specs.Prelude.{◌≡◌, ◌*◌, ◌/◌, ◌≤◌, ◌<◌};
ghost use Rattle.cdb_grid.specs.Units.{degree, width_at};
ghost use Rattle.cdb_grid.specs.Grid.{IsCorner, centre};

use cdb_grid::DEGREE;
use cdb_grid::units::{step, width_of_row};

/// The width in degrees of the geocells at so many arc units from the south pole.
pub(crate) fn width(north: u64) -> u64
    requires { north < 180 * degree }
    ensures value { result ≡ width_at (north / degree) }
    ensures least { 1 ≤ result }
    ensures most { result ≤ 12 }
{
    width_of_row(north / DEGREE)
}

/// The centre of the cell of a height at a corner.
pub(crate) fn centre(height: u32, north: u64, east: u64) -> (u64, u64)
    requires least { 1 ≤ height }
    requires most { height ≤ 34 }
    requires corner { IsCorner height (record { north = north; east = east }) }
    ensures value { record { north = result.0; east = result.1 } ≡ centre height
        (record { north = north; east = east }) }
    ensures north { result.0 < 180 * degree }
    ensures east { result.1 < 360 * degree }
{
    let half = step(height - 1);
    (north + half, east + width(north) * half)
}
