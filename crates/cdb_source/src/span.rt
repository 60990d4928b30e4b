//! What the head of a source may have: steps, rows and columns, and a box on the globe.
ghost use Rattle.std.specs.Prelude.{◌≡◌, ◌+◌, ◌*◌, ◌≤◌, ◌↔◌, IsTrue, pos, negsuc, ◌≤ℤ◌, ◌+ℤ◌};
ghost use Rattle.cdb_grid.specs.Units.{degree, from_pole, from_west};
ghost use Rattle.cdb_source.specs.Head.{magnitude, span, IsStep, IsRaster, IsLatitude, IsLongitude};

use crate::kind::Kind;
use cdb_grid::{Arc, DEGREE, TO_POLE, TO_WEST};

/// Arc units of 12 degrees.
const GREATEST_STEP: u64 = 12 * DEGREE;

/// The greatest number of rows or of columns.
const GREATEST_SIDE: u32 = 65_536;

/// The greatest number of posts.
const MOST_POSTS: u64 = 16_777_216;

/// The arc units of a step, 0 for a negative one.
pub(crate) fn step_size(step: Arc) -> u64
    ensures { result ≡ magnitude step.units }
{
    if step.units < 0 { 0 } else { step.units as u64 }
}

pub(crate) fn is_step(step: Arc) -> bool
    ensures { IsTrue result ↔ IsStep step.units }
{
    let size = step_size(step);
    1 <= size && size <= GREATEST_STEP
}

pub(crate) fn is_grid(rows: u32, cols: u32) -> bool
    ensures { IsTrue result ↔ IsRaster rows cols }
{
    1 <= rows
        && rows <= GREATEST_SIDE
        && 1 <= cols
        && cols <= GREATEST_SIDE
        && rows as u64 * cols as u64 <= MOST_POSTS
}

/// How far so many rows or columns reach, in arc units. It can pass 64 bits.
pub(crate) fn reach(kind: Kind, count: u32, size: u64) -> u128
    requires { 1 ≤ count }
    ensures { result ≡ span kind count size }
{
    match kind {
        Kind::Elevation => (count - 1) as u128 * size as u128,
        Kind::Material => count as u128 * size as u128,
    }
}

pub(crate) fn is_latitude(kind: Kind, lat: Arc, dlat: Arc, rows: u32) -> bool
    requires { 1 ≤ rows }
    ensures { IsTrue result ↔ IsLatitude kind lat.units dlat.units rows }
{
    if lat.units < -TO_POLE {
        return false;
    }
    let south = (lat.units + TO_POLE) as u64;
    south as u128 + reach(kind, rows, step_size(dlat)) <= 2 * TO_POLE as u128
}

pub(crate) fn is_longitude(kind: Kind, lon: Arc, dlon: Arc, cols: u32) -> bool
    requires { 1 ≤ cols }
    ensures { IsTrue result ↔ IsLongitude kind lon.units dlon.units cols }
{
    if lon.units < -TO_WEST {
        return false;
    }
    let west = (lon.units + TO_WEST) as u64;
    west as u128 + reach(kind, cols, step_size(dlon)) <= 2 * TO_WEST as u128
}
