//! The levels, tiles and extents of heights.
ghost use Rattle.std.specs.Prelude.{◌≡◌, ◌*◌, ◌≤◌};
ghost use Rattle.cdb_grid.specs.Units.{degree, height_of, step, side_of, tiles_of};

use cdb_grid::{DEGREE, Level};

/// The height of level -10, the greatest.
pub(crate) const COARSEST: u32 = 34;

/// The level of a height.
pub(crate) fn level(height: u32) -> Level
    requires least { 1 ≤ height }
    requires most { height ≤ 34 }
    ensures { height_of result.number ≡ height }
{
    Level {
        number: 24 - height as i8,
    }
}

/// The tiles of a height along a side of a geocell.
#[tactic(auto, using(crate::proofs::NumberLaws::tiles_shifted, cdb_grid::proofs::UnitLaws::tiles_most))]
pub(crate) fn tiles(height: u32) -> u64
    requires { 1 ≤ height }
    ensures value { result ≡ tiles_of height }
    ensures least { 1 ≤ result }
    ensures most { result ≤ 8388608 }
{
    1 << 24u32.saturating_sub(height)
}

/// The arc units of a tile of a height from its south edge to its north edge.
pub(crate) fn extent(height: u32) -> u64
    requires least { 1 ≤ height }
    requires most { height ≤ 34 }
    ensures value { result ≡ side_of height * step height }
    ensures least { 1 ≤ result }
    ensures most { result ≤ degree }
{
    DEGREE / tiles(height)
}
