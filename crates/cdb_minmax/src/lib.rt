//! One level of least and greatest elevations: from the elevations of the level itself, and from the
//! least and the greatest ones of the next finer level.
#![tactic(auto)]

ghost use Rattle.std.specs.Prelude.{◌≡◌, ◌+◌, ◌*◌, ◌/◌, ◌%◌, ◌≤◌, pos, ◌+ℤ◌, ◌-ℤ◌, int_lt, if◌then◌else◌, length};
ghost use Rattle.std.specs.Int.{w16, int_wrap};
ghost use Rattle.cdb_grid.specs.Frames.{IsPartChanged, four_under};
ghost use Rattle.cdb_source.specs.Folds.{finer_low, finer_high, lesser_number, greater_number};

use cdb_grid::{FourRule, Spot, fold_four};

/// One less than an elevation; the number that stands for no value becomes the greatest one.
fn lowered(elevation: i16) -> i16
    ensures { result ≡ int_wrap w16 (elevation -ℤ pos 1) }
{
    elevation.wrapping_sub(1)
}

/// The elevation that was lowered to a number.
fn raised(number: i16) -> i16
    ensures { result ≡ int_wrap w16 (number +ℤ pos 1) }
{
    number.wrapping_add(1)
}

/// The smaller of two numbers.
fn smaller(a: i16, b: i16) -> i16
    ensures { result ≡ (if int_lt b a then b else a) }
{
    if b < a { b } else { a }
}

/// The lesser of two elevations, one that has no value passed over.
fn lesser(a: i16, b: i16) -> i16
    ensures { result ≡ lesser_number a b }
{
    raised(smaller(lowered(a), lowered(b)))
}

/// The greater of two elevations, one that has no value, which the least number stands for, passed over.
fn greater(a: i16, b: i16) -> i16
    ensures { result ≡ greater_number a b }
{
    if a < b { b } else { a }
}

/// An element becomes the least of its own elevation and of the four finer ones in its cell, those
/// without a value, which -32768 stands for, passed over.
#[derive(Clone, Copy)]
pub struct Least;

impl FourRule for Least {
    ghost of_four = { finer_low };

    fn of_four(
        &self,
        own: i16,
        south_west: i16,
        south_east: i16,
        north_west: i16,
        north_east: i16,
    ) -> i16 {
        let south = lesser(south_west, south_east);
        let north = lesser(north_west, north_east);
        lesser(own, lesser(south, north))
    }
}

/// The same of the greatest elevations.
#[derive(Clone, Copy)]
pub struct Greatest;

impl FourRule for Greatest {
    ghost of_four = { finer_high };

    fn of_four(
        &self,
        own: i16,
        south_west: i16,
        south_east: i16,
        north_west: i16,
        north_east: i16,
    ) -> i16 {
        let south = greater(south_west, south_east);
        let north = greater(north_west, north_east);
        greater(own, greater(south, north))
    }
}

/// Begins the least or the greatest elevations of a tile: with its elevations.
pub fn start(elev: &[i16], frame: &mut [i16])
    requires { length frame.old ≡ length elev.now }
    ensures { frame.new ≡ elev.now }
{
    frame.copy_from_slice(elev);
}

/// Folds the least elevations of a finer tile into its part of a coarser one: an element of the part
/// becomes the least of its own and of the four finer ones in its cell, those without a value, which
/// -32768 stands for, passed over. All else in the frame stays (OGC CDB 1.2 Volume 1, minimum and
/// maximum elevation components).
pub fn fold_low(child: &[i16], child_side: u32, spot: Spot, frame: &mut [i16], frame_side: u32)
    requires even { child_side % 2 ≡ 0 }
    requires child { length child.now ≡ child_side * child_side }
    requires frame { length frame.old ≡ frame_side * frame_side }
    requires row_fits { spot.row + child_side / 2 ≤ frame_side }
    requires col_fits { spot.col + child_side / 2 ≤ frame_side }
    ensures { IsPartChanged (four_under finer_low child.now child_side) spot.row spot.col (child_side / 2)
        (child_side / 2) frame_side frame.old frame.new }
{
    fold_four(&Least, child, child_side, spot, frame, frame_side);
}

/// The same of the greatest elevations.
pub fn fold_high(child: &[i16], child_side: u32, spot: Spot, frame: &mut [i16], frame_side: u32)
    requires even { child_side % 2 ≡ 0 }
    requires child { length child.now ≡ child_side * child_side }
    requires frame { length frame.old ≡ frame_side * frame_side }
    requires row_fits { spot.row + child_side / 2 ≤ frame_side }
    requires col_fits { spot.col + child_side / 2 ≤ frame_side }
    ensures { IsPartChanged (four_under finer_high child.now child_side) spot.row spot.col (child_side / 2)
        (child_side / 2) frame_side frame.old frame.new }
{
    fold_four(&Greatest, child, child_side, spot, frame, frame_side);
}
