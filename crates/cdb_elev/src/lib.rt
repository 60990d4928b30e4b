//! One level of elevations: the elevations of a finer tile in the coarser tile that holds it.
#![tactic(auto)]

ghost use Rattle.std.specs.Prelude.{◌≡◌, ◌+◌, ◌*◌, ◌/◌, ◌%◌, ◌≤◌, length};
ghost use Rattle.cdb_grid.specs.Frames.{IsPartChanged, four_under};
ghost use Rattle.cdb_source.specs.Folds.{finer_elevation};

use cdb_grid::{FourRule, Spot, fold_four};
use cdb_source::Kind;

/// The even posts: an element takes the elevation of the finer element that stands at the same corner,
/// where that has one. -32768 stands for no value.
#[derive(Clone, Copy)]
pub struct EvenPosts;

impl FourRule for EvenPosts {
    ghost of_four = { finer_elevation };

    fn of_four(&self, own: i16, south_west: i16, _: i16, _: i16, _: i16) -> i16 {
        if south_west == Kind::Elevation.no_value() {
            own
        } else {
            south_west
        }
    }
}

/// Folds the elevations of a finer tile into its part of a coarser one: an element of the part takes
/// the elevation of the finer element that stands at the same corner, where that has one. -32768
/// stands for no value. All else in the frame stays (OGC CDB 1.2 Volume 1, levels of detail).
pub fn fold(child: &[i16], child_side: u32, spot: Spot, frame: &mut [i16], frame_side: u32)
    requires even { child_side % 2 ≡ 0 }
    requires child { length child.now ≡ child_side * child_side }
    requires frame { length frame.old ≡ frame_side * frame_side }
    requires row_fits { spot.row + child_side / 2 ≤ frame_side }
    requires col_fits { spot.col + child_side / 2 ≤ frame_side }
    ensures { IsPartChanged (four_under finer_elevation child.now child_side) spot.row spot.col (child_side / 2)
        (child_side / 2) frame_side frame.old frame.new }
{
    fold_four(&EvenPosts, child, child_side, spot, frame, frame_side);
}
