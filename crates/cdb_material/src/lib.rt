//! One level of materials: the most frequent material of the four finer cells of a cell.
#![tactic(auto)]

ghost use Rattle.std.specs.Prelude.{◌≡◌, ◌+◌, ◌*◌, ◌/◌, ◌%◌, ◌≤◌, length};
ghost use Rattle.cdb_grid.specs.Frames.{IsPartChanged, four_under};
ghost use Rattle.cdb_source.specs.declared.kind.Kind.TheVariants.{Material};
ghost use Rattle.std.specs.Option.{option_or};
ghost use Rattle.cdb_source.specs.Posts.{coded};
ghost use Rattle.cdb_source.specs.Sample.{value_of};
ghost use Rattle.cdb_source.specs.Folds.{finer_material};

mod four;

use cdb_grid::{FourRule, Spot, fold_four};
use cdb_source::Kind;
pub use four::{Four, mode};

/// A number of a frame as a material; 0 stands for no value.
fn value(number: i16) -> Option<i16>
    ensures { result ≡ value_of Material number }
{
    if number == Kind::Material.no_value() {
        None
    } else {
        Some(number)
    }
}

/// A material as a number of a frame, or the number that stood there.
fn or_own(material: Option<i16>, own: i16) -> i16
    ensures { result ≡ coded Material (option_or material (value_of Material own)) }
{
    match material {
        Some(material) => material,
        None => own,
    }
}

/// A cell takes the most frequent material of its four finer cells, and of equally frequent ones the
/// smallest, where one of the four has a value. 0 stands for no value.
#[derive(Clone, Copy)]
pub struct MostFrequent;

impl FourRule for MostFrequent {
    ghost of_four = { finer_material };

    fn of_four(
        &self,
        own: i16,
        south_west: i16,
        south_east: i16,
        north_west: i16,
        north_east: i16,
    ) -> i16 {
        let four = Four {
            south_west: value(south_west),
            south_east: value(south_east),
            north_west: value(north_west),
            north_east: value(north_east),
        };
        or_own(mode(&four), own)
    }
}

/// Folds the materials of a finer tile into its part of a coarser one: a cell of the part takes the
/// most frequent material of its four finer cells, and of equally frequent ones the smallest, where
/// one of the four has a value. 0 stands for no value. All else in the frame stays (OGC CDB 1.2
/// Volume 1, raster material components).
pub fn fold(child: &[i16], child_side: u32, spot: Spot, frame: &mut [i16], frame_side: u32)
    requires even { child_side % 2 ≡ 0 }
    requires child { length child.now ≡ child_side * child_side }
    requires frame { length frame.old ≡ frame_side * frame_side }
    requires row_fits { spot.row + child_side / 2 ≤ frame_side }
    requires col_fits { spot.col + child_side / 2 ≤ frame_side }
    ensures { IsPartChanged (four_under finer_material child.now child_side) spot.row spot.col (child_side / 2)
        (child_side / 2) frame_side frame.old frame.new }
{
    fold_four(&MostFrequent, child, child_side, spot, frame, frame_side);
}
