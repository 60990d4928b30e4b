//! The box of a source, and the rows and columns of tiles that hold its places.
ghost use Rattle.std.specs.Prelude.{◌≡◌, ℕ, ◌↔◌, ◌+◌, ◌*◌, ◌/◌, ◌≤◌, ◌<◌};
ghost use Rattle.cdb_grid.specs.Units.{tiles_of, width_at};
ghost use Rattle.cdb_source.specs.Reached.{source_height};
ghost use Rattle.cdb_touch.specs.inside.Reach.{HasRow, HasColumn};

use crate::axis::{Run, with_places};
use crate::heights;
use cdb_grid::{DEGREE, units};
use cdb_source::SourceHead;

/// The rows of tiles of a height that hold a place of a source.
pub(crate) fn rows(head: &SourceHead, height: u32) -> Run
    requires finer { source_height head.now ≤ height }
    requires most { height ≤ 34 }
    ensures each { (n : ℕ) → n < 180 * tiles_of height →
        HasRow head.now height n ↔ ((result.first ≤ n) × (n < result.end)) }
    ensures order { result.first ≤ result.end }
    ensures within { result.end ≤ 180 * tiles_of height }
{
    let step = units::step(units::height(head.level));
    with_places(
        head.kind,
        step,
        heights::extent(height),
        head.south(),
        head.north(),
        180 * DEGREE,
    )
}

/// The columns of tiles of a height that hold a place of a source, in a row of geocells.
pub(crate) fn columns(head: &SourceHead, height: u32, row: u64) -> Run
    requires finer { source_height head.now ≤ height }
    requires most { height ≤ 34 }
    requires row { row < 180 }
    ensures each { (n : ℕ) → n < 360 / width_at row * tiles_of height →
        HasColumn head.now height (width_at row) n ↔ ((result.first ≤ n) × (n < result.end)) }
    ensures order { result.first ≤ result.end }
    ensures within { result.end ≤ 360 / width_at row * tiles_of height }
{
    let width = units::width_of_row(row);
    let step = width * units::step(units::height(head.level));
    with_places(
        head.kind,
        step,
        width * heights::extent(height),
        head.west(),
        head.east(),
        360 * DEGREE,
    )
}
