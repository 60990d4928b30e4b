//! The part of a tile that lies in a source's box.
ghost use Prim.Native.Nat.{◌∣◌};
ghost use Rattle.std.specs.Prelude.{◌≡◌, ℕ, ◌+◌, ◌-◌, ◌*◌, ◌^◌, ◌≤◌, ◌<◌};
ghost use Rattle.cdb_grid.specs.Units.{degree};
ghost use Rattle.cdb_grid.specs.Tiles.{tile_side};
ghost use Rattle.cdb_cut.specs.Window.{IsWindow};
ghost use Rattle.cdb_cut.specs.inside.Parts.{IsPartOf, IsReduced};

use crate::axis::{Run, columns_in_box, places_of, rows_in_box};
use crate::source_rows::Rows;
use crate::walk::Axis;
use cdb_grid::{Tile, side};
use cdb_source::SourceHead;

/// A number that divides both. The greater it is, the fewer bits a mean takes.
fn common_divisor(a: u64, b: u64) -> u64
    requires { 1 ≤ b }
    ensures some { 1 ≤ result }
    ensures first { result ∣ a }
    ensures second { result ∣ b }
{
    let (mut x, mut y) = (a, b);
    while y != 0 {
        let rest = x % y;
        x = y;
        y = rest;
    }
    x
}

/// Distances with a divisor that they share taken out.
fn reduce(start: u64, stride: u64, step: u64) -> Axis
    requires start { start < 2 ^ 56 }
    requires stride { stride ≤ 417470821171200 }
    requires step { 1 ≤ step }
    requires step_most { step ≤ 417470821171200 }
    ensures { IsReduced start stride step result.start result.stride result.step }
{
    let divisor = common_divisor(start, common_divisor(stride, step));
    Axis {
        start: start / divisor,
        stride: stride / divisor,
        step: step / divisor,
    }
}

/// The rows and the columns of a tile whose places lie in a source's box, and how they stand to the
/// source's posts.
#[derive(Clone, Copy)]
pub(crate) struct TilePart {
    pub rows: Run,
    pub cols: Run,
    pub lat: Axis,
    pub lon: Axis,
}

pub(crate) fn part_of(head: &SourceHead, rows: Rows, tile: &Tile) -> TilePart
    requires { IsWindow head.now tile.now rows.first rows.count }
    ensures { IsPartOf head.now tile.now result.rows.first result.rows.end result.cols.first result.cols.end
        result.lat.start result.lat.stride result.lat.step result.lon.start result.lon.stride result.lon.step }
{
    let _window = rows;
    let places = places_of(tile);
    let rows = rows_in_box(head, &places, side(tile.level));
    let cols = columns_in_box(head, &places, side(tile.level));
    let up = places.north + rows.first * places.up - head.south();
    let right = places.east + cols.first * places.right - head.west();
    TilePart {
        rows,
        cols,
        lat: reduce(up, places.up, head.row_step()),
        lon: reduce(right, places.right, head.column_step()),
    }
}
