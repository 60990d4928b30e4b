//! The rows of a source that a tile needs.
ghost use Rattle.std.specs.Prelude.{◌≡◌, ℕ, ◌+◌, ◌-◌, ◌*◌, ◌≤◌, ◌<◌, MatchOption};
ghost use Rattle.cdb_source.specs.Head.{span};
ghost use Rattle.cdb_source.specs.Reached.{kind_of};
ghost use Rattle.cdb_source.specs.Sample.{IsBefore};
ghost use Rattle.cdb_cut.specs.Window.{LooksAt, IsWindow, HasNoWindow};

use crate::axis::{Run, columns_in_box, places_of, rows_in_box};
use cdb_grid::{Tile, side};
use cdb_source::{Kind, SourceHead, kind_of};

/// Rows of a source, from `first` on, counted from the south.
#[derive(Clone, Copy, Debug, PartialEq, Eq)]
pub struct Rows {
    pub first: u32,
    pub count: u32,
}

/// The last row that is looked at from so far north of the first one.
fn last_row(kind: Kind, far: u64, step: u64) -> u64
    requires { 1 ≤ step }
    ensures looks { LooksAt kind step far result }
    ensures last { (up row : ℕ) → up ≤ far → LooksAt kind step up row → row ≤ result }
{
    match kind {
        Kind::Elevation => far.div_ceil(step),
        Kind::Material => far / step,
    }
}

/// The rows that are looked at from distances between two.
fn rows_between(kind: Kind, near: u64, far: u64, step: u64, rows: u32) -> Rows
    requires step { 1 ≤ step }
    requires order { near ≤ far }
    requires rows { 1 ≤ rows }
    requires within { IsBefore kind far (span kind rows step) }
    ensures some { 1 ≤ result.count }
    ensures first_looked { LooksAt kind step near result.first }
    ensures last_looked { LooksAt kind step far (result.first + result.count - 1) }
    ensures all { (up row : ℕ) → near ≤ up → up ≤ far → LooksAt kind step up row → (result.first ≤ row) ×
        (row < result.first + result.count) }
    ensures within { result.first + result.count ≤ rows }
{
    let first = near / step;
    let last = last_row(kind, far, step);
    Rows {
        first: first as u32,
        count: (last - first + 1) as u32,
    }
}

/// The least run of rows of a source that has every row at which sampling at the places of a tile in
/// the source's box looks, or `None` exactly where the kinds differ or no place of the tile lies in
/// the box.
pub fn window(head: &SourceHead, tile: &Tile) -> Option<Rows>
    ensures { MatchOption result (HasNoWindow head.now tile.now) (λ rows. IsWindow head.now tile.now rows.first
        rows.count) }
{
    if head.kind != kind_of(tile.family) {
        return None;
    }
    let places = places_of(tile);
    let rows = rows_in_box(head, &places, side(tile.level));
    let cols = columns_in_box(head, &places, side(tile.level));
    if rows.first >= rows.end {
        return None;
    }
    if cols.first >= cols.end {
        return None;
    }
    let south = head.south();
    let near = places.north + rows.first * places.up - south;
    let far = places.north + (rows.end - 1) * places.up - south;
    Some(rows_between(head.kind, near, far, head.row_step(), head.rows))
}
