//! The places of a tile, and those of them that lie in the box of a source.
ghost use Rattle.std.specs.Prelude.{◌≡◌, ℕ, ◌+◌, ◌-◌, ◌*◌, ◌^◌, ◌≤◌, ◌<◌, ◌↔◌};
ghost use Rattle.cdb_grid.specs.Units.{degree};
ghost use Rattle.cdb_grid.specs.Tiles.{tile_side, tile_height, element_place};
ghost use Rattle.cdb_source.specs.Sample.{IsBefore, corner_of, box_height, box_width};
ghost use Rattle.cdb_cut.specs.Window.{HasPlaceInBox};

use cdb_grid::units::{east_of, height, north_of, step, width};
use cdb_grid::{Tile, place, side};
use cdb_source::{Kind, SourceHead};

/// Consecutive whole numbers, from `first` on and below `end`.
#[derive(Clone, Copy)]
pub(crate) struct Run {
    pub first: u64,
    pub end: u64,
}

/// The places of a tile: that of its south-west element, and the steps from one to the next.
#[derive(Clone, Copy)]
pub(crate) struct Places {
    pub north: u64,
    pub east: u64,
    pub up: u64,
    pub right: u64,
}

pub(crate) fn places_of(tile: &Tile) -> Places
    ensures each { (r c : ℕ) → r < tile_side tile.now → c < tile_side tile.now →
        element_place tile.now r c ≡ record {
          north = result.north + r * result.up;
          east = result.east + c *
              result.right;
        } }
    ensures up { 1 ≤ result.up }
    ensures up_most { result.up ≤ degree }
    ensures right { 1 ≤ result.right }
    ensures right_most { result.right ≤ 12 * degree }
    ensures north { result.north < 180 * degree }
    ensures east { result.east < 360 * degree }
{
    let (lat, lon) = place(tile, 0, 0);
    let up = step(height(tile.level));
    Places {
        north: north_of(lat),
        east: east_of(lon),
        up,
        right: width(tile.cell) * up,
    }
}

/// How many of the numbers that begin at `start` and go on by `step` are below a limit.
fn below(start: u64, step: u64, limit: u64) -> u64
    requires { 1 ≤ step }
    ensures { (k : ℕ) → (k < result) ↔ (start + k * step < limit) }
{
    limit.saturating_sub(start).div_ceil(step)
}

/// The numbers of the places along one axis that lie between two edges of a box.
fn between(kind: Kind, start: u64, step: u64, side: u64, near: u64, far: u64) -> Run
    requires step { 1 ≤ step }
    requires far { far < 2 ^ 60 }
    ensures each { (k : ℕ) → k < side → ((result.first ≤ k) × (k < result.end)) ↔ ((near ≤ start + k * step) ×
        IsBefore kind (start + k * step) far) }
    ensures end { result.end ≤ side }
{
    let past = match kind {
        Kind::Elevation => far + 1,
        Kind::Material => far,
    };
    Run {
        first: below(start, step, near),
        end: below(start, step, past).min(side),
    }
}

/// The rows of a tile whose places lie between the south and the north edge of a source's box.
pub(crate) fn rows_in_box(head: &SourceHead, places: &Places, side: u32) -> Run
    requires up { 1 ≤ places.now.up }
    ensures each { (k : ℕ) → k < side → ((result.first ≤ k) × (k < result.end)) ↔
        (((corner_of head.now).north ≤ places.now.north + k * places.now.up) ×
        IsBefore head.now.kind (places.now.north + k * places.now.up) ((corner_of head.now).north + box_height
        head.now)) }
    ensures end { result.end ≤ side }
{
    between(
        head.kind,
        places.north,
        places.up,
        side as u64,
        head.south(),
        head.north(),
    )
}

/// The columns of a tile whose places lie between the west and the east edge of a source's box.
pub(crate) fn columns_in_box(head: &SourceHead, places: &Places, side: u32) -> Run
    requires right { 1 ≤ places.now.right }
    ensures each { (k : ℕ) → k < side → ((result.first ≤ k) × (k < result.end)) ↔
        (((corner_of head.now).east ≤ places.now.east + k * places.now.right) ×
        IsBefore head.now.kind (places.now.east + k * places.now.right)
        ((corner_of head.now).east + box_width head.now)) }
    ensures end { result.end ≤ side }
{
    between(
        head.kind,
        places.east,
        places.right,
        side as u64,
        head.west(),
        head.east(),
    )
}
