//! Whether a source reaches a cell.
ghost use Rattle.std.specs.Prelude.{◌≡◌, ◌↔◌, ◌+◌, ◌-◌, ◌*◌, ◌/◌, ◌^◌, ◌≤◌, ◌<◌, IsTrue, min, max, pos, negsuc, ◌≤ℤ◌};
ghost use Rattle.cdb_grid.specs.Units.{degree, step, width_at};
ghost use Rattle.cdb_grid.specs.Grid.{IsCorner};
ghost use Rattle.cdb_source.specs.declared.kind.Kind.TheVariants.{Elevation, Material};
ghost use Rattle.cdb_source.specs.Sample.{corner_of, box_height, box_width};
ghost use Rattle.cdb_source.specs.Reached.{source_height};
ghost use Rattle.cdb_scratch.specs.inside.Cells.{HasMultiple, HasPlaceOnGrid, past_edge, inset_at, ReachesCell, CellReached};

use crate::places::width;
use cdb_grid::units;
use cdb_source::{Kind, Source, SourceHead};

/// Whether a multiple of a step lies from `low` on and below `high`.
fn has_multiple(step: u64, low: u64, high: u64) -> bool
    requires step { 1 ≤ step }
    requires small { low + step < 2 ^ 60 }
    ensures { IsTrue result ↔ HasMultiple step low high }
{
    low.div_ceil(step) * step < high
}

/// One past the greatest number that isn't past the far edge of a box, which belongs to a box of
/// elevation and not to one of material.
fn past(kind: Kind, far: u64) -> u64
    requires { far < 2 ^ 60 }
    ensures { result ≡ past_edge kind far }
{
    match kind {
        Kind::Elevation => far + 1,
        Kind::Material => far,
    }
}

/// Whether one stands from `low` on and below `high`, and lies in a box of a kind when it is moved by
/// an inset.
fn has_place(kind: Kind, step: u64, inset: u64, near: u64, far: u64, low: u64, high: u64) -> bool
    requires step { 1 ≤ step }
    requires near { near + step < 2 ^ 60 }
    requires low { low + step < 2 ^ 60 }
    requires far { far < 2 ^ 60 }
    ensures { IsTrue result ↔ HasPlaceOnGrid kind step inset near far low high }
{
    has_multiple(
        step,
        near.saturating_sub(inset).max(low),
        past(kind, far).saturating_sub(inset).min(high),
    )
}

/// How far north of the corner of its cell a place stands.
fn inset(kind: Kind, height: u32) -> u64
    requires least { 1 ≤ height }
    requires most { height ≤ 34 }
    ensures { result ≡ inset_at kind height }
{
    match kind {
        Kind::Elevation => 0,
        Kind::Material => units::step(height - 1),
    }
}

/// Whether a source has a row of its level's places in the cell of a height at `north`.
fn has_row(head: &SourceHead, height: u32, north: u64) -> bool
    requires most { height ≤ 34 }
    requires north { north < 180 * degree }
    ensures { let head = head.now in let own = source_height head in
        IsTrue result ↔ HasPlaceOnGrid head.kind (step own) (inset_at head.kind own) (corner_of head).north
        ((corner_of head).north + box_height head) north (north + step height) }
{
    let own = units::height(head.level);
    has_place(
        head.kind,
        units::step(own),
        inset(head.kind, own),
        head.south(),
        head.north(),
        north,
        north + units::step(height),
    )
}

/// Whether it has a column of its level's places in the cell of a height at `east`, where geocells
/// have a width.
fn has_column(head: &SourceHead, height: u32, width: u64, east: u64) -> bool
    requires most { height ≤ 34 }
    requires least { 1 ≤ width }
    requires width { width ≤ 12 }
    requires east { east < 360 * degree }
    ensures { let head = head.now in let own = source_height head in
        IsTrue result ↔ HasPlaceOnGrid head.kind (width * step own) (width * inset_at head.kind own)
        (corner_of head).east ((corner_of head).east + box_width head) east (east + width * step height) }
{
    let own = units::height(head.level);
    has_place(
        head.kind,
        width * units::step(own),
        width * inset(head.kind, own),
        head.west(),
        head.east(),
        east,
        east + width * units::step(height),
    )
}

/// Whether a source of a kind reaches the cell of a height at a corner.
fn reaches_cell(kind: Kind, head: &SourceHead, height: u32, north: u64, east: u64) -> bool
    requires most { height ≤ 34 }
    requires corner { IsCorner height (record { north = north; east = east }) }
    ensures { IsTrue result ↔ ReachesCell kind height (record { north = north; east = east }) head.now }
{
    if head.kind != kind || units::height(head.level) > height {
        return false;
    }
    has_row(head, height, north) && has_column(head, height, width(north), east)
}

/// Whether one of the sources does.
pub(crate) fn is_cell_reached(
    kind: Kind,
    sources: &[Source],
    height: u32,
    north: u64,
    east: u64,
) -> bool
    requires most { height ≤ 34 }
    requires corner { IsCorner height (record { north = north; east = east }) }
    ensures { IsTrue result ↔ CellReached kind height (record { north = north; east = east }) sources.now }
{
    for source in sources {
        if reaches_cell(kind, &source.head, height, north, east) {
            return true;
        }
    }
    false
}
