//! The material that sources of exactly one level have at the centre of a cell.
ghost use Rattle.std.specs.Prelude.{◌≡◌, ◌*◌, ◌<◌, ◌≤◌, map};
ghost use Rattle.std.specs.Option.{option_or};
ghost use Rattle.cdb_grid.specs.Units.{degree};
ghost use Rattle.cdb_grid.specs.Grid.{IsCorner, centre};
ghost use Rattle.cdb_source.specs.declared.kind.Kind.TheVariants.{Material};
ghost use Rattle.cdb_source.specs.Values.{sampled, own, newest_own};

use crate::places::centre;
use cdb_cut::sample_at;
use cdb_grid::units::height;
use cdb_source::{Kind, Source};

/// What a source of material of exactly the level of a height has at a place.
fn own(source: &Source, at: u32, north: u64, east: u64) -> Option<i16>
    requires north { north < 180 * degree }
    requires east { east < 360 * degree }
    ensures { result ≡ own Material at (record { north = north; east = east }) (sampled source.now) }
{
    let own = height(source.head.level);
    match source.head.kind {
        Kind::Material if own == at => sample_at(source, north, east),
        _ => None,
    }
}

/// The material that stands of an earlier and a later one: the later one, where it is there.
fn over(earlier: Option<i16>, later: Option<i16>) -> Option<i16>
    ensures { result ≡ option_or later earlier }
{
    later.or(earlier)
}

/// The material at a place of the newest source of exactly the level of a height that has one.
fn newest_own(sources: &[Source], at: u32, north: u64, east: u64) -> Option<i16>
    requires north { north < 180 * degree }
    requires east { east < 360 * degree }
    ensures { result ≡ newest_own Material (map sampled sources.now) at (record { north = north; east = east }) }
{
    let mut newest = None;
    for source in sources {
        newest = over(newest, own(source, at, north, east));
    }
    newest
}

/// The same at the centre of the cell of the height at a corner.
pub(crate) fn own_material(sources: &[Source], height: u32, north: u64, east: u64) -> Option<i16>
    requires least { 1 ≤ height }
    requires most { height ≤ 34 }
    requires corner { IsCorner height (record { north = north; east = east }) }
    ensures { result ≡ newest_own Material (map sampled sources.now) height (centre height
        (record { north = north; east = east })) }
{
    let (up, right) = centre(height, north, east);
    newest_own(sources, height, up, right)
}
