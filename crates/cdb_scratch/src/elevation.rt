//! The elevation at a place.
ghost use Rattle.std.specs.Prelude.{◌≡◌, ◌*◌, ◌<◌, ◌≤◌};
ghost use Rattle.cdb_grid.specs.Units.{degree};
ghost use Rattle.cdb_source.specs.Offers.{over};
ghost use Rattle.cdb_source.specs.Values.{sampled, offer, elevation_of};

use cdb_cut::sample_at;
use cdb_grid::units::height;
use cdb_source::{Kind, Source};

/// What a source has for an elevation of a height, with the height of its own level.
fn offer(source: &Source, at_most: u32, north: u64, east: u64) -> Option<(u32, i16)>
    requires north { north < 180 * degree }
    requires east { east < 360 * degree }
    ensures { result ≡ offer at_most (record { north = north; east = east }) (sampled source.now) }
{
    let own = height(source.head.level);
    match source.head.kind {
        Kind::Elevation if own <= at_most => match sample_at(source, north, east) {
            Some(value) => Some((own, value)),
            None => None,
        },
        _ => None,
    }
}

/// The offer that stands of an earlier and a later one: the one of the finer level, and the later
/// one of two of the same level.
fn over(earlier: Option<(u32, i16)>, later: Option<(u32, i16)>) -> Option<(u32, i16)>
    ensures { result ≡ over earlier later }
{
    match (earlier, later) {
        (Some(first), Some(second)) => Some(if second.0 <= first.0 { second } else { first }),
        (first, None) => first,
        (None, second) => second,
    }
}

/// The elevation of a height at a place: the sample of the source of the finest level, and of
/// several the last one, among those of a level at least as fine that have a value there.
pub(crate) fn elevation(sources: &[Source], height: u32, north: u64, east: u64) -> Option<i16>
    requires north { north < 180 * degree }
    requires east { east < 360 * degree }
    ensures { result ≡ elevation_of sources.now height (record { north = north; east = east }) }
{
    let mut best = None;
    for source in sources {
        best = over(best, offer(source, height, north, east));
    }
    match best {
        Some((_, value)) => Some(value),
        None => None,
    }
}
