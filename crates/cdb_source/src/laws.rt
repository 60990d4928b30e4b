//! The laws of one level: why the tiles of a level can be made from the tiles of the next finer one,
//! from the new sources of this level, and from what was there before; and those of the place that is
//! told of bytes that aren't a source's. Each function does nothing; its contract is the law, for every
//! list of sources, or for all bytes.
ghost use Rattle.std.specs.Prelude.{◌≡◌, ◌+◌, ◌*◌, ◌≤◌, length};
ghost use Rattle.cdb_source.specs.declared.head.SourceHead as heads;
ghost use Rattle.cdb_source.specs.declared.source.Source as sources;
ghost use Rattle.cdb_source.specs.declared.limits.TheConstants.{SOURCE_FRONT_BYTES};
ghost use Rattle.cdb_source.specs.Texts.{source_front_text, source_text};
ghost use Rattle.cdb_source.specs.Decoding.{OneBadPart, SourceHasNone};
ghost use Rattle.cdb_source.specs.Laws.{BestSource, FinerPlaces, FromFiner, EarlierStand, ThreePasses, LeastOfCell, GreatestOfCell, MostFrequent, MaterialLater, ReachingAlone, Samples, TouchedWithinLoad};

/// The elevation at a place is the sample of the source that is greatest by level, then by number,
/// among the elevation sources of a level at least as fine that have a value there.
pub fn best_source()
    ensures { BestSource }
{}

/// A place of a level is a place of each finer level.
pub fn finer_places()
    ensures { FinerPlaces }
{}

/// The elevation of a level is that of the next finer level where it has a value, else the sample
/// of the newest source of exactly this level that has one, or none.
pub fn elevation_from_finer()
    ensures { FromFiner }
{}

/// Where neither the next finer level nor a later source of exactly this level has a value, the
/// earlier sources decide.
pub fn earlier_sources_stand()
    ensures { EarlierStand }
{}

/// The next finer level, then the later sources of exactly this level, newest first, then what was
/// there before.
pub fn three_passes()
    ensures { ThreePasses }
{}

/// The least elevation of a cell, from its corner's and from those of its four finer cells.
pub fn least_of_cell()
    ensures { LeastOfCell }
{}

/// The greatest elevation of a cell, from its corner's and from those of its four finer cells.
pub fn greatest_of_cell()
    ensures { GreatestOfCell }
{}

/// The mode is the most frequent value, and of equally frequent ones the smallest.
pub fn most_frequent()
    ensures { MostFrequent }
{}

/// The material of a cell with later sources: its four finer cells, then the later sources of
/// exactly this level, then what was there before.
pub fn material_with_later_sources()
    ensures { MaterialLater }
{}

/// The values of a tile, of each family, depend on the sources that reach it, in their order, and
/// on no other.
pub fn reaching_sources_alone()
    ensures { ReachingAlone }
{}

/// A source has values in its box alone, and the rounding is to the nearest whole number, a half
/// upward.
pub fn samples()
    ensures { Samples }
{}

/// The tiles that sources touch are at most as many as their load says.
pub fn touched_within_load()
    ensures { TouchedWithinLoad }
{}

/// The place that `decode` tells of bytes that aren't a source's is the only one: no bytes have two
/// places at which their first bad part begins.
pub fn one_bad_place()
    ensures { OneBadPart }
{}

/// The file of a source has no bad part, at whatever place.
pub fn source_has_none()
    ensures { SourceHasNone }
{}

/// The file of a source has 52 bytes, and two for each post: at most 33,554,484.
pub fn source_file_length()
    ensures front { (head : heads.SourceHead) → length (source_front_text head) ≡ SOURCE_FRONT_BYTES }
    ensures whole { (s : sources.Source)
        → length (source_text s) ≡ SOURCE_FRONT_BYTES + 2 * (s.head.rows * s.head.cols) }
    ensures most { (s : sources.Source) → length (source_text s) ≤ 33554484 }
{}
