//! Laws, each the contract of a function that does nothing.
ghost use Rattle.cdb_cut.specs.Laws.{PlainValues, ReducedMeans, WindowsAreTested, TileFromFiner, FromOwn, StandsAt};

/// A value of a tile is never the number that stands for no value.
pub fn values_are_plain()
    ensures { PlainValues }
{}

/// A common divisor may be taken out of the step between rows and the distance to a point, and one out
/// of those along columns: the value of a source there stays.
pub fn means_are_reduced()
    ensures { ReducedMeans }
{}

/// Whether a tile has a window of a source follows from the two alone: the kinds agree, and some place of
/// the tile lies in the source's box.
pub fn windows_are_tested()
    ensures { WindowsAreTested }
{}

/// A tile from the tiles of the next finer level under it, folded in one after the other. One that no
/// source reaches is passed over, and at the finest level there is none. Least and greatest elevations
/// begin with the elevations of the same cells, and are whole then.
pub fn tile_from_finer()
    ensures { TileFromFiner }
{}

/// Elevations and materials then take the sources of exactly the tile's level, newest first, where they
/// have no value, and the tile that earlier sources gave for the rest. A source that doesn't reach the
/// tile, and an earlier tile that isn't there, are passed over.
pub fn tile_from_own_level()
    ensures { FromOwn }
{}

/// Where a finer tile stands in the coarser one that holds it is what `cdb_grid::spot_of` tells.
pub fn spot_is_where_it_stands()
    ensures { StandsAt }
{}
