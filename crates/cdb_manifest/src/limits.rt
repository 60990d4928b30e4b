//! How large a record is at most.

use cdb_source::MOST_LOAD;

/// The greatest number of sources of a publication.
pub const MOST_SOURCES: u32 = 64;

/// The greatest number of tiles of a publication, as a record has it.
pub(crate) const MOST_TILES: u32 = MOST_LOAD as u32;

/// How many bytes a record has before its heads.
pub(crate) const FRONT_BYTES: u32 = 20;

/// How many bytes a head has.
pub(crate) const HEAD_BYTES: u32 = 44;

/// How many bytes the entry of a tile has.
pub(crate) const ENTRY_BYTES: u32 = 16;

/// How many bytes a record has at most.
pub const RECORD_BYTES: u32 = FRONT_BYTES + HEAD_BYTES * MOST_SOURCES + ENTRY_BYTES * MOST_TILES;
