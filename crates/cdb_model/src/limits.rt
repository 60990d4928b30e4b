//! How many versions a store has at most, and how large a tile's file is at most.

/// The greatest version that a store can have.
pub const MOST_VERSIONS: u32 = 4_096;

/// How many values a tile has at most: 1,024 rows of 1,024.
pub const MOST_TILE_VALUES: usize = 1024 * 1024;

/// How many bytes a tile's file has before its raster (TIFF 6.0, sections 2 and 8).
pub const TILE_HEAD_BYTES: usize = 186;

/// How many bytes a tile's file has at most: its head, and two for each value.
pub const MOST_TILE_BYTES: usize = TILE_HEAD_BYTES + 2 * MOST_TILE_VALUES;
