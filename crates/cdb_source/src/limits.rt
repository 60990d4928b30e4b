//! How many bytes a source's file has before its posts, and the greatest load of sources that are
//! published together.

/// How many bytes a source's file has before its posts: the eight that it begins with, and the head.
pub const SOURCE_FRONT_BYTES: usize = 52;

/// The greatest load of a publication, and so the most tiles that one touches.
pub const MOST_LOAD: u128 = 16_384;
