use arrayvec::{ArrayString, ArrayVec};
use cdb_grid::{Fraction, Tile};
use cdb_source::Kind;

/// A line of the script.
#[derive(Debug, Drop)]
pub enum Line {
    /// A source whose posts stand in the line.
    Inline(InlineWords),
    /// A source whose posts a file of the shelf holds.
    Source(LoadWords),
    Publish,
    /// So many publication steps, or as many as are left.
    Step(u32),
    /// All publication steps that are left.
    StepAll,
    Open,
    /// A request for a tile in the session of this number.
    Tile(u32, Tile),
    /// The end of the session of this number.
    Close(u32),
    /// A request for the number of the newest version.
    Versions,
    Quit,
    Blank,
}

/// The words of a source whose posts stand in the line. `lat` and `lon` are its south-west corner and
/// `dlat` and `dlon` its steps, in degrees. The posts, up to 64, come row by row, the north row first,
/// each from west to east; for a source there are `rows` times `cols` of them.
#[derive(Debug, Drop)]
pub struct InlineWords {
    pub kind: Kind,
    pub level: i32,
    pub lat: Fraction,
    pub lon: Fraction,
    pub dlat: Fraction,
    pub dlon: Fraction,
    pub rows: u32,
    pub cols: u32,
    pub posts: ArrayVec<i32, 64>,
}

/// The words of a source whose posts a file holds. `lat` and `lon` are its south-west corner and
/// `dlat` and `dlon` its steps, in degrees. A post that is `novalue` stands for none, and `path` is the
/// file's path in the shelf.
#[derive(Debug, Drop)]
pub struct LoadWords {
    pub kind: Kind,
    pub level: i32,
    pub lat: Fraction,
    pub lon: Fraction,
    pub dlat: Fraction,
    pub dlon: Fraction,
    pub novalue: i32,
    pub path: ArrayString<128>,
}
