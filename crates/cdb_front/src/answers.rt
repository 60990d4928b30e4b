use cdb_tiff_base::TiffCause;

/// The answer to a line, or what is said of the steps after one. The bytes of a tile stand in the
/// engine.
#[derive(Clone, Copy, Debug, PartialEq, Eq)]
pub enum Answer {
    /// So many sources are pending.
    Source(u32),
    /// The version that was begun, and how many files of tiles it has.
    Begun(u32, u32),
    /// The publication goes on.
    Going,
    Published(u32),
    /// The number of a session, and the version that it answers from.
    Session(u32, u32),
    Missing,
    /// The length of the tile's file.
    Tile(u32),
    Closed,
    Versions(u32),
    Long,
    Syntax,
    /// Where the first wrong field of a file name begins.
    Name(u32),
    /// A publication was given up, and none is begun any more.
    Halted,
    Busy,
    /// No session of that number is open.
    Unknown,
    /// 64 sessions are open.
    Many,
    Nothing,
    Full,
    Shelf,
    Absent,
    TooBig,
    Input(TiffCause),
    Range,
    /// The load of the pending sources.
    Large(u128),
    /// How many tiles the records would have together.
    Entries(u32),
    /// There are 4,096 versions.
    FullOfVersions,
    Fault,
    /// The length that a file should have, and the one that it has, if it is there.
    Damaged(u64, Option<u64>),
    Memory,
    /// A step that no line asked for failed.
    LateFault,
    /// A step that no line asked for found a file damaged.
    LateDamaged(u64, Option<u64>),
}
