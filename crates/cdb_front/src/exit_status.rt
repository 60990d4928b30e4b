ghost use Rattle.std.specs.Prelude.{◌≡◌};
ghost use Rattle.cdb_front.specs.StatusCodes.{code_of};

use cdb_files::Path;

/// How a run ended.
#[derive(Clone, Copy, Debug, PartialEq, Eq)]
pub enum Status {
    /// The input was read to its end or to `quit`, and every answer was written; or all files of the store
    /// agree, and that was written.
    Done,
    /// Memory was refused before the first line was read, or before all files were looked at.
    Memory,
    /// The words aren't options of the program.
    Usage,
    /// A read of the input failed.
    InputFault,
    /// A write to the output failed.
    OutputFault,
    /// A call of the store's disk failed while the store was opened or its files were looked at.
    StoreFault,
    /// What the disk holds is no store: `place` is the byte from 0 of the record of `version`, or of
    /// the file that names the newest version, at which its first wrong field begins.
    NotAStore { version: u32, place: u32 },
    /// `2^32` bytes were taken, and no end and no `quit` was among them.
    TooLong,
    /// A file of the store isn't what its records and source files give: the one at `path` is the first.
    Differs { path: Path },
    /// The store has no room for a further publication.
    Refused(Limit),
    /// A file has another size than its form gives, `expected`, or isn't there.
    Damaged { expected: u64, found: Option<u64> },
}

/// Why a store has no room for a further publication.
#[derive(Clone, Copy, Debug, PartialEq, Eq)]
pub enum Limit {
    /// The tile entries of all records would be `count`, above 1,000,000.
    Entries { count: u32 },
    /// There are 4,096 versions.
    Versions,
}

impl Status {
    /// The exit status of the program.
    pub fn code(&self) -> u8
        ensures { result ≡ code_of self.now }
    {
        match self {
            Status::Done => 0,
            Status::Memory => 1,
            Status::Usage => 2,
            Status::InputFault => 3,
            Status::OutputFault => 4,
            Status::StoreFault => 5,
            Status::NotAStore { .. } => 6,
            Status::TooLong => 7,
            Status::Differs { .. } => 8,
            Status::Refused(_) => 9,
            Status::Damaged { .. } => 11,
        }
    }
}
