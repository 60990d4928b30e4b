use cdb_files::Path;
use thiserror::Error;

/// Why a check didn't find that all files agree.
#[derive(Clone, Copy, Debug, PartialEq, Eq, Error)]
pub enum CheckError {
    /// Memory was refused.
    #[error("memory was refused")]
    Memory,
    /// A call of the disk failed.
    #[error("a call of the disk failed")]
    Fault,
    /// The file at `path` is the first that is absent or has other bytes than it must have.
    #[error("a file differs")]
    Differs { path: Path },
}

/// All files agree: there are so many versions, and so many records, source files and tiles.
#[derive(Clone, Copy, Debug, PartialEq, Eq)]
pub struct Agreed {
    pub versions: u32,
    pub files: u32,
}
