use thiserror::Error;

/// Why a store wasn't recovered.
#[derive(Clone, Copy, Debug, PartialEq, Eq, Error)]
pub enum RecoverError {
    /// A call of the disk failed.
    #[error("a call of the disk failed")]
    Fault,
    /// The file `HEAD` is there and names no version from 1 to 4,096 (version 0, place 0), or a file is
    /// left after 65,536 removals (the version after the newest, place 65,536).
    #[error("no store: version {version}, place {place}")]
    NotAStore { version: u32, place: u32 },
}
