ghost use Rattle.std.specs.Prelude.{◌≡◌};
ghost use Rattle.cdb_manifest.specs.declared.record_error.RecordError.TheVariants.{Memory};

use std::alloc::{AllocError, AllocFailed};
use thiserror::Error;

/// Why the bytes of a record gave no record.
#[derive(Clone, Copy, Debug, PartialEq, Eq, Error)]
pub enum RecordError {
    /// Memory was refused.
    #[error("memory was refused")]
    Memory,
    /// The bytes aren't those of a record, and the first field that isn't whole, isn't of its form,
    /// or is a tile that doesn't come after the one before, begins at this byte, from 0. Bytes after
    /// the last tile are bad where they begin.
    #[error("no record: the first bad field begins at byte {place}")]
    Bad { place: u32 },
}

impl From<AllocError> for RecordError {
    ghost from_gives = { λ _ e. e ≡ Memory };

    fn from(_e: AllocError) -> RecordError {
        RecordError::Memory
    }
}

impl<T: Drop> From<AllocFailed<T>> for RecordError {
    ghost from_gives = { λ _ e. e ≡ Memory };

    fn from(_e: AllocFailed<T>) -> RecordError {
        RecordError::Memory
    }
}
