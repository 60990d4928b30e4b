ghost use Rattle.std.specs.Prelude.{◌≡◌};
ghost use Rattle.cdb_source.specs.declared.decode_error.DecodeError.TheVariants.{Memory};

use std::alloc::AllocError;
use thiserror::Error;

/// Why the bytes of a source file gave no source.
#[derive(Clone, Copy, Debug, PartialEq, Eq, Error)]
pub enum DecodeError {
    /// Memory was refused.
    #[error("memory was refused")]
    Memory,
    /// The bytes aren't those of a source, and the first part that isn't of the form begins at this
    /// byte: the first eight bytes at 0, the head at 8, posts that aren't whole at 52, a post of
    /// material outside 0 to 255 at its own first byte, and bytes after the last post where they
    /// begin.
    #[error("no source: the first bad part begins at byte {place}")]
    Bad { place: u32 },
}

impl From<AllocError> for DecodeError {
    ghost from_gives = { λ _ e. e ≡ Memory };

    fn from(_e: AllocError) -> DecodeError {
        DecodeError::Memory
    }
}
