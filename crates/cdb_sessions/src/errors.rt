use thiserror::Error;

/// Why a session wasn't opened.
#[derive(Clone, Copy, Debug, PartialEq, Eq, Error)]
pub enum SessionError {
    /// Memory was refused, or `2^32 - 1` sessions were opened.
    #[error("memory was refused")]
    Memory,
    /// So many sessions are open as can be, 64.
    #[error("64 sessions are open")]
    Many,
}

/// No session of this number is open.
#[derive(Clone, Copy, Debug, PartialEq, Eq, Error)]
#[error("no session of this number is open")]
pub struct Unknown;

/// Why a tile wasn't given.
#[derive(Clone, Copy, Debug, PartialEq, Eq, Error)]
pub enum TileError {
    /// A call of the disk failed.
    #[error("a call of the disk failed")]
    Fault,
    /// No session of this number is open.
    #[error("no session of this number is open")]
    Unknown,
    /// The tile's file isn't there or has another size than its form gives.
    #[error("a file that should have {expected} bytes has another size, or isn't there")]
    Damaged { expected: u64, found: Option<u64> },
}
