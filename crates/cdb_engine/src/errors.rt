use cdb_publish::PlanError;
use cdb_source::Source;
use cdb_tiff_read::TiffError;
use thiserror::Error;

/// Why no source can be submitted now.
#[derive(Clone, Copy, Debug, PartialEq, Eq, Error)]
pub enum ReadyError {
    /// A step of this opening failed or found a file damaged.
    #[error("the writer is halted")]
    Halted,
    /// A publication is going.
    #[error("a publication is going")]
    Busy,
    /// 64 sources are pending.
    #[error("64 sources are pending")]
    Full,
}

/// Why no source was made of an order with posts.
#[derive(Clone, Copy, Debug, PartialEq, Eq, Error)]
pub enum InlineError {
    /// Memory was refused.
    #[error("memory was refused")]
    Memory,
    /// The order spells no source.
    #[error("the order spells no source")]
    Range,
}

/// Why no source was made of an order with a file.
#[derive(Clone, Copy, Debug, PartialEq, Eq, Error)]
pub enum LoadError {
    /// Memory was refused.
    #[error("memory was refused")]
    Memory,
    /// A call of the shelf failed.
    #[error("a call of the shelf failed")]
    Shelf,
    /// There is no such file.
    #[error("there is no such file")]
    Absent,
    /// The file has `size` bytes, more than 67,108,864.
    #[error("the file has {size} bytes, more than 67,108,864")]
    Big { size: u64 },
    /// The file isn't a TIFF file that is read.
    #[error("the file isn't read: {0}")]
    Input(TiffError),
    /// The order spells no source with this file.
    #[error("the order spells no source with this file")]
    Range,
}

/// Memory for one more source was refused: the source comes back.
#[derive(Debug, Drop)]
pub struct SubmitRefused {
    pub source: Source,
}

/// Why no publication was begun.
#[derive(Clone, Copy, Debug, PartialEq, Eq, Error)]
pub enum PublishError {
    /// A step of this opening failed or found a file damaged.
    #[error("the writer is halted")]
    Halted,
    /// A publication is going.
    #[error("a publication is going")]
    Busy,
    /// No source is pending.
    #[error("no source is pending")]
    Nothing,
    /// The load of the pending sources, `count`, is above 16,384.
    #[error("the load of the pending sources is {count}, above 16384")]
    Large { count: u128 },
    /// The tile entries of all records would be `count`, above 1,000,000.
    #[error("the store would have {count} tile entries, above 1000000")]
    Entries { count: u32 },
    /// There are 4,096 versions.
    #[error("the store has 4096 versions")]
    Versions,
    /// Memory was refused.
    #[error("out of memory")]
    Memory,
}

/// Why no step was made, or a step failed.
#[derive(Clone, Copy, Debug, PartialEq, Eq)]
pub enum AdvanceError {
    /// A step of this opening failed or found a file damaged.
    Halted,
    /// No publication is going.
    Nothing,
    /// A call of the disk failed.
    Fault,
    /// A file that the step needs has another size than its form gives, or isn't there.
    Damaged { expected: u64, found: Option<u64> },
}

/// Why no further publication was made.
#[derive(Clone, Copy, Debug, PartialEq, Eq, Error)]
pub enum PopulateError {
    /// Memory was refused.
    #[error("out of memory")]
    Memory,
    /// A call of the disk failed.
    #[error("a call of the disk failed")]
    Fault,
    /// The tile entries of all records would be `count`, above 1,000,000.
    #[error("the store would have {count} tile entries, above 1000000")]
    Entries { count: u32 },
    /// There are 4,096 versions.
    #[error("the store has 4096 versions")]
    Versions,
    /// A file has another size than its form gives, `expected`, or isn't there.
    #[error("a file is damaged")]
    Damaged { expected: u64, found: Option<u64> },
}

impl From<PlanError> for PublishError {
    ghost use Rattle.std.specs.Prelude.{◌≡◌};
    ghost use Rattle.cdb_engine.specs.StoreAnswers.{refusal_of};

    ghost from_gives = { λ p e. e ≡ refusal_of p };

    fn from(refused: PlanError) -> PublishError {
        match refused {
            PlanError::Memory => PublishError::Memory,
            PlanError::Large { count } => PublishError::Large { count },
            PlanError::Entries { count } => PublishError::Entries { count },
            PlanError::Versions => PublishError::Versions,
        }
    }
}
