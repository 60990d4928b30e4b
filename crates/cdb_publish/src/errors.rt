use cdb_files::Failed;
use std::alloc::AllocError;
use thiserror::Error;

/// What a step led to.
#[derive(Clone, Copy, Debug, PartialEq, Eq)]
pub enum Progress {
    /// Some steps are left.
    Going,
    /// This version is the newest.
    Published(u32),
}

/// Why a step wasn't made.
#[derive(Clone, Copy, Debug, PartialEq, Eq, Error)]
pub enum StepError {
    /// A call of the disk failed.
    #[error("a call of the disk failed")]
    Fault,
    /// A file that the step needs has another size than its form gives, or isn't there.
    #[error("a file that should have {expected} bytes has another size, or isn't there")]
    Damaged { expected: u64, found: Option<u64> },
}

/// Why a publication wasn't begun.
#[derive(Clone, Copy, Debug, PartialEq, Eq, Error)]
pub enum PlanError {
    /// Memory was refused.
    #[error("memory was refused")]
    Memory,
    /// The load of its sources is above 16,384.
    #[error("the load is {count}, above 16,384")]
    Large { count: u128 },
    /// The tile entries would be above 1,000,000.
    #[error("the entries would be {count}, above 1,000,000")]
    Entries { count: u32 },
    /// There are 4,096 versions.
    #[error("there are 4,096 versions")]
    Versions,
}

impl From<AllocError> for PlanError {
    ghost use Rattle.std.specs.Prelude.{◌≡◌};
    ghost use Rattle.cdb_publish.specs.declared.errors.PlanError.TheVariants.{Memory};

    ghost from_gives = { λ _ e. e ≡ Memory };

    fn from(_e: AllocError) -> PlanError {
        PlanError::Memory
    }
}

impl From<Failed> for StepError {
    ghost use Rattle.std.specs.Prelude.{◌≡◌};
    ghost use Rattle.cdb_publish.specs.declared.errors.StepError.TheVariants.{Fault};

    ghost from_gives = { λ _ e. e ≡ Fault };

    fn from(_failed: Failed) -> StepError {
        StepError::Fault
    }
}
