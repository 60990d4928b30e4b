//! What a step leaves an engine with.
ghost use Rattle.std.specs.Prelude.{◌≡◌};
ghost use Rattle.cdb_engine.specs.StoreAnswers.{advance_of};
ghost use Rattle.cdb_engine.specs.inside.StoreAnswers.{work_after, halt_after};

use crate::errors::AdvanceError;
use cdb_publish::{Progress, Publication, StepError};

/// The publication that goes on, the count at which the engine is halted, and the answer.
#[derive(Drop)]
pub(crate) struct Settled {
    pub(crate) work: Option<Publication>,
    pub(crate) halted: Option<u64>,
    pub(crate) answer: Result<Progress, AdvanceError>,
}

/// What a step leaves that was made of a publication, with so many failed calls of the disk.
pub(crate) fn settle(made: Result<Progress, StepError>, work: Publication, faults: u64) -> Settled
    ensures work { result.work ≡ work_after made work }
    ensures halted { result.halted ≡ halt_after made faults }
    ensures answer { result.answer ≡ advance_of made }
{
    match made {
        Ok(Progress::Going) => Settled {
            work: Some(work),
            halted: None,
            answer: Ok(Progress::Going),
        },
        Ok(Progress::Published(version)) => Settled {
            work: None,
            halted: None,
            answer: Ok(Progress::Published(version)),
        },
        Err(StepError::Fault) => Settled {
            work: None,
            halted: Some(faults),
            answer: Err(AdvanceError::Fault),
        },
        Err(StepError::Damaged { expected, found }) => Settled {
            work: None,
            halted: Some(faults),
            answer: Err(AdvanceError::Damaged { expected, found }),
        },
    }
}
