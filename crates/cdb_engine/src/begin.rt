//! Whether a publication can be begun.
ghost use Rattle.std.specs.Prelude.{◌≡◌, ◌≢◌, [], None, IfErr, OnOk};
ghost use Rattle.cdb_model.specs.Stores.{Which, store_kind};
ghost use Rattle.cdb_model.specs.Transitions.{StateIn, PublishLineIn};
ghost use Rattle.cdb_engine.specs.StoreAnswers.{publish_refusal};
ghost use Rattle.cdb_engine.specs.Stays.{Shows};

use crate::engine::Engine;
use crate::errors::PublishError;

/// Whether a publication can be begun. `Halted` comes first, then `Busy`, then `Nothing`.
pub(crate) fn can_begin(engine: &Engine) -> Result<(), PublishError>
    ensures running { OnOk result (engine.now.halted ≡ None) }
    ensures idle { OnOk result (engine.now.work ≡ None) }
    ensures some { OnOk result (engine.now.pending ≢ []) }
    ensures refused { IfErr result (λ error. (w : Which) (s : StateIn (store_kind w)) → Shows engine.now w s
        → PublishLineIn (store_kind w) s (publish_refusal error) s) }
{
    if engine.halted.is_some() {
        Err(PublishError::Halted)
    } else if engine.work.is_some() {
        Err(PublishError::Busy)
    } else if engine.pending.is_empty() {
        Err(PublishError::Nothing)
    } else {
        Ok(())
    }
}
