//! Steps of the publication that is going.
ghost use Rattle.std.specs.Option.{option_map};
ghost use Rattle.std.specs.Prelude.{◌≡◌, ◌≤◌, ℕ, List, ◌∷◌, [], IfSome, IfErr};
ghost use Rattle.cdb_model.specs.AnswerTexts.{disk_fault};
ghost use Rattle.cdb_model.specs.Runs.{behind};
ghost use Rattle.cdb_model.specs.Stores.{Which, store_kind};
ghost use Rattle.cdb_model.specs.Transitions.{StateIn, MakesIn, StepLineIn, StepAllLineIn};
ghost use Rattle.cdb_front.specs.AnswerMeanings.{meant, said_late, IsBare, IsQuiet};
ghost use Rattle.cdb_front.specs.DamagedSizes.{AnswerFindsOther};
ghost use Rattle.cdb_engine.specs.Tracks.{Origin, Leads};
ghost use Rattle.cdb_engine.specs.OtherSizes.{StepFindsOther};
ghost use Rattle.cdb_engine.specs.StoreAnswers.{AdvanceCause};
ghost use Rattle.cdb_front.specs.Stepping.{Counts};
ghost use Rattle.cdb_front.specs.inside.Stepping.{step_end};

use crate::answers::Answer;
use crate::store_calls::StoreCalls;
use cdb_engine::{AdvanceError, Progress};
use cdb_files::Disk;

/// What is said once a step was tried: nothing while the publication goes on.
fn after_step(outcome: Result<Progress, AdvanceError>) -> Option<Answer>
    ensures said { (reply : List ℕ) → option_map (λ answer. meant answer reply) result ≡ step_end outcome }
    ensures bare { IfSome result IsBare }
    ensures quiet { IfSome result IsQuiet }
    ensures counted { (before now : ℕ) (reply : List ℕ) → before ≤ now → AdvanceCause outcome before now
        → IfSome result (λ answer. Counts disk_fault before now (meant answer reply ∷ [])) }
    ensures finds { (reply : List ℕ) → IfErr outcome StepFindsOther
        → IfSome result (λ answer. AnswerFindsOther (meant answer reply)) }
{
    match outcome {
        Ok(Progress::Going) => None,
        Ok(Progress::Published(version)) => Some(Answer::Published(version)),
        Err(AdvanceError::Halted) => Some(Answer::Going),
        Err(AdvanceError::Nothing) => Some(Answer::Going),
        Err(AdvanceError::Fault) => Some(Answer::Fault),
        Err(AdvanceError::Damaged { expected, found }) => Some(Answer::Damaged(expected, found)),
    }
}

/// Makes so many steps, or as many as are left, and answers what the last one that was made says: that
/// the publication goes on where none says otherwise.
pub fn make_steps<D: Disk, E: StoreCalls<D>>(engine: &mut E, disk: &mut D, most: u32) -> Answer
    ensures makes { (w : Which) (origin : Origin) (s : StateIn (store_kind w)) → E.stays engine.old disk.old origin w s
        → Leads (MakesIn (store_kind w) most s (meant result (E.bytes engine.new)))
        (E.stays engine.new disk.new origin w) }
    ensures reply { E.bytes engine.new ≡ E.bytes engine.old }
    ensures bare { IsBare result }
    ensures quiet { IsQuiet result }
    ensures later { D.fault_count disk.old ≤ D.fault_count disk.new }
    ensures counted { Counts disk_fault (D.fault_count disk.old) (D.fault_count disk.new)
        (meant result (E.bytes engine.new) ∷ []) }
    ensures finds { AnswerFindsOther (meant result (E.bytes engine.new)) }
{
    for _ in 0..most {
        match after_step(engine.step(disk)) {
            None => (),
            Some(answer) => return answer,
        }
    }
    Answer::Going
}

/// Answers a line that asks for so many steps.
pub fn hasten<D: Disk, E: StoreCalls<D>>(engine: &mut E, disk: &mut D, most: u32) -> Answer
    ensures hastens { (w : Which) (origin : Origin) (s : StateIn (store_kind w))
        → E.stays engine.old disk.old origin w s
        → Leads (StepLineIn (store_kind w) s most (meant result (E.bytes engine.new)))
        (E.stays engine.new disk.new origin w) }
    ensures bare { IsBare result }
    ensures quiet { IsQuiet result }
    ensures later { D.fault_count disk.old ≤ D.fault_count disk.new }
    ensures counted { Counts disk_fault (D.fault_count disk.old) (D.fault_count disk.new)
        (meant result (E.bytes engine.new) ∷ []) }
    ensures finds { AnswerFindsOther (meant result (E.bytes engine.new)) }
{
    if engine.halted() {
        return Answer::Halted;
    }
    if !engine.going() {
        return Answer::Nothing;
    }
    if most == 0 {
        return Answer::Range;
    }
    make_steps(engine, disk, most)
}

/// Answers a line that asks for all steps that are left.
pub fn complete<D: Disk, E: StoreCalls<D>>(engine: &mut E, disk: &mut D) -> Answer
    ensures completes { (w : Which) (origin : Origin) (s : StateIn (store_kind w))
        → E.stays engine.old disk.old origin w s
        → Leads (StepAllLineIn (store_kind w) s (meant result (E.bytes engine.new)))
        (E.stays engine.new disk.new origin w) }
    ensures bare { IsBare result }
    ensures quiet { IsQuiet result }
    ensures later { D.fault_count disk.old ≤ D.fault_count disk.new }
    ensures counted { Counts disk_fault (D.fault_count disk.old) (D.fault_count disk.new)
        (meant result (E.bytes engine.new) ∷ []) }
    ensures finds { AnswerFindsOther (meant result (E.bytes engine.new)) }
{
    if engine.halted() {
        return Answer::Halted;
    }
    if !engine.going() {
        return Answer::Nothing;
    }
    let most = engine.left();
    make_steps(engine, disk, most)
}

/// What is said of steps that no line asked for.
pub fn late(answer: Answer) -> Option<Answer>
    requires bare { IsBare answer }
    ensures said { (reply : List ℕ) → said_late result reply ≡ behind (meant answer reply) }
    ensures bare { IfSome result IsBare }
{
    match answer {
        Answer::Going => None,
        Answer::Fault => Some(Answer::LateFault),
        Answer::Damaged(expected, found) => Some(Answer::LateDamaged(expected, found)),
        other => Some(other),
    }
}
