//! What the run asks of an engine over a disk that was opened.
ghost use Rattle.std.specs.Prelude.{◌≡◌, ◌≤◌, ℕ, List, is_some, ◌∷◌, [], IfErr};
ghost use Rattle.cdb_model.specs.AnswerTexts.{shelf_fault, disk_fault};
ghost use Rattle.cdb_model.specs.Commands as said;
ghost use Rattle.cdb_model.specs.Grammar.{sentence_in};
ghost use Rattle.cdb_model.specs.Runs.{TurnIn};
ghost use Rattle.cdb_model.specs.Stores.{Which, store_kind};
ghost use Rattle.cdb_model.specs.Transitions.{StateIn};
ghost use Rattle.cdb_engine.specs.OtherSizes.{StepFindsOther};
ghost use Rattle.cdb_engine.specs.StoreAnswers.{LeftIn, TriesIn, advance_answer, AdvanceCause};
ghost use Rattle.cdb_engine.specs.Tracks.{Origin, Leads};
ghost use Rattle.cdb_front.specs.AnswerMeanings.{meant, HasLength};
ghost use Rattle.cdb_front.specs.DamagedSizes.{AnswerFindsOther};
ghost use Rattle.cdb_front.specs.inside.Hearing.{IsStepless};
ghost use Rattle.cdb_front.specs.RunProgress.{Holds};
ghost use Rattle.cdb_front.specs.Stepping.{Counts};

use crate::answers::Answer;
use cdb_engine::{AdvanceError, Progress};
use cdb_files::{Disk, Shelf};
use cdb_model::Line;
use std::alloc::Global;

/// An engine over a disk: one call is one event of the machine.
pub trait StoreCalls<D: Disk>: Drop {
    /// With this disk it stays with a state since a run began with a store; or, whatever the disk
    /// holds, with a state of any store.
    ghost stays: { Self → D → Origin → (w : Which) → StateIn (store_kind w) → Type 0 };

    /// The bytes of the last tile that was asked for.
    ghost bytes: { Self → List ℕ };

    /// The bytes of the last tile that was asked for.
    fn reply(&self) -> &[u8]
        ensures { result.now ≡ bytes self.now };

    /// A publication was given up.
    fn halted(&self) -> bool
        ensures { (d : D) (w : Which) (origin : Origin) (s : StateIn (store_kind w)) → stays self.now d origin w s
            → result ≡ is_some s.halted };

    /// A publication is going.
    fn going(&self) -> bool
        ensures { (d : D) (w : Which) (origin : Origin) (s : StateIn (store_kind w)) → stays self.now d origin w s
            → result ≡ is_some s.going };

    /// How many steps are left of the publication that is going.
    fn left(&self) -> u32
        ensures { (d : D) (w : Which) (origin : Origin) (s : StateIn (store_kind w)) → stays self.now d origin w s
            → LeftIn (store_kind w) s.going result };

    /// Makes one step of the publication that is going.
    fn step(&mut self, disk: &mut D) -> Result<Progress, AdvanceError>
        ensures step { (w : Which) (origin : Origin) (s : StateIn (store_kind w)) → stays self.old disk.old origin w s
            → Leads (TriesIn (store_kind w) s (advance_answer result)) (stays self.new disk.new origin w) }
        ensures reply { bytes self.new ≡ bytes self.old }
        ensures later { D.fault_count disk.old ≤ D.fault_count disk.new }
        ensures cause { AdvanceCause result (D.fault_count disk.old) (D.fault_count disk.new) }
        ensures other { IfErr result StepFindsOther };

    /// Answers a line that asks for no steps.
    fn other<H: Shelf>(&mut self, alloc: Global, disk: &mut D, shelf: &mut H, line: Line) -> Answer
        requires answered { IsStepless line }
        ensures turn { (w : Which) (origin : Origin) (s : StateIn (store_kind w)) → stays self.old disk.old origin w s
            → Leads (TurnIn (store_kind w) (Holds H.tells (H.files shelf.old)) s (said.said (sentence_in line))
            (meant result (bytes self.new)))
            (stays self.new disk.new origin w) }
        ensures length { HasLength result (bytes self.new) }
        ensures files { H.files shelf.new ≡ H.files shelf.old }
        ensures shelf_later { H.fault_count shelf.old ≤ H.fault_count shelf.new }
        ensures shelf_counted { Counts shelf_fault (H.fault_count shelf.old) (H.fault_count shelf.new)
            (meant result (bytes self.new) ∷ []) }
        ensures disk_later { D.fault_count disk.old ≤ D.fault_count disk.new }
        ensures disk_counted { Counts disk_fault (D.fault_count disk.old) (D.fault_count disk.new)
            (meant result (bytes self.new) ∷ []) }
        ensures finds { AnswerFindsOther (meant result (bytes self.new)) };
}
