//! Laws of the machine and of its runs, each the contract of a function that does nothing. A run over
//! any shelf is one over a shelf of which nothing is known.
ghost use Rattle.cdb_model.specs.MachineLaws.{OneAnswer, FreeAnswers, ManySteps};
ghost use Rattle.cdb_model.specs.RunLaws.{AnyShelf, BegunInOrder, BegunFromStore, AcknowledgedComplete, HaltsByFault, HaltedBeginsNone, SessionsStay, PlainAnswers};

/// Over a store whose publications are known, a state and an event settle the answer and the next
/// state, but for want of memory and a failed call of a device: two answers that are neither of these
/// are the same, byte for byte where they are a tile's, and so are the states that they lead to.
pub fn one_answer()
    ensures { OneAnswer }
{}

/// Want of memory and a failed call of a device leave the state as it was, but for a failed step of a
/// publication, which is given up: the writer is halted, and all else stays.
pub fn free_answers()
    ensures { FreeAnswers }
{}

/// Steps that are made one after another leave a publication with so many fewer left, or complete
/// where no more were left, or given up.
pub fn many_steps()
    ensures { ManySteps }
{}

/// The publications that a run begins by its lines `publish` are what its last state knows of more
/// than its first: those that are complete, and the one that is going or was given up.
pub fn begun_in_order()
    ensures { BegunInOrder AnyShelf }
{}

/// Those of a run from a store: the complete ones follow the store's own.
pub fn begun_from_store()
    ensures { BegunFromStore AnyShelf }
{}

/// Whatever was written of a run, the publications that it acknowledges are the first of the complete
/// ones.
pub fn acknowledged_complete()
    ensures { AcknowledgedComplete AnyShelf }
{}

/// A run that halts the writer says that the disk failed.
pub fn halts_by_fault()
    ensures { HaltsByFault AnyShelf }
{}

/// A halted writer stays halted, begins no publication and completes none.
pub fn halted_begins_none()
    ensures { HaltedBeginsNone AnyShelf }
{}

/// A session that stays open is the same one and answers from the same sources, whatever is published
/// meanwhile.
pub fn sessions_stay()
    ensures { SessionsStay AnyShelf }
{}

/// Where no answer says that a device failed, each is one of the machine's table or want of memory.
pub fn plain_answers()
    ensures { PlainAnswers AnyShelf }
{}
