//! A store is opened.
ghost use Rattle.std.specs.Prelude.{◌≡◌, ℕ, ◌≤◌, List, [], ◌∷◌, IfOk, IfErr, Err};
ghost use Rattle.cdb_source.specs.declared.source.Source as given;
ghost use Rattle.cdb_model.specs.Causes.{Rose};
ghost use Rattle.cdb_model.specs.Images.{Base, StandsForOne};
ghost use Rattle.cdb_model.specs.KnownStore.{start_at};
ghost use Rattle.cdb_model.specs.Stores.{known, any_store};
ghost use Rattle.cdb_model.specs.Transitions.{IsFreshIn};
ghost use Rattle.cdb_files.specs.Moments.{AddsOnly};
ghost use Rattle.cdb_recover.specs.Answers.{KeepsStore};
ghost use Rattle.cdb_engine.specs.Checks.{AreOpened};
ghost use Rattle.cdb_engine.specs.Stays.{Stays, bare_of};
ghost use Rattle.cdb_engine.specs.Store.{IsStore, IsStoreFound, TellsNoStore};
ghost use Rattle.cdb_engine.specs.inside.Store.{open_error_of};
ghost use Rattle.cdb_engine.specs.Tracks.{Tracks};

use crate::engine::Engine;
use cdb_chain::{Chain, OpenError};
use cdb_files::Disk;
use cdb_recover::{RecoverError, recover};
use cdb_sessions::Sessions;
use std::alloc::Global;

/// Why recovery failed, as why opening did.
fn recovery_error(error: RecoverError) -> OpenError
    ensures { result ≡ open_error_of error }
{
    match error {
        RecoverError::Fault => OpenError::Fault,
        RecoverError::NotAStore { version, place } => OpenError::NotAStore { version, place },
    }
}

impl Engine {
    /// Opens a store: recovery first, and then the records of the versions up to the newest are read.
    /// `Fault` only where a call of the disk failed. `NotAStore` exactly where recovery refuses the
    /// store, or else the record of a version isn't there, is too long, isn't of its form, or is of
    /// another version. `Memory`: memory for the records or for the tiles that are kept was refused.
    /// Whatever it answers, nothing is removed but what an unfinished publication left.
    pub fn open<D: Disk>(alloc: Global, disk: &mut D) -> Result<Engine, OpenError>
        ensures begins { D.tells → (list : List (List given.Source)) (early : List (List (List given.Source)))
            → IsStore list early (D.state disk.old)
            → IfOk result (λ engine. Tracks engine (D.state disk.new) (start_at list)) }
        ensures follows { D.tells → (base : Base) (faults : ℕ) → base.moment ≡ D.clock disk.old
            → IsStore base.list base.early (D.state disk.old) → faults ≤ D.fault_count disk.new
            → IfOk result (λ engine. Stays D.tells D.clock D.fault_count D.since D.state
            (record { store = base; opened = D.clock disk.new; faults = faults }) disk.new engine known
            (start_at base.list)) }
        ensures fresh { IfOk result (λ engine. IsFreshIn any_store (bare_of engine)) }
        ensures read { D.tells → IfOk result (λ engine.
            AreOpened (D.state disk.old).present (D.state disk.new).present engine.chain.records) }
        ensures nothing_kept { IfOk result (λ engine. engine.kept ≡ []) }
        ensures no_reply { IfOk result (λ engine. engine.reply ≡ []) }
        ensures moments { D.tells → (list : List (List given.Source)) (early : List (List (List given.Source)))
            → IsStore list early (D.state disk.old)
            → AddsOnly D.clock D.since disk.old disk.new (StandsForOne (list ∷ early)) }
        ensures store { D.tells → (list : List (List given.Source)) (early : List (List (List given.Source)))
            → IsStore list early (D.state disk.old) → IfErr result IsStoreFound }
        ensures no_store { TellsNoStore D.tells (D.state disk.old).present (D.state disk.new).present result }
        ensures kept { D.tells → KeepsStore (D.state disk.old).present (D.state disk.new).present }
        ensures later { D.fault_count disk.old ≤ D.fault_count disk.new }
        ensures cause { result ≡ Err OpenError.Fault → Rose (D.fault_count disk.old) (D.fault_count disk.new) }
    {
        let newest = match recover(disk) {
            Ok(newest) => newest,
            Err(error) => return Err(recovery_error(error)),
        };
        let chain = match Chain::open(alloc, disk, newest) {
            Ok(chain) => chain,
            Err(error) => return Err(error),
        };
        match Sessions::new(alloc) {
            Ok(sessions) => Ok(Engine {
                chain,
                work: None,
                pending: Vec::new(alloc),
                sessions,
                halted: None,
            }),
            Err(_) => Err(OpenError::Memory),
        }
    }
}
