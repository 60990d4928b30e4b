//! The files of a store are checked.
ghost use Rattle.std.specs.Prelude.{◌≡◌, None, IfOk};
ghost use Rattle.cdb_model.specs.KnownStore.{KnownState};
ghost use Rattle.cdb_model.specs.Stores.{Which, store_kind};
ghost use Rattle.cdb_model.specs.Transitions.{StateIn};
ghost use Rattle.cdb_check.specs.Expected.{expected_files};
ghost use Rattle.cdb_check.specs.Outcome.{FirstDiffering, OnlyReads, IsFaultCaused, TellsCounts};
ghost use Rattle.cdb_engine.specs.Checks.{AgreesWith};
ghost use Rattle.cdb_engine.specs.Stays.{Stays};
ghost use Rattle.cdb_engine.specs.Tracks.{Origin, Tracks};

use crate::engine::Engine;
use cdb_check::{Agreed, CheckError, check};
use cdb_files::Disk;
use std::alloc::Global;

impl Engine {
    /// Whether all files of the store are what its records and source files give, and how many versions
    /// and files there are: each record, source file and tile. It only reads, and holds all sources of the
    /// store at once. `Differs` exactly where a file isn't so, with the path of the first by version, then
    /// the record, the sources, the tiles; never over a store that the engine tracks. `Fault` only where a
    /// call of the disk failed. `Memory`: memory for the sources or for a tile was refused.
    pub fn check<D: Disk>(&self, alloc: Global, disk: &mut D) -> Result<Agreed, CheckError>
        ensures finds { D.tells
            → FirstDiffering (D.state disk.old).present (expected_files self.now.chain.records) result }
        ensures told { IfOk result (TellsCounts self.now.chain.records) }
        ensures agrees { D.tells → (s : KnownState) → Tracks self.now (D.state disk.old) s → s.halted ≡ None
            → AgreesWith s.list result }
        ensures stays { (w : Which) (origin : Origin) (s : StateIn (store_kind w))
            → Stays D.tells D.clock D.fault_count D.since D.state origin disk.old self.now w s
            → Stays D.tells D.clock D.fault_count D.since D.state origin disk.new self.now w s }
        ensures looks { OnlyReads D.clock D.since D.state D.fault_count disk.old disk.new }
        ensures cause { IsFaultCaused (D.fault_count disk.old) (D.fault_count disk.new) result }
    {
        check(alloc, &self.chain, disk)
    }
}
