//! A publication is begun.
ghost use Rattle.std.specs.Prelude.{◌≡◌, OnErr};
ghost use Rattle.cdb_model.specs.Stores.{Which, store_kind};
ghost use Rattle.cdb_model.specs.Transitions.{StateIn, PublishLineIn};
ghost use Rattle.cdb_engine.specs.StoreAnswers.{publish_answer, IsSameButRoom};
ghost use Rattle.cdb_engine.specs.Stays.{Stays};
ghost use Rattle.cdb_engine.specs.Tracks.{Origin, Leads};

use crate::begin::can_begin;
use crate::engine::Engine;
use crate::errors::PublishError;
use crate::reply::Begun;
use crate::room::make_room;
use cdb_files::Disk;
use cdb_publish::Publication;
use std::alloc::Global;
use std::mem::replace;

impl Engine {
    /// Begins a publication of the sources that are pending. It has a file for each tile that they
    /// touch. It takes all the memory that its steps need, and makes no call of the disk. `Halted` comes
    /// first: a step of this opening failed or found a file damaged. Then `Busy`: a publication is
    /// going. `Nothing`: no source is pending. `Large`: the load of the sources, `count`, is above
    /// 16,384. `Entries`: the tile entries of all records would be `count`, above 1,000,000.
    /// `Versions`: there are 4,096 versions. `Memory`: memory was refused.
    pub fn publish<D: Disk>(&mut self, alloc: Global, disk: &mut D) -> Result<Begun, PublishError>
        ensures begins { (w : Which) (origin : Origin) (s : StateIn (store_kind w))
            → Stays D.tells D.clock D.fault_count D.since D.state origin disk.old self.old w s
            → Leads (PublishLineIn (store_kind w) s (publish_answer result))
            (Stays D.tells D.clock D.fault_count D.since D.state origin disk.new self.new w) }
        ensures err { OnErr result (IsSameButRoom self.old self.new) }
        ensures halted { self.new.halted ≡ self.old.halted }
        ensures reply { self.new.reply ≡ self.old.reply }
        ensures kept { self.new.kept ≡ self.old.kept }
        ensures disk { disk.new ≡ disk.old }
    {
        if let Err(error) = can_begin(self) {
            return Err(error);
        }
        if make_room(alloc, &mut self.chain, self.pending.as_slice()).is_err() {
            return Err(PublishError::Memory);
        }
        let sources = replace(&mut self.pending, Vec::new(alloc));
        match Publication::plan(alloc, &self.chain, sources, disk) {
            Ok(work) => {
                let begun = Begun {
                    version: work.version(),
                    files: work.files(),
                };
                self.work = Some(work);
                Ok(begun)
            }
            Err(refused) => {
                self.pending = refused.sources;
                Err(PublishError::from(refused.error))
            }
        }
    }
}
