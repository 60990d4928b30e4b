//! The engine as the run sees it.
use crate::answers::Answer;
use crate::engine_lines::{ask, connect, disconnect, publish, tell};
use crate::source_lines::{give, load};
use crate::store_calls::StoreCalls;
use cdb_engine::{AdvanceError, Engine, Progress};
use cdb_files::{Disk, Shelf};
use cdb_model::Line;
use std::alloc::Global;

impl<D: Disk> StoreCalls<D> for Engine {
    ghost use Rattle.cdb_engine.specs.Stays.{Stays};

    ghost stays = { λ engine disk origin w s. Stays D.tells D.clock D.fault_count D.since D.state origin
        disk engine w s };

    ghost bytes = { λ engine. engine.reply };

    fn reply(&self) -> &[u8] {
        self.reply()
    }

    fn halted(&self) -> bool {
        self.halted().is_some()
    }

    fn going(&self) -> bool {
        self.going()
    }

    fn left(&self) -> u32 {
        self.left()
    }

    fn step(&mut self, disk: &mut D) -> Result<Progress, AdvanceError> {
        self.step(disk)
    }

    fn other<H: Shelf>(
        &mut self,
        alloc: Global,
        disk: &mut D,
        shelf: &mut H,
        line: Line,
    ) -> Answer {
        match line {
            Line::Inline(words) => give(alloc, self, &words),
            Line::Source(words) => load(alloc, self, shelf, &words),
            Line::Publish => publish(alloc, self, disk),
            Line::Open => connect(self),
            Line::Tile(id, tile) => ask(self, id, &tile, disk),
            Line::Close(id) => disconnect(self, id),
            Line::Versions => tell(self),
            Line::Step(_) | Line::StepAll | Line::Quit | Line::Blank => unreachable!(),
        }
    }
}
