//! Lines that ask for a publication, a session, a tile or the newest version.
ghost use Rattle.std.specs.Prelude.{◌≡◌, ◌≤◌, ◌∷◌, []};
ghost use Rattle.cdb_model.specs.AnswerTexts.{disk_fault};
ghost use Rattle.cdb_model.specs.Stores.{Which, store_kind};
ghost use Rattle.cdb_model.specs.Transitions.{StateIn, PublishLineIn, OpenLineIn, CloseLineIn, TileLineIn, VersionsLineIn};
ghost use Rattle.cdb_engine.specs.Stays.{Stays, Shows, ChangesAlike};
ghost use Rattle.cdb_engine.specs.Tracks.{Origin, Leads};
ghost use Rattle.cdb_front.specs.AnswerMeanings.{meant, HasLength, IsOrdinary, IsQuiet};
ghost use Rattle.cdb_front.specs.DamagedSizes.{AnswerFindsOther};
ghost use Rattle.cdb_front.specs.Stepping.{Counts};

use crate::answers::Answer;
use crate::results::{close_answer, publish_answer, session_answer, tile_answer};
use cdb_engine::Engine;
use cdb_files::Disk;
use cdb_grid::Tile;
use std::alloc::Global;

/// Begins a publication.
pub fn publish<D: Disk>(alloc: Global, engine: &mut Engine, disk: &mut D) -> Answer
    ensures begins { (w : Which) (origin : Origin) (s : StateIn (store_kind w))
        → Stays D.tells D.clock D.fault_count D.since D.state origin disk.old engine.old w s
        → Leads (PublishLineIn (store_kind w) s (meant result engine.new.reply))
        (Stays D.tells D.clock D.fault_count D.since D.state origin disk.new engine.new w) }
    ensures ordinary { IsOrdinary result }
    ensures disk { disk.new ≡ disk.old }
{
    publish_answer(engine.publish(alloc, disk))
}

/// Opens a session.
pub fn connect(engine: &mut Engine) -> Answer
    ensures connects { (w : Which) (s : StateIn (store_kind w)) → Shows engine.old w s
        → Leads (OpenLineIn (store_kind w) s (meant result engine.new.reply))
        (ChangesAlike engine.old engine.new w s) }
    ensures ordinary { IsOrdinary result }
{
    session_answer(engine.open_session())
}

/// Closes a session.
pub fn disconnect(engine: &mut Engine, id: u32) -> Answer
    ensures disconnects { (w : Which) (s : StateIn (store_kind w)) → Shows engine.old w s
        → Leads (CloseLineIn (store_kind w) s id (meant result engine.new.reply))
        (ChangesAlike engine.old engine.new w s) }
    ensures ordinary { IsOrdinary result }
{
    close_answer(engine.close_session(id))
}

/// Asks for a tile in a session.
pub fn ask<D: Disk>(engine: &mut Engine, id: u32, tile: &Tile, disk: &mut D) -> Answer
    ensures asks { (w : Which) (origin : Origin) (s : StateIn (store_kind w))
        → Stays D.tells D.clock D.fault_count D.since D.state origin disk.old engine.old w s
        → Leads (TileLineIn (store_kind w) s id tile.now (meant result engine.new.reply))
        (Stays D.tells D.clock D.fault_count D.since D.state origin disk.new engine.new w) }
    ensures length { HasLength result engine.new.reply }
    ensures quiet { IsQuiet result }
    ensures later { D.fault_count disk.old ≤ D.fault_count disk.new }
    ensures counted { Counts disk_fault (D.fault_count disk.old) (D.fault_count disk.new)
        (meant result engine.new.reply ∷ []) }
    ensures finds { AnswerFindsOther (meant result engine.new.reply) }
{
    tile_answer(engine.tile(id, tile, disk))
}

/// Tells the newest version.
pub fn tell(engine: &Engine) -> Answer
    ensures tells { (w : Which) (s : StateIn (store_kind w)) → Shows engine.now w s
        → VersionsLineIn (store_kind w) s (meant result engine.now.reply) s }
    ensures ordinary { IsOrdinary result }
{
    Answer::Versions(engine.versions())
}
