//! One publication that is drawn.
ghost use Rattle.std.specs.Prelude.{◌≡◌, ℕ, ◌≤◌, ◌<◌, pos, negsuc, ◌≤ℤ◌, length, Some, None, Err};
ghost use Rattle.std.specs.Prelude.{IfSome, IfOk, IfErr, OnOk};
ghost use Rattle.cdb_model.specs.Stores.{Which, store_kind, any_store};
ghost use Rattle.cdb_model.specs.Transitions.{StateIn, GoingIn};
ghost use Rattle.cdb_engine.specs.Stays.{Stays, bare_of};
ghost use Rattle.cdb_engine.specs.Tracks.{Origin, Leads};
ghost use Rattle.cdb_generate.specs.Generator.{PublicationDrawn, state_next};
ghost use Rattle.cdb_engine.specs.OtherSizes.{StepFindsOther, FillFindsOther};
ghost use Rattle.cdb_engine.specs.Populating.{IsAtRest, PublishesIn};
ghost use Rattle.cdb_engine.specs.inside.Populating.{begun_of, BeginsDrawn, ended_by, FinishesSteps};
ghost use Rattle.cdb_model.specs.Causes.{Rose};
ghost use Rattle.cdb_engine.specs.StoreAnswers.{AdvanceCause};
ghost use Rattle.cdb_model.specs.declared.limits.TheConstants.{MOST_TILE_VALUES};
ghost use Rattle.cdb_source.specs.declared.limits.TheConstants.{MOST_LOAD};

use crate::drawn_sources::{submit_all, touched_tiles};
use crate::engine::Engine;
use crate::errors::{AdvanceError, PopulateError, PublishError};
use crate::reply::Begun;
use crate::tile_sums::sum_newest;
use cdb_files::Disk;
use cdb_generate::draw_publication;
use cdb_publish::Progress;
use std::alloc::Global;

/// What a publication brought: how many files of tiles, and the sum of the values in them.
#[derive(Clone, Copy, Debug, PartialEq, Eq)]
pub struct Published {
    pub files: u32,
    pub sum: i64,
}

/// Whether a publication was begun. Where sources that are drawn are pending and nothing is going, it is
/// refused for want of memory, entries or versions alone.
fn begin_error(answer: Result<Begun, PublishError>) -> Result<(), PopulateError>
    ensures begun { result ≡ begun_of answer }
    ensures no_fault { IfErr result (λ error. error ≡ PopulateError.Fault → ⊥) }
    ensures other { IfErr result FillFindsOther }
{
    match answer {
        Ok(_) => Ok(()),
        Err(PublishError::Entries { count }) => Err(PopulateError::Entries { count }),
        Err(PublishError::Versions) => Err(PopulateError::Versions),
        Err(_) => Err(PopulateError::Memory),
    }
}

/// Begins the publication of the pending sources, which are drawn.
fn begin_drawn<D: Disk>(
    alloc: Global,
    engine: &mut Engine,
    disk: &mut D,
) -> Result<(), PopulateError>
    ensures begins { (w : Which) (origin : Origin) (s : StateIn (store_kind w)) (x : ℕ)
        → Stays D.tells D.clock D.fault_count D.since D.state origin disk.old engine.old w s
        → s.halted ≡ None → s.going ≡ None → PublicationDrawn x s.pending
        → BeginsDrawn w s result (Stays D.tells D.clock D.fault_count D.since D.state origin disk.new engine.new w) }
    ensures disk { disk.new ≡ disk.old }
    ensures no_fault { IfErr result (λ error. error ≡ PopulateError.Fault → ⊥) }
    ensures other { IfErr result FillFindsOther }
{
    begin_error(engine.publish(alloc, disk))
}

/// How the steps end with one that was tried: not yet, where others are left.
fn step_end(step: Result<Progress, AdvanceError>) -> Option<Result<(), PopulateError>>
    ensures ended { result ≡ ended_by step }
    ensures cause { (before now : ℕ) → AdvanceCause step before now
        → IfSome result (λ end. end ≡ Err PopulateError.Fault → Rose before now) }
    ensures other { IfErr step StepFindsOther → IfSome result (λ end. IfErr end FillFindsOther) }
{
    match step {
        Ok(Progress::Going) => None,
        Ok(Progress::Published(_)) => Some(Ok(())),
        Err(AdvanceError::Halted) => Some(Ok(())),
        Err(AdvanceError::Nothing) => Some(Ok(())),
        Err(AdvanceError::Fault) => Some(Err(PopulateError::Fault)),
        Err(AdvanceError::Damaged { expected, found }) => {
            Some(Err(PopulateError::Damaged { expected, found }))
        }
    }
}

/// Makes all steps that are left of the publication that is going.
fn finish<D: Disk>(engine: &mut Engine, disk: &mut D) -> Result<(), PopulateError>
    ensures finishes { (w : Which) (origin : Origin) (s : StateIn (store_kind w)) (now : GoingIn (store_kind w))
        → Stays D.tells D.clock D.fault_count D.since D.state origin disk.old engine.old w s
        → s.going ≡ Some now → s.halted ≡ None → 0 < now.left
        → FinishesSteps w s now.publication result
        (Stays D.tells D.clock D.fault_count D.since D.state origin disk.new engine.new w) }
    ensures other { IfErr result FillFindsOther }
    ensures later { D.fault_count disk.old ≤ D.fault_count disk.new }
    ensures cause { result ≡ Err PopulateError.Fault → Rose (D.fault_count disk.old) (D.fault_count disk.new) }
{
    let left = engine.left();
    for _ in 0..left {
        match step_end(engine.step(disk)) {
            None => (),
            Some(end) => return end,
        }
    }
    Ok(())
}

/// Publishes what is drawn next: its sources are submitted, its steps are made, and the values of its
/// tiles are summed in a session. The values of a tile are read into `frame`, which has 1,048,576 places.
/// `Memory`: memory was refused. `Entries` and `Versions`: the store has no room for it. `Fault` only where
/// a call of the disk failed. `Damaged`: a file that is read has another size than its form gives.
pub fn publish_one<D: Disk>(
    alloc: Global,
    engine: &mut Engine,
    disk: &mut D,
    state: &mut u64,
    frame: &mut [i16],
) -> Result<Published, PopulateError>
    requires frame { length frame.old ≡ MOST_TILE_VALUES }
    requires rest { IsAtRest any_store (bare_of engine.old) }
    ensures publishes { (w : Which) (origin : Origin) (s : StateIn (store_kind w))
        → Stays D.tells D.clock D.fault_count D.since D.state origin disk.old engine.old w s → IsAtRest (store_kind w) s
        → Leads (PublishesIn w s state.old result)
        (Stays D.tells D.clock D.fault_count D.since D.state origin disk.new engine.new w) }
    ensures other { IfErr result FillFindsOther }
    ensures state { OnOk result (state.new ≡ state_next state.old) }
    ensures few { IfOk result (λ published. published.files ≤ MOST_LOAD) }
    ensures least { IfOk result (λ published. negsuc 562949953421311 ≤ℤ published.sum) }
    ensures most { IfOk result (λ published. published.sum ≤ℤ pos 562949953421312) }
    ensures frame { length frame.new ≡ length frame.old }
    ensures later { D.fault_count disk.old ≤ D.fault_count disk.new }
    ensures cause { result ≡ Err PopulateError.Fault → Rose (D.fault_count disk.old) (D.fault_count disk.new) }
{
    let Ok(sources) = draw_publication(alloc, state) else {
        return Err(PopulateError::Memory);
    };
    let Ok(tiles) = touched_tiles(alloc, sources.as_slice()) else {
        return Err(PopulateError::Memory);
    };
    match submit_all(engine, sources) {
        Ok(()) => (),
        Err(error) => return Err(error),
    }
    match begin_drawn(alloc, engine, disk) {
        Ok(()) => (),
        Err(error) => return Err(error),
    }
    match finish(engine, disk) {
        Ok(()) => (),
        Err(error) => return Err(error),
    }
    match sum_newest(engine, tiles.as_slice(), disk, frame) {
        Ok(sum) => Ok(Published {
            files: tiles.len() as u32,
            sum,
        }),
        Err(error) => Err(error),
    }
}
