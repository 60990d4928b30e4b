//! The next step before the head's.
ghost use Rattle.std.specs.Prelude.{◌≡◌, ℕ, ◌+◌, ◌<◌, ◌≤◌, ◌++◌, ◌∷◌, [], List, length, reverse, drop, Some, OnOk};
ghost use Rattle.std.specs.Prelude.{OnErr, IfErr};
ghost use Rattle.cdb_source.specs.declared.source.Source as given;
ghost use Rattle.cdb_crash.specs.Plan.{steps_of, IsMidAfter};
ghost use Rattle.cdb_publish.specs.Bounds.{reads_left_in};
ghost use Rattle.cdb_publish.specs.Causes.{IsCaused};
ghost use Rattle.cdb_chain.specs.Publications.{AreRecords};
ghost use Rattle.cdb_publish.specs.Fitting.{Plans, Fits, IsSound, steps_before_head};
ghost use Rattle.cdb_publish.specs.Making.{IsUnwritten};
ghost use Rattle.cdb_publish.specs.inside.Making.{MakesStep};
ghost use Rattle.cdb_publish.specs.Needs.{IsDamage};
ghost use Rattle.cdb_publish.specs.Reads.{SizesTold};
ghost use Rattle.cdb_publish.specs.Ready.{IsReady};

use crate::errors::StepError;
use crate::frames::Frames;
use crate::make_step::{folder_step, record_step, source_step, tile_step};
use crate::plan::Plan;
use crate::work::Work;
use cdb_chain::Chain;
use cdb_files::Disk;
use cdb_source::Source;

/// Makes the step of this number: of a source, a tile, a folder, or the record.
#[tactic(auto, using(crate::proofs::StepRuns::faults_unwritten))]
pub(crate) fn make_step<D: Disk>(
    plan: &Plan,
    sources: &[Source],
    done: usize,
    frames: &mut Frames,
    chain: &Chain,
    disk: &mut D,
) -> Result<(), StepError>
    requires before { done < steps_before_head plan.now }
    requires source { length plan.now.record.heads ≤ done + length sources.now }
    requires ready { IsReady plan.now frames.old }
    ensures made { D.tells → (P : List (List given.Source)) (x : List given.Source) → Plans plan.now P x
        → reverse sources.now ≡ drop done x
        → AreRecords chain.now.records P → IsMidAfter P x plan.now.record.tiles done (D.state disk.old)
        → MakesStep D.clock D.since D.state (steps_of P x plan.now.record.tiles) done disk.old disk.new result }
    ensures ready { IsReady plan.now frames.new }
    ensures sizes { SizesTold D.tells (D.state disk.old).present plan.now chain.now.records done
        (D.read_count disk.old) (D.read_count disk.new) result }
    ensures undamaged { D.tells → (P : List (List given.Source)) (x : List given.Source) → Plans plan.now P x
        → AreRecords chain.now.records P
        → IsMidAfter P x plan.now.record.tiles done (D.state disk.old) → IfErr result (λ e. e ≡ StepError.Fault) }
    ensures unwritten { IfErr result (IsUnwritten (D.state disk.old) (D.state disk.new)) }
    ensures damage { IfErr result IsDamage }
    ensures cause { IsCaused (D.fault_count disk.old) (D.fault_count disk.new) result }
{
    let heads = plan.record.heads.as_slice().len();
    let tiles = plan.record.tiles.as_slice().len();
    if done < heads {
        return source_step(plan, done, &sources[sources.len() - 1], frames, disk);
    }
    if done < heads + tiles {
        return tile_step(plan, done - heads, frames, chain, disk);
    }
    if done < heads + tiles + plan.folders.len() {
        return folder_step(plan, done - heads - tiles, disk);
    }
    record_step(plan, disk)
}

/// Makes the next step, and counts it where it is made.
pub(crate) fn advance<D: Disk>(
    work: &mut Work,
    chain: &Chain,
    disk: &mut D,
) -> Result<(), StepError>
    requires sound { IsSound work.old }
    requires before { work.old.done < steps_before_head work.old.plan }
    ensures sound { IsSound work.new }
    ensures plan { work.new.plan ≡ work.old.plan }
    ensures done { OnOk result (work.new.done ≡ work.old.done + 1) }
    ensures refused { OnErr result (work.new.done ≡ work.old.done) }
    ensures fits { (P : List (List given.Source)) (x : List given.Source) (number : ℕ) → Fits work.old P x number
        → OnOk result (Fits work.new P x (number + 1)) }
    ensures made { D.tells → (P : List (List given.Source)) (x : List given.Source) (number : ℕ)
        → Fits work.old P x number
        → AreRecords chain.now.records P → IsMidAfter P x work.old.plan.record.tiles number (D.state disk.old)
        → MakesStep D.clock D.since D.state (steps_of P x work.old.plan.record.tiles) number disk.old disk.new result }
    ensures sizes { SizesTold D.tells (D.state disk.old).present work.old.plan chain.now.records work.old.done
        (D.read_count disk.old) (D.read_count disk.new) result }
    ensures undamaged { D.tells → (P : List (List given.Source)) (x : List given.Source) (number : ℕ)
        → Fits work.old P x number
        → AreRecords chain.now.records P → IsMidAfter P x work.old.plan.record.tiles number (D.state disk.old)
        → IfErr result (λ e. e ≡ StepError.Fault) }
    ensures reads { OnOk result (D.read_count disk.new + reads_left_in
        (Some work.new) ≤ D.read_count disk.old + reads_left_in (Some work.old)) }
    ensures most_reads { D.read_count disk.new ≤ D.read_count disk.old + reads_left_in (Some work.old) }
    ensures unwritten { IfErr result (IsUnwritten (D.state disk.old) (D.state disk.new)) }
    ensures damage { IfErr result IsDamage }
    ensures cause { IsCaused (D.fault_count disk.old) (D.fault_count disk.new) result }
{
    match make_step(
        &work.plan,
        work.sources.as_slice(),
        work.done as usize,
        &mut work.frames,
        chain,
        disk,
    ) {
        Ok(()) => {}
        Err(error) => return Err(error),
    }
    work.sources.pop();
    work.done += 1;
    Ok(())
}
