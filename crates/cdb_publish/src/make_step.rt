//! The steps before the head's, by their numbers.
ghost use Rattle.std.specs.Prelude.{◌≡◌, ℕ, ◌+◌, ◌<◌, ◌≤◌, ◌++◌, ◌∷◌, [], List, length, reverse, drop, slice_get};
ghost use Rattle.std.specs.Prelude.{Some, IfErr};
ghost use Rattle.cdb_source.specs.declared.source.Source as sources;
ghost use Rattle.cdb_crash.specs.Plan.{steps_of, IsMidAfter};
ghost use Rattle.cdb_publish.specs.Causes.{IsCaused};
ghost use Rattle.cdb_chain.specs.Publications.{AreRecords};
ghost use Rattle.cdb_publish.specs.Fitting.{Plans, steps_before_head};
ghost use Rattle.cdb_publish.specs.Making.{IsUnwritten};
ghost use Rattle.cdb_publish.specs.inside.Making.{MakesStep};
ghost use Rattle.cdb_publish.specs.Needs.{IsDamage};
ghost use Rattle.cdb_publish.specs.Reads.{SizesTold};
ghost use Rattle.cdb_publish.specs.Ready.{IsReady};

use crate::errors::StepError;
use crate::frames::Frames;
use crate::plan::Plan;
use crate::record_step::write_and_sync;
use crate::source_file::write_source;
use crate::tile_maker::make_tile;
use cdb_chain::Chain;
use cdb_files::{Disk, folder_above, write_whole};
use cdb_names::{record_path, source_path, write_path};
use cdb_source::Source;

/// Writes the source of this number, which counts from 0.
pub(crate) fn source_step<D: Disk>(
    plan: &Plan,
    number: usize,
    source: &Source,
    frames: &mut Frames,
    disk: &mut D,
) -> Result<(), StepError>
    requires number { number < length plan.now.record.heads }
    requires ready { IsReady plan.now frames.old }
    ensures made { D.tells → (P : List (List sources.Source)) (x : List sources.Source) → Plans plan.now P x
        → slice_get x number ≡ Some source.now
        → MakesStep D.clock D.since D.state (steps_of P x plan.now.record.tiles) number disk.old disk.new result }
    ensures ready { IsReady plan.now frames.new }
    ensures error { IfErr result (λ e. e ≡ StepError.Fault) }
    ensures reads { D.read_count disk.new ≡ D.read_count disk.old }
    ensures cause { IsCaused (D.fault_count disk.old) (D.fault_count disk.new) result }
{
    let path = source_path(plan.record.version, number as u32 + 1);
    write_source(disk, &path, source, frames.bytes.as_mut_slice())?;
    Ok(())
}

/// Makes and writes the tile of this number.
pub(crate) fn tile_step<D: Disk>(
    plan: &Plan,
    number: usize,
    frames: &mut Frames,
    chain: &Chain,
    disk: &mut D,
) -> Result<(), StepError>
    requires number { number < length plan.now.record.tiles }
    requires ready { IsReady plan.now frames.old }
    ensures made { D.tells → (P : List (List sources.Source)) (x : List sources.Source) → Plans plan.now P x
        → AreRecords chain.now.records P
        → IsMidAfter P x plan.now.record.tiles (length x + number) (D.state disk.old)
        → MakesStep D.clock D.since D.state (steps_of P x plan.now.record.tiles)
        (length x + number) disk.old disk.new result }
    ensures ready { IsReady plan.now frames.new }
    ensures sizes { SizesTold D.tells (D.state disk.old).present plan.now chain.now.records
        (length plan.now.record.heads + number)
        (D.read_count disk.old) (D.read_count disk.new) result }
    ensures undamaged { D.tells → (P : List (List sources.Source)) (x : List sources.Source) → Plans plan.now P x
        → AreRecords chain.now.records P
        → IsMidAfter P x plan.now.record.tiles (length x + number) (D.state disk.old)
        → IfErr result (λ e. e ≡ StepError.Fault) }
    ensures unwritten { IfErr result (IsUnwritten (D.state disk.old) (D.state disk.new)) }
    ensures damage { IfErr result IsDamage }
    ensures cause { IsCaused (D.fault_count disk.old) (D.fault_count disk.new) result }
{
    let path = write_path(plan.record.version, &plan.record.tiles.as_slice()[number]);
    let folder = folder_above(&path);
    let len = match make_tile(
        plan,
        number,
        chain,
        frames.bytes.as_mut_slice(),
        frames.scratch.as_mut_slice(),
        frames.posts.as_mut_slice(),
        disk,
    ) {
        Ok(len) => len,
        Err(error) => return Err(error),
    };
    match write_whole(disk, &folder, &path, &frames.bytes[..len]) {
        Ok(()) => Ok(()),
        Err(_) => Err(StepError::Fault),
    }
}

/// Syncs the folder of this number.
pub(crate) fn folder_step<D: Disk>(
    plan: &Plan,
    number: usize,
    disk: &mut D,
) -> Result<(), StepError>
    requires { number < length plan.now.folders.keys }
    ensures made { D.tells → (P : List (List sources.Source)) (x : List sources.Source) → Plans plan.now P x
        → MakesStep D.clock D.since D.state (steps_of P x plan.now.record.tiles)
        (length x + length plan.now.record.tiles + number) disk.old disk.new result }
    ensures error { IfErr result (λ e. e ≡ StepError.Fault) }
    ensures reads { D.read_count disk.new ≡ D.read_count disk.old }
    ensures cause { IsCaused (D.fault_count disk.old) (D.fault_count disk.new) result }
{
    let folder = &plan.folders.as_slice()[number];
    disk.sync_dir(folder)?;
    Ok(())
}

/// Writes the record, and syncs its folder.
pub(crate) fn record_step<D: Disk>(plan: &Plan, disk: &mut D) -> Result<(), StepError>
    ensures made { D.tells → (P : List (List sources.Source)) (x : List sources.Source) → Plans plan.now P x
        → MakesStep D.clock D.since D.state (steps_of P x plan.now.record.tiles)
        (length x + length plan.now.record.tiles + length plan.now.folders.keys) disk.old disk.new result }
    ensures error { IfErr result (λ e. e ≡ StepError.Fault) }
    ensures reads { D.read_count disk.new ≡ D.read_count disk.old }
    ensures cause { IsCaused (D.fault_count disk.old) (D.fault_count disk.new) result }
{
    let path = record_path(plan.record.version);
    write_and_sync(disk, &path, plan.bytes.as_slice())?;
    Ok(())
}
