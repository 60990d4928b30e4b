//! Publications that are drawn, one after another.
ghost use Rattle.std.specs.Prelude.{◌≡◌, ◌≤◌, length, IfOk, IfErr, Err};
ghost use Rattle.cdb_files.specs.Disk.{IsImage};
ghost use Rattle.cdb_model.specs.Causes.{Rose};
ghost use Rattle.cdb_model.specs.KnownStore.{start_at};
ghost use Rattle.cdb_model.specs.Stores.{Which, store_kind, known, any_store};
ghost use Rattle.cdb_model.specs.Transitions.{StateIn};
ghost use Rattle.cdb_engine.specs.Stays.{Stays, bare_of};
ghost use Rattle.cdb_engine.specs.Tracks.{Origin, Leads};
ghost use Rattle.cdb_engine.specs.Filling.{PopulatesIn, Populates};
ghost use Rattle.cdb_engine.specs.inside.Filling.{FillsIn};
ghost use Rattle.cdb_engine.specs.OtherSizes.{FillFindsOther};
ghost use Rattle.cdb_engine.specs.Populating.{IsAtRest};
ghost use Rattle.cdb_model.specs.declared.limits.TheConstants.{MOST_TILE_VALUES};

use crate::drawn_publication::{Published, publish_one};
use crate::engine::Engine;
use crate::errors::PopulateError;
use cdb_files::Disk;
use cdb_model::MOST_TILE_VALUES;
use std::alloc::{AllocError, Global};

/// What the publications brought: the newest version, how many files of tiles were made, and the sum of
/// the values in them.
#[derive(Clone, Copy, Debug, PartialEq, Eq)]
pub struct Made {
    pub versions: u32,
    pub files: u32,
    pub sum: i64,
}

/// Room for the values of the largest tile.
fn new_frame(alloc: Global) -> Result<Vec<i16>, AllocError>
    ensures { IfOk result (λ frame. length frame.items ≡ MOST_TILE_VALUES) }
{
    vec![in alloc; 0; MOST_TILE_VALUES]
}

/// Makes so many publications: how many files of tiles were made, and the sum of the values in them.
fn fill<D: Disk>(
    alloc: Global,
    engine: &mut Engine,
    disk: &mut D,
    start: u32,
    count: u8,
    frame: &mut [i16],
) -> Result<Published, PopulateError>
    requires frame { length frame.old ≡ MOST_TILE_VALUES }
    requires rest { IsAtRest any_store (bare_of engine.old) }
    ensures fills { (w : Which) (origin : Origin) (s : StateIn (store_kind w))
        → Stays D.tells D.clock D.fault_count D.since D.state origin disk.old engine.old w s → IsAtRest (store_kind w) s
        → Leads (FillsIn w s start count result)
        (Stays D.tells D.clock D.fault_count D.since D.state origin disk.new engine.new w) }
    ensures other { IfErr result FillFindsOther }
    ensures later { D.fault_count disk.old ≤ D.fault_count disk.new }
    ensures cause { result ≡ Err PopulateError.Fault → Rose (D.fault_count disk.old) (D.fault_count disk.new) }
{
    let mut state = start as u64;
    let mut files = 0;
    let mut sum = 0;
    for _ in 0..count {
        match publish_one(alloc, engine, disk, &mut state, frame) {
            Ok(published) => {
                files += published.files;
                sum += published.sum;
            }
            Err(error) => return Err(error),
        }
    }
    Ok(Published { files, sum })
}

/// Makes `count` publications of the generator that begins with `start`, one after another: each is
/// complete before the next is drawn. The engine has nothing pending, going or open. Memory for the values
/// of a tile is taken once.
///
/// `Memory`: memory was refused. `Entries` and `Versions` exactly where a further publication would pass
/// the limit of the tile entries of all records, or of the versions. `Fault` only where a call of the disk
/// failed. `Damaged`: a file that is read has another size than its form gives. With an error, those made
/// before it stay.
pub fn populate<D: Disk>(
    alloc: Global,
    engine: &mut Engine,
    disk: &mut D,
    start: u32,
    count: u8,
) -> Result<Made, PopulateError>
    requires rest { IsAtRest any_store (bare_of engine.old) }
    ensures follows { (w : Which) (origin : Origin) (s : StateIn (store_kind w))
        → Stays D.tells D.clock D.fault_count D.since D.state origin disk.old engine.old w s → IsAtRest (store_kind w) s
        → Leads (PopulatesIn w s start count result)
        (Stays D.tells D.clock D.fault_count D.since D.state origin disk.new engine.new w) }
    ensures populates { (origin : Origin)
        → Stays D.tells D.clock D.fault_count D.since D.state origin disk.old engine.old known
        (start_at origin.store.list)
        → Populates origin.store start count (D.since disk.new origin.store.moment) (D.since disk.new origin.opened)
        (IsImage (D.state disk.new)) result }
    ensures other { IfErr result FillFindsOther }
    ensures later { D.fault_count disk.old ≤ D.fault_count disk.new }
    ensures cause { result ≡ Err PopulateError.Fault → Rose (D.fault_count disk.old) (D.fault_count disk.new) }
{
    let Ok(mut frame) = new_frame(alloc) else {
        return Err(PopulateError::Memory);
    };
    match fill(alloc, engine, disk, start, count, frame.as_mut_slice()) {
        Ok(made) => Ok(Made {
            versions: engine.versions(),
            files: made.files,
            sum: made.sum,
        }),
        Err(error) => Err(error),
    }
}
