ghost use Rattle.std.specs.Prelude.{◌≡◌, None, IfOk, OnOk};
ghost use Rattle.cdb_model.specs.Maps.{Text};
ghost use Rattle.cdb_files.specs.Disk.{State};
ghost use Rattle.cdb_memfiles.specs.Crash.{only_made, IsSettled};
ghost use Rattle.cdb_memfiles.specs.inside.Crash.{restored_map};
ghost use Rattle.cdb_memfiles.specs.History.{apply, replay};
ghost use Rattle.cdb_memfiles.specs.Standing.{shown, shown_by, picked_shown, ShowsFiles};

use crate::call::Call;
use crate::pick::Pick;
use crate::record::Record;
use crate::standing::Standing;
use crate::standings::{Standings, append, create, remove, rename, restore, sync_dir, sync_file};
use cdb_files::Path;
use std::alloc::{AllocError, Global};
use std::collections::BTreeMap;

/// What a crash may leave after one call more.
fn follow(table: &mut Standings, alloc: Global, call: Call) -> Result<(), AllocError>
    ensures { OnOk result ((s : State) → ShowsFiles (shown table.old) s → ShowsFiles (shown table.new) (apply call s)) }
{
    match call {
        Call::MakeDir(_) => {}
        Call::Create(path) => create(table, alloc, &path)?,
        Call::Append(path, piece) => append(table, &path, piece.as_slice())?,
        Call::SyncFile(path) => sync_file(table, &path)?,
        Call::SyncDir(folder) => sync_dir(table, &folder),
        Call::Rename(from, to) => rename(table, &from, &to)?,
        Call::Remove(path) => remove(table, &path)?,
        Call::Restore(path, bytes) => restore(table, &path, bytes)?,
    }
    Ok(())
}

/// What a crash may leave after these calls.
pub fn standings(alloc: Global, calls: Vec<Call>) -> Result<Standings, AllocError>
    ensures { IfOk result (λ table. ShowsFiles (shown table) (replay calls.items)) }
{
    let mut table = BTreeMap::new(alloc);
    'calls: for call in calls {
        follow(&mut table, alloc, call)?;
    }
    Ok(table)
}

/// A record of the folders alone that these calls made.
pub fn made_folders(alloc: Global, calls: &[Call]) -> Result<Record, AllocError>
    ensures { IfOk result (λ folders. replay folders.calls.items ≡ only_made (replay calls.now)) }
{
    let mut folders = Record::new(alloc);
    'calls: for call in calls {
        note_folder(&mut folders, call)?;
    }
    Ok(folders)
}

/// One call more, which is noted where it made a folder.
fn note_folder(folders: &mut Record, call: &Call) -> Result<(), AllocError>
    ensures { OnOk result ((s : State) → replay folders.old.calls.items ≡ only_made s
        → replay folders.new.calls.items ≡ only_made (apply call.now s)) }
{
    if let Call::MakeDir(folder) = call {
        folders.note(Call::MakeDir(*folder))?;
    }
    Ok(())
}

/// One path as it is picked.
fn restore_one(after: &mut Record, entry: (Path, Standing), pick: Pick) -> Result<(), AllocError>
    ensures present { OnOk result ((replay after.new.calls.items).present
        ≡ restored_map entry.0.bytes (picked_shown pick (shown_by entry.1)) (replay after.old.calls.items).present) }
    ensures only { OnOk result (IsSettled (replay after.old.calls.items) → IsSettled (replay after.new.calls.items)) }
    ensures made { OnOk result ((replay after.new.calls.items).made ≡ (replay after.old.calls.items).made) }
{
    let (path, standing) = entry;
    if let Some(bytes) = standing.pick(pick) {
        after.restore(&path, bytes)?;
    }
    Ok(())
}

/// The record of the folders, and each path as it is picked.
pub fn restore_paths(folders: Record, table: Standings, pick: Pick) -> Result<Record, AllocError>
    requires empty { (q : Text) → (replay folders.calls.items).present q ≡ None }
    requires settled { IsSettled (replay folders.calls.items) }
    ensures present { IfOk result
        (λ after. (q : Text) → (replay after.calls.items).present q ≡ picked_shown pick (shown table q)) }
    ensures only { IfOk result (λ after. IsSettled (replay after.calls.items)) }
    ensures made { IfOk result (λ after. (replay after.calls.items).made ≡ (replay folders.calls.items).made) }
{
    let mut after = folders;
    let mut rest = table;
    'paths: while let Some(entry) = rest.pop_first() {
        restore_one(&mut after, entry, pick)?;
    }
    Ok(after)
}
