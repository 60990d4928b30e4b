ghost use Rattle.std.specs.Prelude.{◌≡◌, ◌+◌, List, length, IfOk, OnOk};
ghost use Rattle.cdb_source.specs.declared.source.Source.{Source};
ghost use Rattle.cdb_model.specs.Causes.{HasCause};
ghost use Rattle.cdb_model.specs.Names.{version_folder};
ghost use Rattle.cdb_model.specs.Stands.{Stands};
ghost use Rattle.cdb_files.specs.Moments.{AddsOnly};
ghost use Rattle.cdb_files.specs.Whole.{IsImageBut};
ghost use Rattle.cdb_crash.specs.Crash.{IsWhole};
ghost use Rattle.cdb_crash.specs.Recovery.{after_removal};
ghost use Rattle.cdb_recover.specs.inside.Clearing.{RemovesOne, RemovesUnder, TellsFew, TellsNone, Clears};

use cdb_files::{Disk, Failed, Path, folder_above};

/// How many files are removed at most.
pub(crate) const MOST: u32 = 65_536;

/// Removes a file, and makes sure of it.
fn remove_kept<D: Disk>(disk: &mut D, path: &Path) -> Result<(), Failed>
    ensures ok { D.tells → OnOk result (D.state disk.new ≡ after_removal path.now.bytes (D.state disk.old)) }
    ensures time { D.tells → AddsOnly D.clock D.since disk.old disk.new (IsImageBut path.now.bytes (D.state disk.old)) }
    ensures removed { D.tells → RemovesOne path.now.bytes (D.state disk.old).present (D.state disk.new).present }
    ensures folders { D.tells → (D.state disk.new).made ≡ (D.state disk.old).made }
    ensures cause { HasCause (D.fault_count disk.old) (D.fault_count disk.new) result }
    ensures reads { D.read_count disk.new ≡ D.read_count disk.old }
{
    disk.remove(path)?;
    let folder = folder_above(path);
    disk.sync_dir(&folder)?;
    Ok(())
}

/// Removes the files under a folder one by one, at most 65,536, each with a sync of its own folder.
/// It tells whether none is left.
pub(crate) fn clear<D: Disk>(disk: &mut D, folder: &Path) -> Result<bool, Failed>
    ensures moments { D.tells → (list : List (List Source)) → folder.now.bytes ≡ version_folder (length list + 1)
        → IsWhole Stands list (D.state disk.old) → AddsOnly D.clock D.since disk.old disk.new (λ m. Stands m list) }
    ensures clean { D.tells → (list : List (List Source)) → folder.now.bytes ≡ version_folder (length list + 1)
        → IsWhole Stands list (D.state disk.old) → IfOk result (Clears list (D.state disk.new)) }
    ensures few { D.tells → IfOk result (TellsFew folder.now.bytes (D.state disk.old).present) }
    ensures none { D.tells → IfOk result (TellsNone folder.now.bytes (D.state disk.new).present) }
    ensures removed { D.tells
        → RemovesUnder 65536 folder.now.bytes (D.state disk.old).present (D.state disk.new).present }
    ensures folders { D.tells → (D.state disk.new).made ≡ (D.state disk.old).made }
    ensures cause { HasCause (D.fault_count disk.old) (D.fault_count disk.new) result }
    ensures reads { D.read_count disk.new ≡ D.read_count disk.old }
{
    'rounds: for _ in 0..MOST {
        match disk.first_under(folder)? {
            None => return Ok(true),
            Some(path) => remove_kept(disk, &path)?,
        }
    }
    match disk.first_under(folder)? {
        None => Ok(true),
        Some(_) => Ok(false),
    }
}
