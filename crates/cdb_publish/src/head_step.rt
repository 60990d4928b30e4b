//! The step that names the newest version.
ghost use Rattle.std.specs.Prelude.{◌≡◌, ℕ, ◌+◌, ◌≤◌, ◌++◌, ◌∷◌, [], List, length, OnOk, OnErr};
ghost use Rattle.cdb_source.specs.declared.source.Source as sources;
ghost use Rattle.cdb_model.specs.Causes.{HasCause};
ghost use Rattle.cdb_model.specs.Maps.{IsThere, folder_above};
ghost use Rattle.cdb_model.specs.Names.{head_path, new_head_path};
ghost use Rattle.cdb_model.specs.Records.{head_file_text};
ghost use Rattle.cdb_model.specs.Stands.{Stands};
ghost use Rattle.cdb_files.specs.Disk.{IsMade, IsSettledAt, Fails, after_rename, after_sync_dir};
ghost use Rattle.cdb_files.specs.Moments.{AddsOnly, Elapses, IsBetween};
ghost use Rattle.cdb_files.specs.Whole.{after_fill, WritesOnly};
ghost use Rattle.cdb_crash.specs.Crash.{IsClean, IsReadyForHead, IsEither, head_filled, head_synced};
ghost use Rattle.cdb_crash.specs.Leftovers.{HasNext};
ghost use Rattle.cdb_model.specs.declared.limits.TheConstants.{MOST_VERSIONS};

use cdb_files::{Disk, Failed, fill};
use cdb_manifest::write_head;
use cdb_names::{head_path, new_head_path, root_folder};

/// Writes the file that is to take the place of the head.
fn write_new_head<D: Disk>(disk: &mut D, text: &[u8]) -> Result<(), Failed>
    ensures ok { D.tells → OnOk result (D.state disk.new ≡ head_filled text.now (D.state disk.old)) }
    ensures only { D.tells → WritesOnly D.clock D.since D.state new_head_path disk.old disk.new }
    ensures cause { HasCause (D.fault_count disk.old) (D.fault_count disk.new) result }
    ensures reads { D.read_count disk.new ≡ D.read_count disk.old }
{
    let path = new_head_path();
    fill(disk, &path, text)?;
    Ok(())
}

/// Gives it the head's place.
fn replace_head<D: Disk>(disk: &mut D) -> Result<(), Failed>
    requires there { D.tells → IsThere ((D.state disk.old).present new_head_path) }
    requires settled { D.tells → IsSettledAt (D.state disk.old) new_head_path }
    ensures ok { D.tells → OnOk result (D.state disk.new ≡ after_rename new_head_path head_path (D.state disk.old)) }
    ensures err { D.tells → OnErr result (Fails (D.state disk.old) (after_rename new_head_path head_path
        (D.state disk.old)) (D.state disk.new)) }
    ensures time { D.tells → Elapses (D.clock disk.old) (D.clock disk.new) (D.since disk.old) (D.since disk.new)
        (IsBetween (D.state disk.old) (after_rename new_head_path head_path (D.state disk.old))) }
    ensures cause { HasCause (D.fault_count disk.old) (D.fault_count disk.new) result }
    ensures reads { D.read_count disk.new ≡ D.read_count disk.old }
{
    let from = new_head_path();
    let to = head_path();
    disk.rename(&from, &to)?;
    Ok(())
}

/// Syncs the root folder.
fn sync_root<D: Disk>(disk: &mut D) -> Result<(), Failed>
    ensures ok { D.tells → OnOk result (D.state disk.new ≡ after_sync_dir [] (D.state disk.old)) }
    ensures err { D.tells → OnErr result (D.state disk.new ≡ D.state disk.old) }
    ensures time { D.tells → Elapses (D.clock disk.old) (D.clock disk.new) (D.since disk.old) (D.since disk.new)
        (IsBetween (D.state disk.old) (after_sync_dir [] (D.state disk.old))) }
    ensures cause { HasCause (D.fault_count disk.old) (D.fault_count disk.new) result }
    ensures reads { D.read_count disk.new ≡ D.read_count disk.old }
{
    let folder = root_folder();
    disk.sync_dir(&folder)?;
    Ok(())
}

/// Names the version as the newest one: the new head is written, takes the place of the head, and
/// the root is synced.
pub(crate) fn publish_head<D: Disk>(disk: &mut D, version: u32) -> Result<(), Failed>
    requires least { 1 ≤ version }
    requires most { version ≤ MOST_VERSIONS }
    ensures clean { D.tells → (P : List (List sources.Source)) (x : List sources.Source) → version ≡ length P + 1
        → IsReadyForHead Stands HasNext P x (D.state disk.old) → OnOk result (IsClean Stands (P ++ x ∷ [])
        (D.state disk.new)) }
    ensures moments { D.tells → (P : List (List sources.Source)) (x : List sources.Source) → version ≡ length P + 1
        → IsReadyForHead Stands HasNext P x (D.state disk.old) → AddsOnly D.clock D.since disk.old disk.new
        (IsEither Stands P x) }
    ensures cause { HasCause (D.fault_count disk.old) (D.fault_count disk.new) result }
    ensures reads { D.read_count disk.new ≡ D.read_count disk.old }
{
    let text = write_head(version);
    write_new_head(disk, text.as_bytes())?;
    replace_head(disk)?;
    sync_root(disk)?;
    Ok(())
}
