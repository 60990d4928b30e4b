ghost use Rattle.std.specs.Prelude.{◌≡◌, OnOk};
ghost use Rattle.cdb_model.specs.Causes.{HasCause};
ghost use Rattle.cdb_files.specs.Moments.{AddsOnly};
ghost use Rattle.cdb_crash.specs.Plan.{FileAction, after_step};
ghost use Rattle.cdb_publish.specs.inside.Making.{IsStepImage};

use cdb_files::{Disk, Failed, Path, folder_above, write_whole};

/// Writes a file and syncs it, and then the folder in which it lies.
pub(crate) fn write_and_sync<D: Disk>(disk: &mut D, path: &Path, bytes: &[u8]) -> Result<(), Failed>
    ensures ok { D.tells → OnOk result (D.state disk.new ≡ after_step (FileAction.write_and_sync
        (record { path = path.now.bytes; bytes = bytes.now })) (D.state disk.old)) }
    ensures time { D.tells → AddsOnly D.clock D.since disk.old disk.new (IsStepImage (FileAction.write_and_sync
        (record { path = path.now.bytes; bytes = bytes.now })) (D.state disk.old)) }
    ensures cause { HasCause (D.fault_count disk.old) (D.fault_count disk.new) result }
    ensures reads { D.read_count disk.new ≡ D.read_count disk.old }
{
    let folder = folder_above(path);
    write_whole(disk, &folder, path, bytes)?;
    disk.sync_dir(&folder)?;
    Ok(())
}
