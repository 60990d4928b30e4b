//! The calls of recovery on the root and on the file that is to take the place of `HEAD`.
ghost use Rattle.std.specs.Prelude.{◌≡◌, [], OnOk, OnErr};
ghost use Rattle.cdb_model.specs.Causes.{HasCause};
ghost use Rattle.cdb_model.specs.Names.{new_head_path};
ghost use Rattle.cdb_files.specs.Disk.{after_remove, after_sync_dir};
ghost use Rattle.cdb_files.specs.Moments.{Elapses, IsBetween};
ghost use Rattle.cdb_files.specs.Whole.{WritesOnly};
ghost use Rattle.cdb_recover.specs.inside.Clearing.{RemovesOne};

use cdb_files::{Disk, Failed};
use cdb_names::{new_head_path, root_folder};

/// Makes sure of which files lie directly in the root.
pub(crate) fn sync_root<D: Disk>(disk: &mut D) -> Result<(), Failed>
    ensures ok { D.tells → OnOk result (D.state disk.new ≡ after_sync_dir [] (D.state disk.old)) }
    ensures err { D.tells → OnErr result (D.state disk.new ≡ D.state disk.old) }
    ensures folders { D.tells → (D.state disk.new).made ≡ (D.state disk.old).made }
    ensures time { D.tells → Elapses (D.clock disk.old) (D.clock disk.new) (D.since disk.old) (D.since disk.new)
        (IsBetween (D.state disk.old) (after_sync_dir [] (D.state disk.old))) }
    ensures cause { HasCause (D.fault_count disk.old) (D.fault_count disk.new) result }
    ensures reads { D.read_count disk.new ≡ D.read_count disk.old }
{
    let folder = root_folder();
    disk.sync_dir(&folder)?;
    Ok(())
}

/// Removes `HEAD.tmp`.
pub(crate) fn remove_new_head<D: Disk>(disk: &mut D) -> Result<(), Failed>
    ensures ok { D.tells → OnOk result (D.state disk.new ≡ after_remove new_head_path (D.state disk.old)) }
    ensures only { D.tells → WritesOnly D.clock D.since D.state new_head_path disk.old disk.new }
    ensures removed { D.tells → RemovesOne new_head_path (D.state disk.old).present (D.state disk.new).present }
    ensures folders { D.tells → (D.state disk.new).made ≡ (D.state disk.old).made }
    ensures cause { HasCause (D.fault_count disk.old) (D.fault_count disk.new) result }
    ensures reads { D.read_count disk.new ≡ D.read_count disk.old }
{
    let path = new_head_path();
    disk.remove(&path)?;
    Ok(())
}
