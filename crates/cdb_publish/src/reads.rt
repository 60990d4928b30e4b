//! Reading files whose sizes are known.
ghost use Rattle.std.specs.Prelude.{◌≡◌, ◌+◌, ◌≤◌, ◌∷◌, [], length, OnOk, IfErr, Some};
ghost use Rattle.cdb_model.specs.Maps.{HasAt};
ghost use Rattle.cdb_files.specs.Moments.{Rests};
ghost use Rattle.cdb_publish.specs.Causes.{IsCaused};
ghost use Rattle.cdb_publish.specs.Needs.{TellsSizes, IsDamage};
ghost use Rattle.cdb_publish.specs.inside.Needs.{IsUnread};

use crate::errors::StepError;
use cdb_files::{Disk, Path, ReadSize, read_whole};

/// Whether a file has the size that its form gives.
pub(crate) fn check_size<D: Disk>(disk: &mut D, path: &Path, expected: u64) -> Result<(), StepError>
    ensures sizes { D.tells → TellsSizes (D.state disk.old).present
        (record { path = path.now.bytes; size = expected } ∷ []) result }
    ensures damage { IfErr result IsDamage }
    ensures state { D.state disk.new ≡ D.state disk.old }
    ensures time { Rests (D.clock disk.old) (D.clock disk.new) (D.since disk.old) (D.since disk.new) }
    ensures cause { IsCaused (D.fault_count disk.old) (D.fault_count disk.new) result }
    ensures reads { D.read_count disk.new ≡ D.read_count disk.old }
{
    let found = disk.size(path)?;
    if found != Some(expected) {
        return Err(StepError::Damaged { expected, found });
    }
    Ok(())
}

/// Reads a whole file of a known size.
pub(crate) fn read_sized<D: Disk>(
    disk: &mut D,
    path: &Path,
    into: &mut [u8],
) -> Result<(), StepError>
    ensures read { D.tells → OnOk result ((D.state disk.old).present path.now.bytes ≡ Some into.new) }
    ensures sizes { D.tells → TellsSizes (D.state disk.old).present
        (record { path = path.now.bytes; size = length into.old } ∷ []) result }
    ensures damage { IfErr result IsDamage }
    ensures state { D.state disk.new ≡ D.state disk.old }
    ensures time { Rests (D.clock disk.old) (D.clock disk.new) (D.since disk.old) (D.since disk.new) }
    ensures cause { IsCaused (D.fault_count disk.old) (D.fault_count disk.new) result }
    ensures reads { D.read_count disk.new ≤ D.read_count disk.old + 1 }
    ensures unread { IfErr result (IsUnread (D.read_count disk.old) (D.read_count disk.new)) }
{
    let expected = into.len() as u64;
    match read_whole(disk, path, into) {
        Ok(ReadSize::Read) => Ok(()),
        Ok(ReadSize::Other(found)) => Err(StepError::Damaged { expected, found }),
        Err(_) => Err(StepError::Fault),
    }
}

/// Reads a part of a file of a known size.
pub(crate) fn read_part<D: Disk>(
    disk: &mut D,
    path: &Path,
    expected: u64,
    at: u64,
    into: &mut [u8],
) -> Result<(), StepError>
    requires { at + length into.old ≤ expected }
    ensures read { D.tells → OnOk result (HasAt ((D.state disk.old).present path.now.bytes) at into.new) }
    ensures sizes { D.tells → TellsSizes (D.state disk.old).present
        (record { path = path.now.bytes; size = expected } ∷ []) result }
    ensures damage { IfErr result IsDamage }
    ensures state { D.state disk.new ≡ D.state disk.old }
    ensures time { Rests (D.clock disk.old) (D.clock disk.new) (D.since disk.old) (D.since disk.new) }
    ensures cause { IsCaused (D.fault_count disk.old) (D.fault_count disk.new) result }
    ensures reads { D.read_count disk.new ≤ D.read_count disk.old + 1 }
{
    match check_size(disk, path, expected) {
        Ok(()) => {}
        Err(error) => return Err(error),
    }
    disk.read_at(path, at, into)?;
    Ok(())
}
