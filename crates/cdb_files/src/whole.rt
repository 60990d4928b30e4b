ghost use Rattle.std.specs.Prelude.{◌≡◌, ◌≤◌, ◌+◌, length, IfOk, OnOk, OnErr};
ghost use Rattle.cdb_model.specs.Causes.{HasCause};
ghost use Rattle.cdb_model.specs.Maps.{folder_above};
ghost use Rattle.cdb_files.specs.Disk.{IsMade};
ghost use Rattle.cdb_files.specs.Moments.{Rests};
ghost use Rattle.cdb_files.specs.Whole.{after_fill, after_write, FailsFill, FailsWrite, WritesOnly, IsWholeRead, IsOtherThan, ReadsIfWhole};

use crate::{Disk, Failed, Path};

/// What `read_whole` found.
#[derive(Clone, Copy, Debug, PartialEq, Eq)]
pub enum ReadSize {
    /// The file has the length that was asked for, and was read.
    Read,
    /// The file has this other length, or there is no file.
    Other(Option<u64>),
}

/// Writes a file of these bytes in one piece and syncs it, in a folder that is there. Whatever it
/// answers, it changes no other path. Where it fails, a first part of the bytes may be there.
pub fn fill<D: Disk>(disk: &mut D, path: &Path, piece: &[u8]) -> Result<(), Failed>
    requires { D.tells → IsMade (D.state disk.old) (folder_above path.now.bytes) }
    ensures ok { D.tells → OnOk result (D.state disk.new ≡ after_fill path.now.bytes piece.now (D.state disk.old)) }
    ensures err { D.tells → OnErr result (FailsFill path.now.bytes piece.now (D.state disk.old) (D.state disk.new)) }
    ensures only { D.tells → WritesOnly D.clock D.since D.state path.now.bytes disk.old disk.new }
    ensures cause { HasCause (D.fault_count disk.old) (D.fault_count disk.new) result }
    ensures reads { D.read_count disk.new ≡ D.read_count disk.old }
{
    disk.create(path)?;
    disk.append(path, piece)?;
    disk.sync_file(path)?;
    Ok(())
}

/// Writes a file of these bytes in one piece and syncs it, in its folder, which is made where it
/// isn't there. Whatever it answers, it changes no other path. Where it fails, some of the folders
/// may have been made, and a first part of the bytes may be there.
pub fn write_whole<D: Disk>(
    disk: &mut D,
    folder: &Path,
    path: &Path,
    piece: &[u8],
) -> Result<(), Failed>
    requires { folder.now.bytes ≡ folder_above path.now.bytes }
    ensures ok { D.tells
        → OnOk result (D.state disk.new ≡ after_write folder.now.bytes path.now.bytes piece.now (D.state disk.old)) }
    ensures err { D.tells
        → OnErr result (FailsWrite folder.now.bytes path.now.bytes piece.now (D.state disk.old) (D.state disk.new)) }
    ensures only { D.tells → WritesOnly D.clock D.since D.state path.now.bytes disk.old disk.new }
    ensures cause { HasCause (D.fault_count disk.old) (D.fault_count disk.new) result }
    ensures reads { D.read_count disk.new ≡ D.read_count disk.old }
{
    disk.make_dir(folder)?;
    fill(disk, path, piece)?;
    Ok(())
}

/// Reads a whole file where its length is that of `into`, and nothing where it isn't.
pub fn read_whole<D: Disk>(disk: &mut D, path: &Path, into: &mut [u8]) -> Result<ReadSize, Failed>
    ensures read { D.tells → IfOk result (IsWholeRead ((D.state disk.old).present path.now.bytes) into.old into.new) }
    ensures other { IfOk result (IsOtherThan (length into.old)) }
    ensures state { D.state disk.new ≡ D.state disk.old }
    ensures time { Rests (D.clock disk.old) (D.clock disk.new) (D.since disk.old) (D.since disk.new) }
    ensures cause { HasCause (D.fault_count disk.old) (D.fault_count disk.new) result }
    ensures reads { (D.read_count disk.old ≤ D.read_count disk.new)
        × (D.read_count disk.new ≤ D.read_count disk.old + 1) }
    ensures nothing { IfOk result (ReadsIfWhole (D.read_count disk.old) (D.read_count disk.new)) }
{
    let size = disk.size(path)?;
    if size != Some(into.len() as u64) {
        return Ok(ReadSize::Other(size));
    }
    disk.read_at(path, 0, into)?;
    Ok(ReadSize::Read)
}
