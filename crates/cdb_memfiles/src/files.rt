ghost use Rattle.std.specs.Prelude.{◌≡◌, ◌≢◌, ◌+◌, ◌≤◌, None, Some, length, drop, take, IsOk, OnOk, OnErr, MatchOption};
ghost use Rattle.cdb_model.specs.Maps.{size_of, HasBytesUpTo, HasAt, IsThere, put, folder_prefix, NoneUnder, IsFirstUnder};
ghost use Rattle.cdb_files.specs.Disk.{with_piece};
ghost use Rattle.cdb_memfiles.specs.Files.{content, bytes_of, IsShort};

use cdb_files::Path;
use std::alloc::AllocError;
use std::collections::BTreeMap;

/// Files by path.
pub type ByPath = BTreeMap<Path, Vec<u8>>;

/// The length of the file, or `None` where there is no file.
#[tactic(auto, unfolding(crate::specs::Files::content))]
pub fn size_in(files: &ByPath, path: &Path) -> Option<u64>
    ensures { result ≡ size_of (content files.now path.now.bytes) }
{
    match files.get(path) {
        Some(bytes) => Some(bytes.len() as u64),
        None => None,
    }
}

/// Fills `into` with the bytes of the file from `at` on.
#[tactic(auto, unfolding(crate::specs::Files::content))]
pub fn read_in(files: &ByPath, path: &Path, at: u64, into: &mut [u8])
    requires { HasBytesUpTo (content files.now path.now.bytes) at (length into.old) }
    ensures { HasAt (content files.now path.now.bytes) at into.new }
{
    let Some(bytes) = files.get(path) else {
        unreachable!();
    };
    let start = at as usize;
    into.copy_from_slice(&bytes[start..start + into.len()]);
}

/// Gives the path these bytes, in place of those that it had.
pub fn store(files: &mut ByPath, path: &Path, bytes: Vec<u8>) -> Result<(), AllocError>
    ensures ok { OnOk result (content files.new ≡ put (content files.old) path.now.bytes (Some bytes.items)) }
    ensures err { OnErr result (content files.new ≡ content files.old) }
    ensures there { IsThere (content files.old path.now.bytes) → IsOk result }
    ensures short { length path.now.bytes ≤ 128 }
{
    prove!(path.len() <= 128);
    match files.insert(*path, bytes) {
        Ok(_) => Ok(()),
        Err(_) => Err(AllocError),
    }
}

/// Takes the file away, and hands over its bytes.
pub fn take(files: &mut ByPath, path: &Path) -> Option<Vec<u8>>
    ensures value { bytes_of result ≡ content files.old path.now.bytes }
    ensures rest { content files.new ≡ put (content files.old) path.now.bytes None }
{
    files.remove(path)
}

/// Adds `piece` at the end of the file.
pub fn extend(files: &mut ByPath, path: &Path, piece: &[u8]) -> Result<(), AllocError>
    requires { IsThere (content files.old path.now.bytes) }
    ensures ok { OnOk result
        (content files.new
        ≡ put (content files.old) path.now.bytes (with_piece piece.now (content files.old path.now.bytes))) }
    ensures err { OnErr result (content files.new ≡ content files.old) }
{
    let Some(bytes) = files.get_mut(path) else {
        unreachable!();
    };
    bytes.extend_from_slice(piece)?;
    Ok(())
}

/// Gives the file another path, over what had that path. `room` holds the place of the new path,
/// so that nothing has moved where there is no memory for it.
pub fn move_file(
    files: &mut ByPath,
    from: &Path,
    to: &Path,
    room: Vec<u8>,
) -> Result<(), AllocError>
    requires differ { from.now.bytes ≢ to.now.bytes }
    requires there { IsThere (content files.old from.now.bytes) }
    ensures ok { OnOk result
        (content files.new ≡ put (put (content files.old) to.now.bytes (content files.old from.now.bytes))
        from.now.bytes None) }
    ensures err { OnErr result (content files.new ≡ content files.old) }
    ensures short { length to.now.bytes ≤ 128 }
{
    store(files, to, room)?;
    let Some(bytes) = take(files, from) else {
        unreachable!();
    };
    match store(files, to, bytes) {
        Ok(()) => {}
        Err(AllocError) => unreachable!(),
    }
    Ok(())
}

/// What the paths of files under the folder begin with, or `None` where no path is so long.
fn prefix_of(folder: &Path) -> Option<Path>
    ensures { MatchOption result (129 ≤ length (folder_prefix folder.now.bytes))
        (λ prefix. prefix.bytes ≡ folder_prefix folder.now.bytes) }
{
    let mut prefix = *folder;
    if !folder.is_empty() && prefix.try_push('/').is_err() {
        return None;
    }
    Some(prefix)
}

/// The first file under the folder by the order of the bytes of its whole path, or `None` where
/// there is none.
pub fn first_in(files: &ByPath, folder: &Path) -> Option<Path>
    requires { IsShort files.now }
    ensures { MatchOption result (NoneUnder (content files.now) folder.now.bytes)
        (λ path. IsFirstUnder (content files.now) folder.now.bytes path.bytes) }
{
    let prefix = prefix_of(folder)?;
    let (path, _) = files.range(prefix..).next()?;
    if path.as_str().starts_with(prefix.as_str()) {
        Some(*path)
    } else {
        None
    }
}
