use crate::calls::is_absence;
use crate::place::{Place, place};
use arrayvec::ArrayString;
use cdb_files::Path;
use std::fs::symlink_metadata;
use std::io;
use std::io::{ErrorKind, Read};
use std::rt::Files;

/// A name in a folder as whole paths are ordered by it: with a slash behind it where it is a folder.
pub type Key = ArrayString<129>;

/// A name that isn't text, or a path of more than 128 bytes.
fn unfit() -> io::Error {
    io::Error::from(ErrorKind::InvalidFilename)
}

/// The path of a name in the folder.
pub fn join(folder: &Path, name: &str) -> io::Result<Path> {
    let mut path = *folder;
    if !folder.is_empty() && path.try_push('/').is_err() {
        return Err(unfit());
    }
    match path.try_push_str(name) {
        Ok(()) => Ok(path),
        Err(_) => Err(unfit()),
    }
}

/// The key of a name.
pub fn key_of(name: &str, is_folder: bool) -> io::Result<Key> {
    let Ok(mut key) = Key::from(name) else {
        return Err(unfit());
    };
    if is_folder && key.try_push('/').is_err() {
        return Err(unfit());
    }
    Ok(key)
}

/// How many bytes a name in the folder may have.
fn room_in(folder: &Path) -> usize {
    let slash = usize::from(!folder.is_empty());
    folder.remaining_capacity().saturating_sub(slash)
}

/// There is a least key so far, which isn't empty, and it is at most this one.
fn is_at_most(least: &Key, key: &str) -> bool {
    !least.is_empty() && least.as_str() <= key
}

/// What has the name comes before `after`, or is it, be it a file or a folder.
fn is_passed(name: &str, after: &Key) -> io::Result<bool> {
    Ok(name <= after.as_str() && key_of(name, true)? <= *after)
}

/// Puts the key of the name into `least` where it comes behind `after` and is less than what is there,
/// or there is none. The system is asked what has the name only where it may be so; a link is no
/// folder.
fn lessen<R: Files>(
    rt: &R,
    root: &Path,
    folder: &Path,
    name: &str,
    after: &Key,
    least: &mut Key,
) -> io::Result<()> {
    if is_at_most(least, name) || is_passed(name, after)? {
        return Ok(());
    }
    let path = join(folder, name)?;
    let found = symlink_metadata(rt, place(root, path.as_str()).as_str())?;
    let key = key_of(name, found.is_dir())?;
    if key > *after && !is_at_most(least, key.as_str()) {
        *least = key;
    }
    Ok(())
}

/// The same for each name in a piece of a listing, in which a zero byte follows each.
fn lessen_all<R: Files>(
    rt: &R,
    root: &Path,
    folder: &Path,
    names: &[u8],
    after: &Key,
    least: &mut Key,
) -> io::Result<()> {
    let room = room_in(folder);
    for name in names.split(|byte| *byte == 0) {
        if name.is_empty() || name == b".".as_slice() || name == b"..".as_slice() {
            continue;
        }
        match str::from_utf8(name) {
            Ok(name) if name.len() <= room => lessen(rt, root, folder, name, after, least)?,
            _ => return Err(unfit()),
        }
    }
    Ok(())
}

/// Where the folder is opened to be listed. A link at the end of a place isn't followed then, so that
/// nothing is listed behind a link but the store itself.
fn listed_place(root: &Path, folder: &Path) -> Place {
    if folder.is_empty() {
        place(root, ".")
    } else {
        place(root, folder.as_str())
    }
}

/// The least key in the folder that comes behind `after`, or the empty one where there is none, as in
/// a folder that isn't there.
pub fn least_after<R: Files>(rt: &R, root: &Path, folder: &Path, after: &Key) -> io::Result<Key> {
    let mut least = Key::new();
    let mut names = match rt.open_dir(listed_place(root, folder).as_str()) {
        Ok(names) => names,
        Err(error) if is_absence(&error) => return Ok(least),
        Err(error) => return Err(error),
    };
    let mut piece = [0; 16_384];
    for _ in 0..u64::MAX {
        let count = names.read(&mut piece)?;
        if count == 0 {
            return Ok(least);
        }
        lessen_all(rt, root, folder, &piece[..count], after, &mut least)?;
    }
    Err(io::Error::from(ErrorKind::Other))
}
