use crate::calls::{make_folder, sync};
use crate::place::{Place, place};
use cdb_files::{Path, folder_above};
use std::collections::BTreeSet;
use std::io;
use std::io::ErrorKind;
use std::rt::Files;

/// Folders that were made or found in this opening, and whose names in the folders above them were
/// synced then.
pub type Sure = BTreeSet<Path>;

/// How many folders are noted, before the notes begin anew. One that is no longer noted is merely
/// synced again.
const MOST: usize = 16_384;

/// Notes the folder. Where memory for it is refused, that is a failure.
fn note(sure: &mut Sure, folder: &Path) -> io::Result<()> {
    if sure.len() >= MOST {
        sure.clear();
    }
    match sure.insert(*folder) {
        Ok(_) => Ok(()),
        Err(_) => Err(io::Error::from(ErrorKind::OutOfMemory)),
    }
}

/// Where the folder lies. The one above the store's own stands outside of the store.
fn place_above(root: &Path, folder: &Path) -> Place {
    if folder.is_empty() {
        place(root, "..")
    } else {
        place(root, folder_above(folder).as_str())
    }
}

/// Makes one folder, and syncs its name in the folder above it, unless it was made or found before
/// in this opening. A folder that is there already is synced too: it may have been left by a
/// program that was stopped before its own sync.
fn make_one<R: Files>(rt: &R, root: &Path, folder: &Path, sure: &mut Sure) -> io::Result<()> {
    if sure.contains(folder) {
        return Ok(());
    }
    make_folder(rt, place(root, folder.as_str()).as_str())?;
    sync(rt, place_above(root, folder).as_str())?;
    note(sure, folder)
}

/// Makes the folder that `folder` names up to `end`, where a name ends there.
fn make_part<R: Files>(
    rt: &R,
    root: &Path,
    folder: &Path,
    end: usize,
    sure: &mut Sure,
) -> io::Result<()> {
    let Some((part, rest)) = folder.as_str().split_at_checked(end) else {
        return Ok(());
    };
    if !rest.is_empty() && !rest.starts_with('/') {
        return Ok(());
    }
    let Ok(part) = Path::from(part) else {
        return Err(io::Error::from(ErrorKind::InvalidFilename));
    };
    make_one(rt, root, &part, sure)
}

/// Makes the folder and those above it, the store's own first, each synced in the one above it.
pub fn make_all<R: Files>(rt: &R, root: &Path, folder: &Path, sure: &mut Sure) -> io::Result<()> {
    if sure.contains(folder) {
        return Ok(());
    }
    make_one(rt, root, &Path::new(), sure)?;
    for end in 1..=folder.len() {
        make_part(rt, root, folder, end, sure)?;
    }
    Ok(())
}

/// Syncs the names in the folder. The store's own is made first, where it isn't there.
pub fn sync_folder<R: Files>(
    rt: &R,
    root: &Path,
    folder: &Path,
    sure: &mut Sure,
) -> io::Result<()> {
    if folder.is_empty() {
        make_all(rt, root, folder, sure)?;
    }
    sync(rt, place(root, folder.as_str()).as_str())
}
