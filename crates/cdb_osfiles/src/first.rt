use crate::listing::{Key, join, key_of, least_after};
use cdb_files::{Path, folder_above};
use std::io;
use std::io::ErrorKind;
use std::rt::Files;

/// The name of a path in its folder.
fn name_of(path: &Path) -> &str {
    match path.as_str().rsplit_once('/') {
        Some((_, name)) => name,
        None => path.as_str(),
    }
}

/// The first file under the folder, in the order of the bytes of whole paths; where a file under
/// it is given, the first behind that. Where the search is, and the last key there, is all that it
/// keeps: a folder is listed again for each of the names in it that it goes through.
pub fn first_under<R: Files>(
    rt: &R,
    root: &Path,
    folder: &Path,
    behind: Option<Path>,
) -> io::Result<Option<Path>> {
    let mut at = *folder;
    let mut after = Key::new();
    if let Some(path) = behind {
        at = folder_above(&path);
        after = key_of(name_of(&path), false)?;
    }
    for _ in 0..u64::MAX {
        let key = least_after(rt, root, &at, &after)?;
        if let Some(name) = key.as_str().strip_suffix('/') {
            at = join(&at, name)?;
            after = Key::new();
        } else if !key.is_empty() {
            return Ok(Some(join(&at, key.as_str())?));
        } else if at == *folder {
            return Ok(None);
        } else {
            after = key_of(name_of(&at), true)?;
            at = folder_above(&at);
        }
    }
    Err(io::Error::from(ErrorKind::Other))
}
