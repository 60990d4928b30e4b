use cdb_files::Path;

/// The last search of a folder: the file that it found, and whether that was removed since. Then
/// no file comes before it or in its place, and the next search of that folder goes on behind it,
/// so that the folders that were emptied aren't gone through each time.
#[derive(Clone, Copy)]
pub struct LastSearch {
    folder: Path,
    found: Path,
    is_removed: bool,
}

/// The file that was found, or the root, which is no file.
fn first_of(found: &Option<Path>) -> Path {
    match found {
        Some(path) => *path,
        None => Path::new(),
    }
}

impl LastSearch {
    /// No search, as at first, and once a file is made.
    pub fn none() -> LastSearch {
        LastSearch::of(&Path::new(), &None)
    }

    /// A search of the folder, and what it found.
    pub fn of(folder: &Path, found: &Option<Path>) -> LastSearch {
        LastSearch {
            folder: *folder,
            found: first_of(found),
            is_removed: false,
        }
    }

    /// Behind which file the next search of the folder goes on.
    pub fn behind(&self, folder: &Path) -> Option<Path> {
        if self.is_removed && self.folder == *folder {
            Some(self.found)
        } else {
            None
        }
    }

    /// A file is removed.
    pub fn remove(&mut self, path: &Path) {
        if self.found == *path {
            self.is_removed = true;
        }
    }
}
