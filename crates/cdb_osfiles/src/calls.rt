use std::fs::{OpenFile, OpenOptions};
use std::io::{ErrorKind, Read, Seek, SeekFrom, Write};
use std::rt::Files;
use std::{fs, io};

/// The length of the file in bytes, or `None` where there is none. A folder is no file, and nothing
/// lies under a file. Links are followed.
pub fn size<R: Files>(rt: &R, place: &str) -> io::Result<Option<u64>> {
    match fs::metadata(rt, place) {
        Ok(found) if found.is_file() => Ok(Some(found.len())),
        Ok(_) => Ok(None),
        Err(error) if is_absence(&error) => Ok(None),
        Err(error) => Err(error),
    }
}

/// Nothing has this name: there is none such, or it goes through a file.
pub fn is_absence(error: &io::Error) -> bool {
    let kind = error.kind();
    kind == ErrorKind::NotFound || kind == ErrorKind::NotADirectory
}

/// Fills `into` with the bytes of the file from `at` on. Links are followed.
pub fn read_at<R: Files>(rt: &R, place: &str, at: u64, into: &mut [u8]) -> io::Result<()> {
    let mut file = fs::open(rt, place)?;
    if at != 0 {
        file.seek(SeekFrom::Start(at))?;
    }
    file.read_exact(into)
}

/// Makes an empty file, also where there was one.
pub fn create<R: Files>(rt: &R, place: &str) -> io::Result<()> {
    let _file = fs::create(rt, place)?;
    Ok(())
}

/// Adds the piece at the end of a file that is there.
pub fn append<R: Files>(rt: &R, place: &str, piece: &[u8]) -> io::Result<()> {
    let mut file = OpenOptions::new().append(true).open(rt, place)?;
    file.write_all(piece)
}

/// Syncs a file, or a folder with the names in it.
pub fn sync<R: Files>(rt: &R, place: &str) -> io::Result<()> {
    fs::open(rt, place)?.sync_all()
}

/// Takes the file away, and is Ok too where there is none.
pub fn remove<R: Files>(rt: &R, place: &str) -> io::Result<()> {
    match fs::remove_file(rt, place) {
        Ok(()) => Ok(()),
        Err(error) if is_absence(&error) => Ok(()),
        Err(error) => Err(error),
    }
}

/// Makes the folder, and is Ok too where it is there.
pub fn make_folder<R: Files>(rt: &R, place: &str) -> io::Result<()> {
    match fs::create_dir(rt, place) {
        Err(error) if error.kind() == ErrorKind::AlreadyExists => require_folder(rt, place),
        answer => answer,
    }
}

/// What has this name is a folder, or a link to one.
fn require_folder<R: Files>(rt: &R, place: &str) -> io::Result<()> {
    if fs::metadata(rt, place)?.is_dir() {
        Ok(())
    } else {
        Err(io::Error::from(ErrorKind::NotADirectory))
    }
}
