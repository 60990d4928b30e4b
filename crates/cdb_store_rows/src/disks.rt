//! Disks and shelves in memory.
use cdb_files::{Disk, Failed, Path, ReadSize, folder_above, read_whole, write_whole};
use cdb_memfiles::MemDisk;
use std::alloc::Global;
use std::process::Abort;
use std::test::Fail;

mod crashes;
mod folders;
mod fuses;
mod many;
mod shelves;

/// The path with this text.
fn path(rt: &impl Abort, text: &str) -> Path {
    Path::from(text).expect(rt, "it is short")
}

/// The bytes of a file, by two calls where there is one, and by one where there is none.
fn contents(alloc: Global, disk: &mut MemDisk, path: &Path) -> Result<Option<Vec<u8>>, Fail> {
    let Some(len) = disk.size(path)? else {
        return Ok(None);
    };
    let mut bytes = vec![in alloc; 0u8; len as usize]?;
    let read = read_whole(disk, path, &mut bytes)?;
    Ok(if read == ReadSize::Read {
        Some(bytes)
    } else {
        None
    })
}

/// Whether the file has these bytes, or there is none.
fn has(alloc: Global, disk: &mut MemDisk, path: &Path, want: Option<&[u8]>) -> Result<bool, Fail> {
    let found = contents(alloc, disk, path)?;
    Ok(match (&found, want) {
        (Some(bytes), Some(want)) => bytes.as_slice() == want,
        (None, None) => true,
        _ => false,
    })
}

/// Adds a piece to a file that is there, by two calls.
fn append(disk: &mut MemDisk, path: &Path, piece: &[u8]) -> Result<(), Failed> {
    if disk.size(path)?.is_some() {
        disk.append(path, piece)?;
    }
    Ok(())
}

/// Gives a file that is there another path, by two calls.
fn rename(disk: &mut MemDisk, from: &Path, to: &Path) -> Result<(), Failed> {
    if from != to && disk.size(from)?.is_some() {
        disk.rename(from, to)?;
    }
    Ok(())
}

/// Writes a file whole, by four calls.
fn write<D: Disk>(disk: &mut D, path: &Path, bytes: &[u8]) -> Result<(), Failed> {
    write_whole(disk, &folder_above(path), path, bytes)
}

#[derive(Clone, Copy)]
enum Kind {
    Size,
    ReadAt,
    FirstUnder,
    MakeDir,
    Create,
    Append,
    SyncFile,
    SyncDir,
    Rename,
    Remove,
}

fn call(disk: &mut MemDisk, kind: Kind, file: &Path, other: &Path) -> Result<(), Failed> {
    match kind {
        Kind::Size => {
            disk.size(file)?;
        }
        Kind::ReadAt => {
            read_whole(disk, file, &mut [0; 3])?;
        }
        Kind::FirstUnder => {
            disk.first_under(&Path::new())?;
        }
        Kind::MakeDir => disk.make_dir(other)?,
        Kind::Create => disk.create(file)?,
        Kind::Append => append(disk, file, b"de")?,
        Kind::SyncFile => disk.sync_file(file)?,
        Kind::SyncDir => disk.sync_dir(&folder_above(file))?,
        Kind::Rename => rename(disk, file, other)?,
        Kind::Remove => disk.remove(file)?,
    }
    Ok(())
}

/// A call, its number after the five that prepare the disk, and the two files after it.
#[derive(Drop)]
struct Row {
    kind: Kind,
    number: u64,
    first: Option<&'static [u8]>,
    second: Option<&'static [u8]>,
}

/// Whether the files are these.
fn holds(
    alloc: Global,
    disk: &mut MemDisk,
    files: (&Path, &Path),
    want: (Option<&[u8]>, Option<&[u8]>),
) -> Result<bool, Fail> {
    Ok(has(alloc, disk, files.0, want.0)? && has(alloc, disk, files.1, want.1)?)
}

/// A disk with the first file, which is synced, whose call of this number fails.
fn prepare(alloc: Global, file: &Path, number: u64) -> Result<MemDisk, Fail> {
    let mut fails = Vec::new(alloc);
    fails.push(number)?;
    let mut disk = MemDisk::new(alloc, fails);
    write(&mut disk, file, b"abc")?;
    disk.sync_dir(&folder_above(file))?;
    Ok(disk)
}

/// Whether the call fails and changes nothing, and adds one to the count of faults, and to that of
/// reads where it reads.
fn fails(
    alloc: Global,
    disk: &mut MemDisk,
    row: &Row,
    file: &Path,
    other: &Path,
) -> Result<bool, Fail> {
    let reads = disk.reads();
    let failed = call(disk, row.kind, file, other).is_err();
    let read = if let Kind::ReadAt = row.kind { 1 } else { 0 };
    let counted = disk.faults() == 1 && disk.reads() == reads.saturating_add(read);
    Ok(failed && counted && holds(alloc, disk, (file, other), (Some(b"abc"), None))?)
}

/// Whether the same call does its work then.
fn works(
    alloc: Global,
    disk: &mut MemDisk,
    row: &Row,
    file: &Path,
    other: &Path,
) -> Result<bool, Fail> {
    call(disk, row.kind, file, other)?;
    let counted = disk.faults() == 1 && disk.refused() == 0;
    Ok(counted && holds(alloc, disk, (file, other), (row.first, row.second))?)
}

fn row_of(
    kind: Kind,
    number: u64,
    first: Option<&'static [u8]>,
    second: Option<&'static [u8]>,
) -> Row {
    Row {
        kind,
        number,
        first,
        second,
    }
}

#[test]
fn each_call_fails_where_it_is_listed_and_else_does_its_work(rt: HostRuntime) -> Result<(), Fail> {
    let (file, other) = (path(&rt, "a/f"), path(&rt, "a/g"));
    let rows = [
        row_of(Kind::Size, 6, Some(b"abc"), None),
        row_of(Kind::ReadAt, 7, Some(b"abc"), None),
        row_of(Kind::FirstUnder, 6, Some(b"abc"), None),
        row_of(Kind::MakeDir, 6, Some(b"abc"), None),
        row_of(Kind::Create, 6, Some(b""), None),
        row_of(Kind::Append, 7, Some(b"abcde"), None),
        row_of(Kind::SyncFile, 6, Some(b"abc"), None),
        row_of(Kind::SyncDir, 6, Some(b"abc"), None),
        row_of(Kind::Rename, 7, None, Some(b"abc")),
        row_of(Kind::Remove, 6, None, None),
    ];
    for row in &rows {
        let mut disk = prepare(rt.alloc(), &file, row.number)?;
        assert!(rt; fails(rt.alloc(), &mut disk, row, &file, &other)?);
        assert!(rt; works(rt.alloc(), &mut disk, row, &file, &other)?);
    }
    Ok(())
}
