//! What a crash leaves.
use super::{has, holds, path, rename, write};
use cdb_files::{Disk, Failed, Path, folder_above};
use cdb_memfiles::{Fuse, MemDisk, Pick};
use std::alloc::Global;
use std::test::Fail;

/// A disk on which so many of these calls were made: `make_dir`, `create`, `append` and `sync_file`
/// of the file, `sync_dir`, `rename` over the other, `sync_dir`, `remove` of the other, `sync_dir`.
/// The other was there before and has a crash leave nothing else.
fn after(alloc: Global, calls: u64, file: &Path, other: &Path) -> Result<MemDisk, Failed> {
    let folder = folder_above(file);
    let mut disk = MemDisk::new(alloc, Vec::new(alloc));
    write(&mut disk, other, b"old")?;
    disk.sync_dir(&folder)?;
    let mut fuse = Fuse::new(disk, calls);
    let _ = write(&mut fuse, file, b"abcde");
    let _ = fuse.sync_dir(&folder);
    let mut disk = fuse.disk();
    if calls >= 6 {
        rename(&mut disk, file, other)?;
    }
    if calls >= 7 {
        disk.sync_dir(&folder)?;
    }
    if calls >= 8 {
        disk.remove(other)?;
    }
    if calls >= 9 {
        disk.sync_dir(&folder)?;
    }
    Ok(disk)
}

/// The two files.
type Files = (Option<&'static [u8]>, Option<&'static [u8]>);

/// Whether the files are these after the crash, and after any further one.
fn stays(
    alloc: Global,
    disk: MemDisk,
    paths: (&Path, &Path),
    pick: Pick,
    want: Files,
) -> Result<bool, Fail> {
    let mut disk = disk.crash(pick)?;
    let first = holds(alloc, &mut disk, paths, want)?;
    let mut disk = disk.crash(Pick::Oldest)?;
    let second = holds(alloc, &mut disk, paths, want)?;
    let mut disk = disk.crash(Pick::Torn)?;
    Ok(first && second && holds(alloc, &mut disk, paths, want)?)
}

/// Whether each pick leaves these files after so many calls: newest, oldest, torn.
fn leaves(
    alloc: Global,
    calls: u64,
    paths: (&Path, &Path),
    want: (Files, Files, Files),
) -> Result<bool, Fail> {
    let newest = after(alloc, calls, paths.0, paths.1)?;
    let oldest = after(alloc, calls, paths.0, paths.1)?;
    let torn = after(alloc, calls, paths.0, paths.1)?;
    Ok(
        stays(alloc, newest, paths, Pick::Newest, want.0)?
            && stays(alloc, oldest, paths, Pick::Oldest, want.1)?
            && stays(alloc, torn, paths, Pick::Torn, want.2)?,
    )
}

#[test]
fn each_pick_after_each_call(rt: HostRuntime) -> Result<(), Fail> {
    let (file, other) = (path(&rt, "a/f"), path(&rt, "a/g"));
    let none: Option<&'static [u8]> = None;
    let old: Option<&'static [u8]> = Some(b"old");
    let empty: Option<&'static [u8]> = Some(b"");
    let half: Option<&'static [u8]> = Some(b"ab");
    let whole: Option<&'static [u8]> = Some(b"abcde");
    // After each call the two files by each pick: newest, oldest, torn.
    let rows = [
        ((none, old), (none, old), (none, old)),
        ((empty, old), (none, old), (empty, old)),
        ((whole, old), (none, old), (half, old)),
        ((whole, old), (none, old), (whole, old)),
        ((whole, old), (whole, old), (whole, old)),
        ((none, whole), (none, old), (none, whole)),
        ((none, whole), (none, whole), (none, whole)),
        ((none, none), (none, whole), (none, none)),
        ((none, none), (none, none), (none, none)),
    ];
    let mut calls = 1;
    for want in rows {
        assert!(rt; leaves(rt.alloc(), calls, (&file, &other), want)?);
        calls = calls.saturating_add(1);
    }
    Ok(())
}

/// A sync of a folder isn't one of the folders below it, nor of those above it.
#[test]
fn a_sync_of_a_folder_is_of_its_own_files(rt: HostRuntime) -> Result<(), Fail> {
    let mut disk = MemDisk::new(rt.alloc(), Vec::new(rt.alloc()));
    for text in ["a/f", "a/b/f", "f"] {
        write(&mut disk, &path(&rt, text), b"x")?;
    }
    disk.sync_dir(&path(&rt, "a"))?;
    let mut disk = disk.crash(Pick::Oldest)?;
    assert!(rt; has(rt.alloc(), &mut disk, &path(&rt, "a/f"), Some(b"x"))?);
    assert!(rt; has(rt.alloc(), &mut disk, &path(&rt, "a/b/f"), None)?);
    assert!(rt; has(rt.alloc(), &mut disk, &path(&rt, "f"), None)?);
    Ok(())
}
