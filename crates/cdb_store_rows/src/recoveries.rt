//! Stores that are recovered.
use cdb_files::{Disk, Failed, Path, folder_above, write_whole};
use cdb_memfiles::{Fuse, MemDisk, Pick};
use cdb_recover::{RecoverError, recover};
use std::alloc::Global;
use std::process::Abort;
use std::test::Fail;

/// The path with this text.
fn path(rt: &impl Abort, text: &str) -> Path {
    Path::from(text).expect(rt, "it is short")
}

/// Writes a file whole and makes sure of it.
fn put(disk: &mut MemDisk, path: &Path, bytes: &[u8]) -> Result<(), Failed> {
    let folder = folder_above(path);
    write_whole(disk, &folder, path, bytes)?;
    disk.sync_dir(&folder)
}

/// The paths that the tests speak of.
#[derive(Clone, Copy)]
struct Paths {
    head: Path,
    new_head: Path,
    record: Path,
    source: Path,
    tiles: [Path; 2],
    next: Path,
}

fn all_paths(rt: &impl Abort) -> Paths {
    Paths {
        head: path(rt, "HEAD"),
        new_head: path(rt, "HEAD.tmp"),
        record: path(rt, "V00000001/Metadata/record"),
        source: path(rt, "V00000002/Sources/S0001"),
        tiles: [path(rt, "V00000002/Tiles/a"), path(rt, "V00000002/Tiles/b")],
        next: path(rt, "V00000002"),
    }
}

/// A disk with version 1, and with three files of version 2 and a new head. Nothing is sure of these.
fn half_published(alloc: Global, paths: &Paths) -> Result<MemDisk, Fail> {
    let mut disk = MemDisk::new(alloc, Vec::new(alloc));
    put(&mut disk, &paths.record, b"record")?;
    put(&mut disk, &paths.head, b"1\n")?;
    for file in [paths.source, paths.tiles[0], paths.tiles[1], paths.new_head] {
        write_whole(&mut disk, &folder_above(&file), &file, b"left")?;
    }
    Ok(disk)
}

/// Whether version 1 is there, and nothing else.
fn is_clean(disk: &mut MemDisk, paths: &Paths) -> Result<bool, Fail> {
    Ok(
        disk.size(&paths.record)? == Some(6)
            && disk.size(&paths.head)? == Some(2)
            && disk.size(&paths.new_head)?.is_none()
            && disk.first_under(&paths.next)?.is_none(),
    )
}

/// Whether recovery with so many calls, then a stop, and a second recovery leave version 1.
fn recovers(alloc: Global, paths: &Paths, calls: u64, pick: Pick) -> Result<bool, Fail> {
    let mut fuse = Fuse::new(half_published(alloc, paths)?, calls);
    let first = match recover(&mut fuse) {
        Ok(newest) => newest == 1 && calls >= 14,
        Err(error) => error == RecoverError::Fault && calls < 14,
    };
    let mut disk = fuse.disk().crash(pick)?;
    let second = matches!(recover(&mut disk), Ok(1));
    Ok(first && second && is_clean(&mut disk, paths)?)
}

/// Recovery makes 14 calls: the sync of the root, two for the head, one for the new head, three for
/// each of three files, and the last look.
#[test]
fn half_a_publication_goes_wherever_recovery_stops(rt: HostRuntime) -> Result<(), Fail> {
    let paths = all_paths(&rt);
    for calls in 0..16 {
        for pick in [Pick::Newest, Pick::Oldest, Pick::Torn] {
            assert!(rt; recovers(rt.alloc(), &paths, calls, pick)?);
        }
    }
    Ok(())
}

/// Recovery goes on on the same disk, where the calls failed and nothing stopped.
#[test]
fn half_a_publication_goes_after_a_fault(rt: HostRuntime) -> Result<(), Fail> {
    let paths = all_paths(&rt);
    for calls in 0..16 {
        let mut fuse = Fuse::new(half_published(rt.alloc(), &paths)?, calls);
        let _ = recover(&mut fuse);
        let mut disk = fuse.disk();
        assert!(rt; matches!(recover(&mut disk), Ok(1)));
        assert!(rt; is_clean(&mut disk, &paths)?);
    }
    Ok(())
}

/// What the head has, and the newest version, if it names one.
#[derive(Clone, Copy)]
struct Row {
    head: Option<&'static [u8]>,
    newest: Option<u32>,
}

/// Whether the head is read so. The new head goes, and of the two other files the one of the version
/// after the newest, and where the head names none, none goes.
fn is_read(alloc: Global, paths: &Paths, row: &Row) -> Result<bool, Fail> {
    let mut disk = MemDisk::new(alloc, Vec::new(alloc));
    for file in [paths.record, paths.source, paths.new_head] {
        put(&mut disk, &file, b"x")?;
    }
    if let Some(head) = row.head {
        put(&mut disk, &paths.head, head)?;
    }
    let answer = match recover(&mut disk) {
        Ok(newest) => row.newest == Some(newest),
        Err(error) => {
            row.newest.is_none()
                && error
                    == RecoverError::NotAStore {
                        version: 0,
                        place: 0,
                    }
        }
    };
    let first = disk.size(&paths.record)?.is_some() == (row.newest != Some(0));
    let second = disk.size(&paths.source)?.is_some() == (row.newest != Some(1));
    let new_head = disk.size(&paths.new_head)?.is_some() == row.newest.is_none();
    Ok(answer && first && second && new_head)
}

fn row_of(head: Option<&'static [u8]>, newest: Option<u32>) -> Row {
    Row { head, newest }
}

#[test]
fn the_head_names_the_newest_version_or_none(rt: HostRuntime) -> Result<(), Fail> {
    let paths = all_paths(&rt);
    let rows = [
        row_of(None, Some(0)),
        row_of(Some(b"1\n"), Some(1)),
        row_of(Some(b"4096\n"), Some(4096)),
        row_of(Some(b""), None),
        row_of(Some(b"0\n"), None),
        row_of(Some(b"4097\n"), None),
        row_of(Some(b"1"), None),
        row_of(Some(b"01\n"), None),
        row_of(Some(b"4096\n\n"), None),
    ];
    for row in &rows {
        assert!(rt; is_read(rt.alloc(), &paths, row)?);
    }
    Ok(())
}

/// The path of a file of version 1 by its number.
fn leftover(number: u32) -> Path {
    let mut path = Path::new();
    path.push_str("V00000001/");
    for place in [10_000, 1_000, 100, 10, 1] {
        let digit = char::from_digit(number / place % 10, 10);
        let _ = path.try_push(digit.unwrap_or('x'));
    }
    path
}

/// Makes the first so many files of version 1, each of which is empty.
fn leave(disk: &mut MemDisk, count: u32) -> Result<(), Failed> {
    for number in 0..count {
        let path = leftover(number);
        disk.make_dir(&folder_above(&path))?;
        disk.create(&path)?;
    }
    Ok(())
}

/// Of one file more than can be removed the last one is left, and as many as can be all go.
#[test]
fn at_most_65_536_files_are_removed(rt: HostRuntime) -> Result<(), Fail> {
    let last = leftover(65_536);
    let folder = folder_above(&last);
    let full = RecoverError::NotAStore {
        version: 1,
        place: 65_536,
    };
    let mut disk = MemDisk::new(rt.alloc(), Vec::new(rt.alloc()));
    leave(&mut disk, 65_537)?;
    assert!(rt; recover(&mut disk) == Err(full));
    assert!(rt; disk.first_under(&folder)? == Some(last));
    leave(&mut disk, 65_535)?;
    assert!(rt; recover(&mut disk) == Ok(0));
    assert!(rt; disk.first_under(&folder)?.is_none());
    Ok(())
}
