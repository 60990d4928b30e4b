//! A disk and a shelf over real folders.
use cdb_files::{Disk, Failed, Path, Shelf, folder_above};
use cdb_osfiles::{OsDisk, OsShelf};
use std::fs::Permissions;
use std::os::unix::fs::{PermissionsExt, symlink};
use std::process::Abort;
use std::rt::Files;
use std::test::Fail;
use std::{fs, io};

/// A call of the disk, and what it answers where it passes.
enum Call {
    Size(Option<u64>),
    ReadAt(u64, &'static [u8]),
    FirstUnder(Option<&'static str>),
    MakeDir,
    Create,
    Append(&'static [u8]),
    SyncFile,
    SyncDir,
    Rename(&'static str),
    Remove,
}

use Call::{Append, Create, FirstUnder, MakeDir, ReadAt, Remove, Rename, Size, SyncDir, SyncFile};

/// The path, the call, and whether it passes.
struct Row(&'static str, Call, bool);

const PASSES: bool = true;

const FAILS: bool = false;

/// Over no folder at first.
static CALLS: [Row; 44] = [
    Row("V00000001", FirstUnder(None), PASSES),
    Row("HEAD", Size(None), PASSES),
    Row("a/b", SyncDir, FAILS),
    Row("a/b/x", Create, FAILS),
    Row("", SyncDir, PASSES),
    Row("a/b", MakeDir, PASSES),
    Row("a/b", MakeDir, PASSES),
    Row("a", MakeDir, PASSES),
    Row("a/b/x", Create, PASSES),
    Row("a/b/x", Append(b"hello"), PASSES),
    Row("a/b/x", Append(b" there"), PASSES),
    Row("a/b/x", SyncFile, PASSES),
    Row("a/b", SyncDir, PASSES),
    Row("a/b/x", Size(Some(11)), PASSES),
    Row("a/b", Size(None), PASSES),
    Row("a/b/x/y", Size(None), PASSES),
    Row("a/b/x", ReadAt(0, b"hello"), PASSES),
    Row("a/b/x", ReadAt(6, b"there"), PASSES),
    Row("a/b/x", ReadAt(7, b""), FAILS),
    Row("a/b/z", ReadAt(0, b""), FAILS),
    Row("a/b/z", Append(b"x"), FAILS),
    Row("a/b/z", SyncFile, FAILS),
    Row("a/b/x", MakeDir, FAILS),
    Row("a/b/x/y", MakeDir, FAILS),
    Row("a/b", Create, FAILS),
    Row("a/b", Remove, FAILS),
    Row("a/b/x", Create, PASSES),
    Row("a/b/x", Size(Some(0)), PASSES),
    Row("HEAD.tmp", Rename("HEAD"), FAILS),
    Row("HEAD.tmp", Create, PASSES),
    Row("HEAD.tmp", Rename("HEAD"), PASSES),
    Row("HEAD", Size(Some(0)), PASSES),
    Row("HEAD.tmp", Size(None), PASSES),
    Row("HEAD", Append(b"1\n"), PASSES),
    Row("HEAD.tmp", Create, PASSES),
    Row("HEAD.tmp", Append(b"12345"), PASSES),
    Row("HEAD.tmp", Rename("HEAD"), PASSES),
    Row("HEAD.tmp", Size(None), PASSES),
    Row("HEAD", ReadAt(0, b"12345"), PASSES),
    Row("HEAD", FirstUnder(None), PASSES),
    Row("HEAD/x", Remove, PASSES),
    Row("a/b/x", Remove, PASSES),
    Row("a/b/x", Remove, PASSES),
    Row("q/x", Remove, PASSES),
];

/// Over the files that `lay` lays.
static SEARCHES: [Row; 23] = [
    Row("", FirstUnder(Some("HEAD")), PASSES),
    Row("t", FirstUnder(Some("t/a.b")), PASSES),
    Row("t/a.b", Remove, PASSES),
    Row("t", FirstUnder(Some("t/a/x")), PASSES),
    Row("t/a/x", Remove, PASSES),
    Row("t/a.b", Create, PASSES),
    Row("t", FirstUnder(Some("t/a.b")), PASSES),
    Row("t/a.b", Remove, PASSES),
    Row("t", FirstUnder(Some("t/a0")), PASSES),
    Row("t/a0", Remove, PASSES),
    Row("t", FirstUnder(Some("t/folder")), PASSES),
    Row("t/folder", Remove, PASSES),
    Row("t", FirstUnder(Some("t/link")), PASSES),
    Row("t/link", ReadAt(1, b"ource"), PASSES),
    Row("t/link", Remove, PASSES),
    Row("t", FirstUnder(Some("t/lost")), PASSES),
    Row("t/lost", Size(None), PASSES),
    Row("t/lost", MakeDir, FAILS),
    Row("t/lost", Remove, PASSES),
    Row("t", FirstUnder(None), PASSES),
    Row("linked", FirstUnder(None), PASSES),
    Row("linked/a", Size(Some(6)), PASSES),
    Row("long", FirstUnder(None), FAILS),
];

/// A folder whose path in the store has 129 bytes.
const DEEP: &str = "tried/cdb/long/ten_bytes_ten_bytes_ten_bytes_ten_bytes_ten_bytes_ten_bytes_/\
    ten_bytes_ten_bytes_ten_bytes_ten_bytes_ten_bytes_ten_bytes_xyz";

/// A file beside that, whose path is short.
const SHALLOW: &str =
    "tried/cdb/long/ten_bytes_ten_bytes_ten_bytes_ten_bytes_ten_bytes_ten_bytes_/a";

/// Lays files, links and folders, the last of which may not be written to.
fn lay(rt: &impl Files) -> io::Result<()> {
    fs::create_dir(rt, "tried/in")?;
    fs::write(rt, "tried/in/a", "source")?;
    fs::create_dir_all(rt, "tried/cdb/t/a")?;
    fs::write(rt, "tried/cdb/t/a/x", "")?;
    fs::write(rt, "tried/cdb/t/a0", "")?;
    fs::write(rt, "tried/cdb/t/a.b", "")?;
    symlink(rt, "../../in/a", "tried/cdb/t/link")?;
    symlink(rt, "../../in", "tried/cdb/t/folder")?;
    symlink(rt, "nowhere", "tried/cdb/t/lost")?;
    symlink(rt, "../in", "tried/cdb/linked")?;
    symlink(rt, "cdb", "tried/behind")?;
    fs::create_dir_all(rt, DEEP)?;
    fs::write(rt, SHALLOW, "")?;
    fs::create_dir(rt, "tried/cdb/shut")?;
    fs::set_permissions(rt, "tried/cdb/shut", Permissions::from_mode(0o555))
}

fn path(rt: &impl Abort, text: &str) -> Path {
    Path::from(text).expect(rt, "it is short")
}

/// Makes the call, and tells whether it answers what is wanted.
fn make_call(disk: &mut OsDisk<&HostRuntime>, path: &Path, call: &Call) -> Result<bool, Failed> {
    match call {
        Size(want) => Ok(disk.size(path)? == *want),
        ReadAt(at, want) => {
            let mut into = [0; 5];
            disk.read_at(path, *at, &mut into)?;
            Ok(into.as_slice() == *want)
        }
        FirstUnder(want) => is_first(disk, path, want),
        MakeDir => is_done(disk.make_dir(path)),
        Create => is_done(disk.create(path)),
        Append(piece) => is_done(disk.append(path, piece)),
        SyncFile => is_done(disk.sync_file(path)),
        SyncDir => is_done(disk.sync_dir(path)),
        Rename(to) => rename(disk, path, to),
        Remove => is_done(disk.remove(path)),
    }
}

fn is_done(answer: Result<(), Failed>) -> Result<bool, Failed> {
    answer?;
    Ok(true)
}

fn is_first(
    disk: &mut OsDisk<&HostRuntime>,
    folder: &Path,
    want: &Option<&str>,
) -> Result<bool, Failed> {
    Ok(match (disk.first_under(folder)?, want) {
        (Some(found), Some(want)) => found.as_str() == *want,
        (None, None) => true,
        _ => false,
    })
}

fn rename(disk: &mut OsDisk<&HostRuntime>, from: &Path, to: &str) -> Result<bool, Failed> {
    match Path::from(to) {
        Ok(to) if folder_above(from) == folder_above(&to) && *from != to => {
            is_done(disk.rename(from, &to))
        }
        _ => Ok(false),
    }
}

/// Whether the calls answer what is wanted, each failure counted.
fn all_answer(rt: &impl Abort, disk: &mut OsDisk<&HostRuntime>, rows: &[Row]) {
    for (number, Row(text, what, passes)) in rows.iter().enumerate() {
        let before = disk.faults();
        let answer = make_call(disk, &path(rt, text), what);
        let failed = disk.faults().wrapping_sub(before);
        assert_eq!(rt; answer.unwrap_or(false), *passes, "row {number}: {text}");
        assert_eq!(rt; failed, u64::from(!*passes), "row {number}: {text}");
    }
}

/// The shelf over the files that were laid.
fn shelf_answers<R: Abort + Files>(rt: &R) -> Result<(), Fail> {
    let (file, other) = (path(rt, "a"), path(rt, "a/b"));
    let mut shelf = OsShelf::new(rt, path(rt, "tried/in"));
    let mut into = [0; 5];
    assert!(rt; shelf.size(&file)? == Some(6));
    assert!(rt; shelf.size(&other)?.is_none());
    shelf.read_at(&file, 1, &mut into)?;
    assert!(rt; into == *b"ource");
    assert!(rt; shelf.read_at(&file, 2, &mut into).is_err());
    assert!(rt; shelf.read_at(&other, 0, &mut into).is_err());
    let mut none = OsShelf::new(rt, path(rt, "tried/none"));
    assert!(rt; none.size(&file)?.is_none());
    Ok(())
}

#[test]
fn calls_over_a_real_folder(rt: HostRuntime) -> Result<(), Fail> {
    let _ = fs::remove_dir_all(&rt, "tried");
    fs::create_dir(&rt, "tried")?;
    let mut disk = OsDisk::new(&rt, path(&rt, "tried/cdb"));
    all_answer(&rt, &mut disk, &CALLS);
    lay(&rt)?;
    shelf_answers(&rt)?;
    all_answer(&rt, &mut disk, &SEARCHES);
    let mut behind = OsDisk::new(&rt, path(&rt, "tried/behind"));
    assert!(rt; is_first(&mut behind, &path(&rt, ""), &Some("HEAD"))?);

    // Whoever may write to any folder may make a file in this one too.
    let (before, may) = (
        disk.faults(),
        fs::write(&rt, "tried/cdb/shut/y", "").is_ok(),
    );
    assert_eq!(rt; disk.create(&path(&rt, "shut/x")).is_ok(), may);
    assert_eq!(rt; disk.make_dir(&path(&rt, "shut/z")).is_ok(), may);
    assert_eq!(rt; disk.faults().wrapping_sub(before), if may { 0 } else { 2 });
    fs::remove_dir_all(&rt, "tried")?;
    Ok(())
}
