//! Searches for the first file under a folder.
use super::{path, write};
use cdb_files::{Disk, Path};
use cdb_memfiles::MemDisk;
use std::process::Abort;
use std::test::Fail;

/// Whether the first file under the folder is this one.
fn is_first(
    rt: &impl Abort,
    disk: &mut MemDisk,
    folder: &str,
    want: Option<&str>,
) -> Result<bool, Fail> {
    let found = disk.first_under(&path(rt, folder))?;
    Ok(match (&found, want) {
        (Some(found), Some(want)) => found.as_str() == want,
        (None, None) => true,
        _ => false,
    })
}

#[test]
fn the_first_file_under_a_folder_is_by_the_bytes_of_its_path(rt: HostRuntime) -> Result<(), Fail> {
    let mut disk = MemDisk::new(rt.alloc(), Vec::new(rt.alloc()));
    for text in ["ab", "a/b/d/e", "a/b/c", "a/b.x", "B", "a/b/d/f"] {
        write(&mut disk, &path(&rt, text), b"x")?;
    }
    let rows = [
        ("", Some("B")),
        ("a", Some("a/b.x")),
        ("a/b", Some("a/b/c")),
        ("a/b/d", Some("a/b/d/e")),
        ("ab", None),
        ("B", None),
        ("A", None),
        ("b", None),
    ];
    for (folder, want) in rows {
        assert!(rt; is_first(&rt, &mut disk, folder, want)?);
    }
    Ok(())
}

#[test]
fn no_file_is_under_a_folder_of_the_longest_path(rt: HostRuntime) -> Result<(), Fail> {
    let mut disk = MemDisk::new(rt.alloc(), Vec::new(rt.alloc()));
    let mut long = Path::new();
    for _ in 0..128 {
        let _ = long.try_push('a');
    }
    write(&mut disk, &long, b"x")?;
    assert!(rt; disk.first_under(&long)?.is_none());
    Ok(())
}
