//! Shelves.
use super::path;
use cdb_files::{Failed, Path, Shelf};
use cdb_memfiles::MemShelf;
use std::collections::BTreeMap;
use std::test::Fail;

/// Fills `into` from the place `at`, by two calls, where the file is so long.
fn part(shelf: &mut MemShelf, path: &Path, at: u64, into: &mut [u8; 3]) -> Result<bool, Failed> {
    let Some(size) = shelf.size(path)? else {
        return Ok(false);
    };
    if size < 3 || size - 3 < at {
        return Ok(false);
    }
    shelf.read_at(path, at, into)?;
    Ok(true)
}

#[test]
fn a_shelf_fails_at_the_listed_calls(rt: HostRuntime) -> Result<(), Fail> {
    let (file, other) = (path(&rt, "a/f"), path(&rt, "a/g"));
    let mut files = BTreeMap::new(rt.alloc());
    files.insert(file, b"abcde".to_vec(rt.alloc())?)?;
    let mut fails = Vec::new(rt.alloc());
    fails.push(2)?;
    fails.push(7)?;
    let mut shelf = MemShelf::new(files, fails);
    assert!(rt; shelf.size(&file)? == Some(5));
    assert!(rt; shelf.size(&file).is_err());
    assert!(rt; shelf.size(&other)?.is_none());
    let mut into = [0; 3];
    assert!(rt; part(&mut shelf, &file, 2, &mut into)?);
    assert!(rt; into == *b"cde");
    assert!(rt; part(&mut shelf, &file, 1, &mut into).is_err());
    Ok(())
}
