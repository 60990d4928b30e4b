//! Stores of one version that are checked.
use crate::stores::{HEAD, first_tile, put};
use cdb_chain::Chain;
use cdb_check::{Agreed, CheckError, check};
use cdb_files::{Disk, Path};
use cdb_grid::{Family, Tile};
use cdb_memfiles::MemDisk;
use cdb_names::{record_path, source_path, write_path};
use cdb_tiff_write::head;
use std::alloc::Global;
use std::test::Fail;

/// The entry of a record for the tile of level -10 at N46E007, behind the number of its family.
static ENTRY: [u8; 15] = [0xF6, 46, 0, 0, 7, 0, 0, 0, 0, 0, 0, 0, 0, 0, 0];

/// A file of version 1: its record, its source, or its tile of a family.
#[derive(Clone, Copy)]
enum Which {
    Record,
    Source,
    Tile(Family),
}

static FILES: [Which; 5] = [
    Which::Record,
    Which::Source,
    Which::Tile(Family::Elev),
    Which::Tile(Family::Low),
    Which::Tile(Family::High),
];

/// What becomes of a file.
#[derive(Clone, Copy)]
enum Change {
    /// It is taken away.
    Gone,
    /// Its last byte is taken away.
    Shorter,
    /// One bit of the byte at this place is turned.
    Byte(usize),
}

/// A file, what becomes of it, and the file of which the check tells then.
static CHANGES: [(Which, Change, Which); 10] = [
    (Which::Record, Change::Gone, Which::Record),
    (Which::Record, Change::Byte(111), Which::Record),
    (Which::Source, Change::Gone, Which::Source),
    (Which::Source, Change::Shorter, Which::Source),
    (Which::Source, Change::Byte(0), Which::Source),
    (Which::Source, Change::Byte(31), Which::Source),
    (Which::Source, Change::Byte(53), Which::Tile(Family::Elev)),
    (
        Which::Tile(Family::Elev),
        Change::Byte(186),
        Which::Tile(Family::Elev),
    ),
    (
        Which::Tile(Family::Low),
        Change::Shorter,
        Which::Tile(Family::Low),
    ),
    (
        Which::Tile(Family::High),
        Change::Gone,
        Which::Tile(Family::High),
    ),
];

fn tile(family: Family) -> Result<Tile, Fail> {
    Ok(first_tile(family, -10).ok_or("tile")?)
}

fn path_of(which: Which) -> Result<Path, Fail> {
    match which {
        Which::Record => Ok(record_path(1)),
        Which::Source => Ok(source_path(1, 1)),
        Which::Tile(family) => Ok(write_path(1, &tile(family)?)),
    }
}

/// The record of the three tiles that the source touches.
fn record(alloc: Global) -> Result<Vec<u8>, Fail> {
    let mut bytes = Vec::new(alloc);
    bytes.extend_from_slice(b"CDBREC1\n\0\0\0\x01\0\0\0\x01\0\0\0\x03")?;
    bytes.extend_from_slice(&HEAD)?;
    for family in 1..4 {
        bytes.push(family)?;
        bytes.extend_from_slice(&ENTRY)?;
    }
    Ok(bytes)
}

/// The file of the source, whose post is 500.
fn source(alloc: Global) -> Result<Vec<u8>, Fail> {
    let mut bytes = Vec::new(alloc);
    bytes.extend_from_slice(b"CDBSRC1\n")?;
    bytes.extend_from_slice(&HEAD)?;
    bytes.extend_from_slice(&[0x01, 0xF4])?;
    Ok(bytes)
}

fn bytes_of(alloc: Global, which: Which) -> Result<Vec<u8>, Fail> {
    match which {
        Which::Record => record(alloc),
        Which::Source => source(alloc),
        Which::Tile(_) => {
            let mut bytes = Vec::new(alloc);
            bytes.extend_from_slice(&head(1, 16))?;
            bytes.extend_from_slice(&[0xF4, 0x01])?;
            Ok(bytes)
        }
    }
}

/// A store of one version.
fn store(alloc: Global) -> Result<MemDisk, Fail> {
    let mut disk = MemDisk::new(alloc, Vec::new(alloc));
    for which in FILES.iter() {
        put(&mut disk, &path_of(*which)?, &bytes_of(alloc, *which)?)?;
    }
    Ok(disk)
}

fn chain(alloc: Global, disk: &mut MemDisk) -> Result<Chain, Fail> {
    match Chain::open(alloc, disk, 1) {
        Ok(chain) => Ok(chain),
        Err(_) => Err("chain".into()),
    }
}

/// Puts another file in the place of one.
fn make_change(
    alloc: Global,
    disk: &mut MemDisk,
    which: Which,
    change: Change,
) -> Result<(), Fail> {
    let path = path_of(which)?;
    let mut bytes = bytes_of(alloc, which)?;
    disk.remove(&path)?;
    match change {
        Change::Gone => return Ok(()),
        Change::Shorter => {
            bytes.pop();
        }
        Change::Byte(at) => {
            let byte = bytes.as_mut_slice().get_mut(at).ok_or("byte")?;
            *byte ^= 1;
        }
    }
    put(disk, &path, &bytes)
}

/// Whether the check of a changed store tells of this file.
fn tells(alloc: Global, row: &(Which, Change, Which)) -> Result<bool, Fail> {
    let mut disk = store(alloc)?;
    let chain = chain(alloc, &mut disk)?;
    make_change(alloc, &mut disk, row.0, row.1)?;
    let path = path_of(row.2)?;
    Ok(check(alloc, &chain, &mut disk) == Err(CheckError::Differs { path }))
}

#[test]
fn whole_store(rt: HostRuntime) -> Result<(), Fail> {
    let mut disk = store(rt.alloc())?;
    let chain = chain(rt.alloc(), &mut disk)?;
    let agreed = Agreed {
        versions: 1,
        files: 5,
    };
    assert_eq!(rt; check(rt.alloc(), &chain, &mut disk), Ok(agreed));
    Ok(())
}

#[test]
fn changed_stores(rt: HostRuntime) -> Result<(), Fail> {
    for row in CHANGES.iter() {
        assert!(rt; tells(rt.alloc(), row)?);
    }
    Ok(())
}
