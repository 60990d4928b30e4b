//! The store of one source of one post, byte for byte.

use crate::script::{HEAD, new_disk, run};
use cdb_files::{Disk, Path, ReadSize, read_whole};
use cdb_memfiles::MemDisk;
use std::alloc::Global;
use std::test::Fail;

/// The source file: its first eight bytes, its head, and its post.
const SOURCE: [u8; 54] = [
    0x43, 0x44, 0x42, 0x53, 0x52, 0x43, 0x31, 0x0A, 0x01, 0xF6, 0x00, 0x00, 0x00, 0x00, 0x00, 0x01,
    0x00, 0x00, 0x00, 0x01, 0x00, 0x05, 0xAF, 0x78, 0x00, 0x00, 0x00, 0x00, 0x00, 0x00, 0xDD, 0x7C,
    0x00, 0x00, 0x00, 0x00, 0x00, 0x00, 0x1F, 0xA4, 0x00, 0x00, 0x00, 0x00, 0x00, 0x00, 0x1F, 0xA4,
    0x00, 0x00, 0x00, 0x00, 0x01, 0xF4,
];

/// The record: its first eight bytes, the version, one source, three tiles, the head and the tiles.
const RECORD: [u8; 112] = [
    0x43, 0x44, 0x42, 0x52, 0x45, 0x43, 0x31, 0x0A, 0x00, 0x00, 0x00, 0x01, 0x00, 0x00, 0x00, 0x01,
    0x00, 0x00, 0x00, 0x03, 0x01, 0xF6, 0x00, 0x00, 0x00, 0x00, 0x00, 0x01, 0x00, 0x00, 0x00, 0x01,
    0x00, 0x05, 0xAF, 0x78, 0x00, 0x00, 0x00, 0x00, 0x00, 0x00, 0xDD, 0x7C, 0x00, 0x00, 0x00, 0x00,
    0x00, 0x00, 0x1F, 0xA4, 0x00, 0x00, 0x00, 0x00, 0x00, 0x00, 0x1F, 0xA4, 0x00, 0x00, 0x00, 0x00,
    0x01, 0xF6, 0x2E, 0x00, 0x00, 0x07, 0x00, 0x00, 0x00, 0x00, 0x00, 0x00, 0x00, 0x00, 0x00, 0x00,
    0x02, 0xF6, 0x2E, 0x00, 0x00, 0x07, 0x00, 0x00, 0x00, 0x00, 0x00, 0x00, 0x00, 0x00, 0x00, 0x00,
    0x03, 0xF6, 0x2E, 0x00, 0x00, 0x07, 0x00, 0x00, 0x00, 0x00, 0x00, 0x00, 0x00, 0x00, 0x00, 0x00,
];

/// The files of the three tiles, under the folder of a version.
const TILES: [&str; 3] = [
    "Tiles/N46/E007/001_Elevation/LC/U0/N46E007_D001_S001_T001_LC10_U0_R0.tif",
    "Tiles/N46/E007/002_MinMaxElevation/LC/U0/N46E007_D002_S001_T001_LC10_U0_R0.tif",
    "Tiles/N46/E007/002_MinMaxElevation/LC/U0/N46E007_D002_S001_T002_LC10_U0_R0.tif",
];

/// The path with this text.
pub fn path(text: &str) -> Result<Path, Fail> {
    let mut path = Path::new();
    path.try_push_str(text)?;
    Ok(path)
}

/// The bytes of a file, or `None` where there is none.
pub fn contents(alloc: Global, disk: &mut MemDisk, path: &Path) -> Result<Option<Vec<u8>>, Fail> {
    let Some(length) = disk.size(path)? else {
        return Ok(None);
    };
    let mut bytes = vec![in alloc; 0u8; length as usize]?;
    let read = read_whole(disk, path, &mut bytes)?;
    Ok(if read == ReadSize::Read {
        Some(bytes)
    } else {
        None
    })
}

/// Whether the file has these bytes.
fn has(alloc: Global, disk: &mut MemDisk, text: &str, want: &[u8]) -> Result<bool, Fail> {
    let found = contents(alloc, disk, &path(text)?)?;
    Ok(match found {
        Some(bytes) => bytes.as_slice() == want,
        None => false,
    })
}

/// Whether the version's three tiles are these files, each with this value.
fn has_tiles(
    alloc: Global,
    disk: &mut MemDisk,
    version: &str,
    value: [u8; 2],
) -> Result<bool, Fail> {
    for tile in &TILES {
        let mut file = path(version)?;
        file.try_push_str("/")?;
        file.try_push_str(tile)?;
        let Some(bytes) = contents(alloc, disk, &file)? else {
            return Ok(false);
        };
        let (head, raster) = bytes.as_slice().split_at(bytes.len().min(186));
        if head != &HEAD[..] || raster != &value[..] {
            return Ok(false);
        }
    }
    Ok(true)
}

/// How many files are under a folder, of which there are fewer than 100. They are removed.
fn clear(disk: &mut MemDisk, folder: &Path) -> Result<usize, Fail> {
    for count in 0..100 {
        let Some(path) = disk.first_under(folder)? else {
            return Ok(count);
        };
        disk.remove(&path)?;
    }
    Err("too many files".into())
}

#[test]
fn a_store_has_its_bytes(rt: HostRuntime) -> Result<(), Fail> {
    let mut disk = new_disk(rt.alloc(), 0)?;
    run(
        rt.alloc(),
        &mut disk,
        b"inline elev -10 46 7 1 1 1 1 500\npublish\nstep all\n",
    )?;
    assert!(rt; has(rt.alloc(), &mut disk, "HEAD", b"1\n")?);
    assert!(rt; has(rt.alloc(), &mut disk, "V00000001/Metadata/record", &RECORD)?);
    assert!(rt; has(rt.alloc(), &mut disk, "V00000001/Sources/S0001", &SOURCE)?);
    assert!(rt; has_tiles(rt.alloc(), &mut disk, "V00000001", [0xF4, 0x01])?);
    run(
        rt.alloc(),
        &mut disk,
        b"inline elev -10 46 7 1 1 1 1 600\npublish\nstep all\n",
    )?;
    assert!(rt; has(rt.alloc(), &mut disk, "HEAD", b"2\n")?);
    assert!(rt; has_tiles(rt.alloc(), &mut disk, "V00000001", [0xF4, 0x01])?);
    assert!(rt; has_tiles(rt.alloc(), &mut disk, "V00000002", [0x58, 0x02])?);
    // The record and a source of each version, three tiles of each, and the head.
    assert!(rt; clear(&mut disk, &Path::new())? == 11);
    Ok(())
}

/// Publications, and how many files the last version has: those of its tiles, one source and the record.
static COUNTS: [(&[u8], &str, usize); 4] = [
    (
        b"inline elev -9 46 7 1/2 1/2 2 2 30 40 10 20\npublish\nstep all\n",
        "V00000001",
        8,
    ),
    (
        b"inline elev -9 46 7 1/2 1/2 2 2 30 40 10 20\npublish\nstep all\ninline elev -10 46 7 1 1 1 1 99\npublish\nstep all\n",
        "V00000002",
        5,
    ),
    (
        b"inline mat -9 46 7 1/2 1/2 2 2 3 5 5 3\npublish\nstep all\n",
        "V00000001",
        4,
    ),
    (
        b"inline elev -10 50 7 1 1 1 1 5\npublish\nstep all\n",
        "V00000001",
        2,
    ),
];

#[test]
fn a_version_has_its_files_alone(rt: HostRuntime) -> Result<(), Fail> {
    for (script, version, files) in COUNTS.iter() {
        let mut disk = new_disk(rt.alloc(), 0)?;
        run(rt.alloc(), &mut disk, script)?;
        assert_eq!(rt; clear(&mut disk, &path(version)?)?, *files);
    }
    Ok(())
}
