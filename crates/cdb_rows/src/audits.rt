//! Stores whose files are all checked.

use crate::damage::{CHANGES, Change, make_change, small_store};
use crate::script::{check, new_disk, run};
use crate::store::path;
use cdb_files::Disk;
use cdb_memfiles::MemDisk;
use std::alloc::Global;
use std::test::Fail;

/// Scripts, and what a check writes over the store that each leaves: how many versions and files agree.
static AGREEING: [(&[u8], &[u8]); 7] = [
    (b"", b"agrees 0 0\n"),
    // The record, the source and three tiles.
    (
        b"inline elev -10 46 7 1 1 1 1 500\npublish\nstep all\n",
        b"agrees 1 5\n",
    ),
    // A publication that is left in the middle is no version.
    (
        b"inline elev -10 46 7 1 1 1 1 500\npublish\nstep all\ninline elev -10 46 7 1 1 1 1 600\npublish\nstep 8\n",
        b"agrees 1 5\n",
    ),
    (
        b"inline elev -9 46 7 1/2 1/2 2 2 30 40 10 20\npublish\nstep all\ninline elev -10 46 7 1 1 1 1 99\npublish\nstep all\n",
        b"agrees 2 13\n",
    ),
    (
        b"inline mat -9 46 7 1/2 1/2 2 2 3 5 5 3\npublish\nstep all\ninline mat -9 46 7 1/2 1/2 2 2 0 0 0 7\ninline mat -10 46 7 1 1 1 1 9\npublish\nstep all\n",
        b"agrees 2 9\n",
    ),
    // Sources of three levels, with and without values, one over the other: six of them, and twelve tiles.
    (
        b"inline elev -10 46 7 1/2 1/2 2 2 1 2 3 4\ninline elev -8 185/4 29/4 1/4 1/4 2 2 -32768 700 -50 9\ninline elev -9 46 7 1/2 1/2 2 2 30 -32768 10 20\ninline mat -10 46 7 1/2 1/2 2 2 0 5 6 7\ninline mat -8 185/4 7 1/4 1/4 2 2 8 9 9 0\ninline mat -8 93/2 29/4 1/4 1/4 2 2 11 11 12 0\npublish\nstep all\n",
        b"agrees 1 19\n",
    ),
    // No tile.
    (
        b"inline elev -10 50 7 1 1 1 1 5\npublish\nstep all\n",
        b"agrees 1 2\n",
    ),
];

#[test]
fn what_is_published_agrees(rt: HostRuntime) -> Result<(), Fail> {
    for (script, written) in AGREEING.iter() {
        let mut disk = new_disk(rt.alloc(), 0)?;
        run(rt.alloc(), &mut disk, script)?;
        let (status, output) = check(rt.alloc(), &mut disk)?;
        assert_eq!(rt; status.code(), 0);
        assert_eq!(rt; output.written(), *written);
    }
    Ok(())
}

/// The tile of the geocell at 46 degrees north and 7 east, in the first version.
const TILE: &str =
    "V00000001/Tiles/N46/E007/001_Elevation/LC/U0/N46E007_D001_S001_T001_LC10_U0_R0.tif";

/// What is written where that tile is the first file that differs.
const DIFFERS: &[u8] =
    b"cdb: differs V00000001/Tiles/N46/E007/001_Elevation/LC/U0/N46E007_D001_S001_T001_LC10_U0_R0.tif\n";

/// Changes of a store of one source of one post that its opening doesn't find.
static DIFFERING: [Change; 2] = [
    // The last byte of its first tile.
    Change {
        file: TILE,
        from: 187,
        to: 188,
        bytes: &[0x02],
        written: DIFFERS,
    },
    // The post of its source, which no tile has then.
    Change {
        file: "V00000001/Sources/S0001",
        from: 53,
        to: 54,
        bytes: &[0xF5],
        written: DIFFERS,
    },
];

/// Whether a check of the store ends with this code and writes this.
fn is_found(alloc: Global, disk: &mut MemDisk, code: u8, written: &[u8]) -> Result<bool, Fail> {
    let (status, output) = check(alloc, disk)?;
    Ok(status.code() == code && output.written() == written)
}

#[test]
fn what_was_changed_differs(rt: HostRuntime) -> Result<(), Fail> {
    for change in CHANGES.iter() {
        let mut disk = small_store(rt.alloc())?;
        make_change(rt.alloc(), &mut disk, change)?;
        assert!(rt; is_found(rt.alloc(), &mut disk, 6, change.written)?);
    }
    for change in DIFFERING.iter() {
        let mut disk = small_store(rt.alloc())?;
        make_change(rt.alloc(), &mut disk, change)?;
        assert!(rt; is_found(rt.alloc(), &mut disk, 8, change.written)?);
    }
    let mut disk = small_store(rt.alloc())?;
    disk.remove(&path(TILE)?)?;
    assert!(rt; is_found(rt.alloc(), &mut disk, 8, DIFFERS)?);
    Ok(())
}
