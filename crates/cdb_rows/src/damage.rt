//! Stores that others have changed, and how often a run reads its store.

use crate::script::{HEAD, answers, new_disk, run};
use crate::store::{contents, path};
use cdb_files::{Disk, Path};
use cdb_memfiles::MemDisk;
use std::alloc::Global;
use std::test::Fail;

/// A file of a store, of which the bytes from one place to another are replaced.
#[derive(Drop)]
pub struct Change {
    pub file: &'static str,
    pub from: usize,
    pub to: usize,
    pub bytes: &'static [u8],
    pub written: &'static [u8],
}

const HEAD_FILE: &str = "HEAD";

const RECORD: &str = "V00000001/Metadata/record";

/// Changes of a store of one source of one post after which it isn't a store, and what is written then: the
/// version and the place at which its record, or the file that names the newest version, is off.
pub static CHANGES: [Change; 11] = [
    Change {
        file: HEAD_FILE,
        from: 0,
        to: 2,
        bytes: b"",
        written: b"cdb: not a store 0 0\n",
    },
    Change {
        file: HEAD_FILE,
        from: 0,
        to: 1,
        bytes: b"0",
        written: b"cdb: not a store 0 0\n",
    },
    Change {
        file: HEAD_FILE,
        from: 0,
        to: 0,
        bytes: b"0",
        written: b"cdb: not a store 0 0\n",
    },
    Change {
        file: HEAD_FILE,
        from: 0,
        to: 1,
        bytes: b"4097",
        written: b"cdb: not a store 0 0\n",
    },
    Change {
        file: HEAD_FILE,
        from: 1,
        to: 1,
        bytes: b" ",
        written: b"cdb: not a store 0 0\n",
    },
    Change {
        file: HEAD_FILE,
        from: 1,
        to: 2,
        bytes: b"",
        written: b"cdb: not a store 0 0\n",
    },
    // The second version has no record.
    Change {
        file: HEAD_FILE,
        from: 0,
        to: 1,
        bytes: b"2",
        written: b"cdb: not a store 2 0\n",
    },
    // The last byte is gone.
    Change {
        file: RECORD,
        from: 111,
        to: 112,
        bytes: b"",
        written: b"cdb: not a store 1 96\n",
    },
    // The second and the third tile are exchanged.
    Change {
        file: RECORD,
        from: 80,
        to: 112,
        bytes: &[
            0x03, 0xF6, 0x2E, 0x00, 0x00, 0x07, 0x00, 0x00, 0x00, 0x00, 0x00, 0x00, 0x00, 0x00,
            0x00, 0x00, 0x02, 0xF6, 0x2E, 0x00, 0x00, 0x07, 0x00, 0x00, 0x00, 0x00, 0x00, 0x00,
            0x00, 0x00, 0x00, 0x00,
        ],
        written: b"cdb: not a store 1 96\n",
    },
    Change {
        file: RECORD,
        from: 112,
        to: 112,
        bytes: &[0],
        written: b"cdb: not a store 1 112\n",
    },
    // It is the record of the second version.
    Change {
        file: RECORD,
        from: 11,
        to: 12,
        bytes: &[2],
        written: b"cdb: not a store 1 8\n",
    },
];

/// A disk with a store of one source of one post.
pub fn small_store(alloc: Global) -> Result<MemDisk, Fail> {
    let mut disk = new_disk(alloc, 0)?;
    run(
        alloc,
        &mut disk,
        b"inline elev -10 46 7 1 1 1 1 500\npublish\nstep all\n",
    )?;
    Ok(disk)
}

/// Bytes of which those from one place to another are replaced.
fn replace(alloc: Global, old: &[u8], change: &Change) -> Result<Vec<u8>, Fail> {
    let (first, _) = old.split_at(change.from.min(old.len()));
    let (_, last) = old.split_at(change.to.min(old.len()));
    let mut bytes = Vec::from_slice(alloc, first)?;
    bytes.extend_from_slice(change.bytes)?;
    bytes.extend_from_slice(last)?;
    Ok(bytes)
}

/// Makes a change in the store of a disk.
pub fn make_change(alloc: Global, disk: &mut MemDisk, change: &Change) -> Result<(), Fail> {
    let file = path(change.file)?;
    let old = contents(alloc, disk, &file)?.ok_or("the file isn't there")?;
    let bytes = replace(alloc, old.as_slice(), change)?;
    disk.remove(&file)?;
    write(disk, &file, bytes.as_slice())
}

/// Makes a file of these bytes in a folder that is there.
fn write(disk: &mut MemDisk, path: &Path, bytes: &[u8]) -> Result<(), Fail> {
    disk.create(path)?;
    if disk.size(path)?.is_some() {
        disk.append(path, bytes)?;
    }
    Ok(())
}

#[test]
fn changed_stores_are_no_stores(rt: HostRuntime) -> Result<(), Fail> {
    for change in CHANGES.iter() {
        let mut disk = small_store(rt.alloc())?;
        make_change(rt.alloc(), &mut disk, change)?;
        let (status, output) = run(rt.alloc(), &mut disk, b"versions\n")?;
        assert_eq!(rt; status.code(), 6);
        assert_eq!(rt; output.written(), change.written);
    }
    Ok(())
}

#[test]
fn a_tile_that_is_gone_is_damaged(rt: HostRuntime) -> Result<(), Fail> {
    let mut disk = small_store(rt.alloc())?;
    disk.remove(&path(
        "V00000001/Tiles/N46/E007/001_Elevation/LC/U0/N46E007_D001_S001_T001_LC10_U0_R0.tif",
    )?)?;
    let asked: [&[u8]; 3] = [
        b"session 1 1\nrefused damaged 188 none\ntile 188\n",
        &HEAD,
        &[0xF4, 0x01],
    ];
    let script =
        b"open\ntile 1 N46E007_D001_S001_T001_LC10_U0_R0.tif\ntile 1 N46E007_D002_S001_T002_LC10_U0_R0.tif\n";
    assert!(rt; answers(rt.alloc(), &mut disk, script, 4096, &asked)?);
    Ok(())
}

/// Scripts over a store, and how many reads each makes beside those of its opening.
static READS: [(&[u8], &[u8], u64); 2] = [
    // The second answer comes from memory.
    (
        b"inline elev -10 46 7 1 1 1 1 500\npublish\nstep all\n",
        b"open\ntile 1 N46E007_D001_S001_T001_LC10_U0_R0.tif\ntile 1 N46E007_D001_S001_T001_LC10_U0_R0.tif\n",
        1,
    ),
    // Eight other tiles stand between two requests for one, and seven are kept.
    (
        b"inline elev 23 403726925823/8589934592 68719476735/8589934592 1 1 1 1 7\npublish\nstep all\n",
        b"open\ntile 1 N46E007_D001_S001_T001_LC10_U0_R0.tif\ntile 1 N46E007_D001_S001_T001_LC09_U0_R0.tif\ntile 1 N46E007_D001_S001_T001_LC08_U0_R0.tif\ntile 1 N46E007_D001_S001_T001_LC07_U0_R0.tif\ntile 1 N46E007_D001_S001_T001_LC06_U0_R0.tif\ntile 1 N46E007_D001_S001_T001_LC05_U0_R0.tif\ntile 1 N46E007_D001_S001_T001_LC04_U0_R0.tif\ntile 1 N46E007_D001_S001_T001_LC03_U0_R0.tif\ntile 1 N46E007_D001_S001_T001_LC02_U0_R0.tif\ntile 1 N46E007_D001_S001_T001_LC10_U0_R0.tif\n",
        10,
    ),
];

/// How many reads a run makes.
fn reads_of(alloc: Global, disk: &mut MemDisk, script: &[u8]) -> Result<u64, Fail> {
    let before = disk.reads();
    run(alloc, disk, script)?;
    Ok(disk.reads().saturating_sub(before))
}

#[test]
fn tiles_that_are_kept_are_not_read(rt: HostRuntime) -> Result<(), Fail> {
    for (publication, script, reads) in READS.iter() {
        let mut disk = new_disk(rt.alloc(), 0)?;
        run(rt.alloc(), &mut disk, publication)?;
        let opening = reads_of(rt.alloc(), &mut disk, b"")?;
        assert_eq!(rt;
            reads_of(rt.alloc(), &mut disk, script)?,
            opening.saturating_add(*reads)
        );
    }
    Ok(())
}
