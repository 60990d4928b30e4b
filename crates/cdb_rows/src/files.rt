//! Sources from files of the shelf.

use crate::raster::{has_rasters, tile_after};
use crate::script::{BY_HAND, new_disk, run_with};
use crate::tiff::{BIG, LITTLE, change, large};
use cdb_files::Path;
use cdb_front::{MemOutput, Status};
use cdb_memfiles::MemShelf;
use std::alloc::Global;
use std::collections::BTreeMap;
use std::test::Fail;

/// The answers to a script over a shelf with one file, of which the call of this number fails.
fn answers(
    alloc: Global,
    file: Vec<u8>,
    fails: u64,
    script: &[u8],
) -> Result<(Status, MemOutput), Fail> {
    let mut path = Path::new();
    path.try_push_str("a.tif")?;
    let mut files = BTreeMap::new(alloc);
    files.insert(path, file)?;
    let mut calls = Vec::new(alloc);
    calls.push(fails)?;
    let mut shelf = MemShelf::new(files, calls);
    run_with(
        alloc,
        &BY_HAND,
        &mut new_disk(alloc, 0)?,
        &mut shelf,
        script,
    )
}

const FOUR_POSTS: &[u8] =
    b"source elev -9 46 7 1/2 1/2 -32768 a.tif\npublish\nstep all\nopen\ntile 1 N46E007_D001_S001_T001_LC09_U0_R0.tif\ntile 1 N46E007_D001_S001_T001_LC10_U0_R0.tif\ntile 1 N46E007_D002_S001_T001_LC10_U0_R0.tif\ntile 1 N46E007_D002_S001_T002_LC10_U0_R0.tif\n";

#[test]
fn a_file_is_a_source(rt: HostRuntime) -> Result<(), Fail> {
    let rasters: [&[u8]; 4] = [
        &[0x1E, 0x00, 0x28, 0x00, 0x0A, 0x00, 0x14, 0x00],
        &[0x0A, 0x00],
        &[0x0A, 0x00],
        &[0x28, 0x00],
    ];
    for file in [LITTLE, BIG] {
        let bytes = Vec::from_slice(rt.alloc(), file)?;
        let (status, output) = answers(rt.alloc(), bytes, 0, FOUR_POSTS)?;
        assert_eq!(rt; status, Status::Done);
        assert!(rt; has_rasters(output.written(), &rasters));
    }
    // The number of the line stands for no value: 20 is the south-east post.
    let bytes = Vec::from_slice(rt.alloc(), LITTLE)?;
    let (_, output) = answers(
        rt.alloc(),
        bytes,
        0,
        b"source elev -9 46 7 1/2 1/2 20 a.tif\npublish\nstep all\nopen\ntile 1 N46E007_D001_S001_T001_LC09_U0_R0.tif\n",
    )?;
    let without: [&[u8]; 1] = [&[0x1E, 0x00, 0x28, 0x00, 0x0A, 0x00, 0x00, 0x80]];
    assert!(rt; has_rasters(output.written(), &without));
    Ok(())
}

/// The worked file with another byte at one place, and the answer.
static CHANGED: [(usize, u8, &[u8]); 12] = [
    (2, 0x2b, b"refused input bigtiff\n"),
    // The second tag is the first one again.
    (22, 0, b"refused input order\n"),
    (12, 5, b"refused input kind\n"),
    // A tag of tiles in place of the one of the planes.
    (118, 0x42, b"refused input tiled\n"),
    (70, 0x12, b"refused input absent 273\n"),
    (54, 5, b"refused input compressed\n"),
    (90, 3, b"refused input samples\n"),
    (138, 3, b"refused input float\n"),
    (42, 12, b"refused input bits\n"),
    (18, 0, b"refused input size\n"),
    // Two rows per strip, of which there are two.
    (102, 2, b"refused input strips\n"),
    (198, 0xd7, b"refused input short\n"),
];

/// How many bytes are left of the worked file, and the answer.
static CUT: [(usize, &[u8]); 3] = [
    (7, b"refused input nottiff\n"),
    (193, b"refused input directory\n"),
    (217, b"refused input short\n"),
];

/// The line of a source of four posts.
const SOURCE: &[u8] = b"source elev -9 46 7 1/2 1/2 -32768 a.tif\n";

/// Whether the line of a source is answered so where its file has these bytes.
fn is_refused(alloc: Global, file: Vec<u8>, answer: &[u8]) -> Result<bool, Fail> {
    let (status, output) = answers(alloc, file, 0, SOURCE)?;
    Ok(status == Status::Done && output.written() == answer)
}

#[test]
fn changed_files_are_refused(rt: HostRuntime) -> Result<(), Fail> {
    for (place, byte, answer) in CHANGED.iter() {
        let file = change(rt.alloc(), *place, *byte)?;
        assert!(rt; is_refused(rt.alloc(), file, answer)?);
    }
    for (length, answer) in CUT.iter() {
        let mut file = Vec::from_slice(rt.alloc(), LITTLE)?;
        file.truncate(*length);
        assert!(rt; is_refused(rt.alloc(), file, answer)?);
    }
    Ok(())
}

/// A file that isn't there, and numbers that are out of range, which come last.
#[test]
fn orders_with_files_are_refused(rt: HostRuntime) -> Result<(), Fail> {
    let whole = Vec::from_slice(rt.alloc(), LITTLE)?;
    let (_, output) = answers(
        rt.alloc(),
        whole,
        0,
        b"source elev 24 46 7 1/2 1/2 -32768 b.tif\nsource elev 24 46 7 1/2 1/2 -32768 a.tif\nsource elev -9 46 7 1/7 1/2 -32768 a.tif\nsource elev -9 90 7 1/2 1/2 -32768 a.tif\n",
    )?;
    assert_eq!(rt;
        output.written(),
        b"refused absent\nrefused range\nrefused range\nrefused range\n".as_slice()
    );
    Ok(())
}

#[test]
fn a_failed_read_leaves_the_store(rt: HostRuntime) -> Result<(), Fail> {
    // Its length is the first call, and its bytes are the second.
    for call in 1..3 {
        let whole = Vec::from_slice(rt.alloc(), LITTLE)?;
        let (status, output) = answers(
            rt.alloc(),
            whole,
            call,
            b"source elev -9 46 7 1/2 1/2 -32768 a.tif\nsource elev -9 46 7 1/2 1/2 -32768 a.tif\n",
        )?;
        assert_eq!(rt; status, Status::Done);
        assert_eq!(rt; output.written(), b"refused shelf\nsource 1\n".as_slice());
    }
    let big = vec![in rt.alloc(); 0u8; 67_108_865]?;
    let (_, output) = answers(
        rt.alloc(),
        big,
        0,
        b"source elev -9 46 7 1/2 1/2 -32768 a.tif\n",
    )?;
    assert_eq!(rt; output.written(), b"refused input big\n".as_slice());
    Ok(())
}

/// The post of a row of a tile at level 1 over posts at 3,600 to a degree, each the number of its row.
fn interpolate(row: usize) -> i16 {
    ((7200 * (row.min(1023) as i64) + 2048) / 4096) as i16
}

/// Whether a raster of 1,024 by 1,024, the north row first, has these posts in all its columns.
fn has_rows(raster: &[u8]) -> bool {
    for (from_north, row) in raster.chunks(2048).enumerate() {
        let post = interpolate(1023 - from_north.min(1023)).to_le_bytes();
        for found in row.chunks(2) {
            if found != post.as_slice() {
                return false;
            }
        }
    }
    raster.len() == 2_097_152
}

#[test]
fn a_large_file_is_sampled(rt: HostRuntime) -> Result<(), Fail> {
    let (status, output) = answers(
        rt.alloc(),
        large(rt.alloc())?,
        0,
        b"source elev 1 47 11 1/3600 1/3600 -32768 a.tif\npublish\nstep all\nopen\ntile 1 N47E011_D001_S001_T001_L01_U0_R0.tif\n",
    )?;
    assert_eq!(rt; status, Status::Done);
    let tiles = output
        .written()
        .strip_prefix(b"source 1\nbegun 1 159\npublished 1\nsession 1 1\n".as_slice())
        .ok_or("answers")?;
    let (raster, rest) = tile_after(tiles).ok_or("raster")?;
    assert!(rt; has_rows(raster));
    assert!(rt; rest.is_empty());
    Ok(())
}
