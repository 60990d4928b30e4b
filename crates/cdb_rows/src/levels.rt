//! Sources of several posts and of other levels, and the tiles of every family that they give.

use crate::raster::{has_rasters, tile_after};
use crate::script::{new_disk, run};
use cdb_front::Status;
use cdb_memfiles::MemDisk;
use std::alloc::Global;
use std::test::Fail;

/// A script over a new store, the answers before its first tile, and the raster of each tile that it
/// answers; and the same of a second run, which opens that store again.
#[derive(Drop)]
struct Rasters {
    script: &'static [u8],
    begins: &'static [u8],
    rasters: &'static [&'static [u8]],
    reopened: &'static [u8],
    begins_again: &'static [u8],
    again: &'static [&'static [u8]],
}

static RASTERS: [Rasters; 5] = [
    // Four posts, and then a newer one of a coarser level, which changes nothing that is seen.
    Rasters {
        script: b"inline elev -9 46 7 1/2 1/2 2 2 30 40 10 20\npublish\nstep all\nopen\ntile 1 N46E007_D001_S001_T001_LC09_U0_R0.tif\ntile 1 N46E007_D001_S001_T001_LC10_U0_R0.tif\ntile 1 N46E007_D002_S001_T001_LC10_U0_R0.tif\ntile 1 N46E007_D002_S001_T002_LC10_U0_R0.tif\n",
        begins: b"source 1\nbegun 1 6\npublished 1\nsession 1 1\n",
        rasters: &[
            &[0x1E, 0x00, 0x28, 0x00, 0x0A, 0x00, 0x14, 0x00],
            &[0x0A, 0x00],
            &[0x0A, 0x00],
            &[0x28, 0x00],
        ],
        reopened: b"inline elev -10 46 7 1 1 1 1 99\npublish\nstep all\nopen\ntile 1 N46E007_D001_S001_T001_LC10_U0_R0.tif\ntile 1 N46E007_D002_S001_T002_LC10_U0_R0.tif\n",
        begins_again: b"source 1\nbegun 2 3\npublished 2\nsession 1 2\n",
        again: &[&[0x0A, 0x00], &[0x28, 0x00]],
    },
    // The mean of two posts, rounded to the nearest with halves up; then of two others, in the same store.
    Rasters {
        script: b"inline elev -9 46 7 1 1 1 2 0 1\npublish\nstep all\nopen\ntile 1 N46E007_D001_S001_T001_LC09_U0_R0.tif\n",
        begins: b"source 1\nbegun 1 12\npublished 1\nsession 1 1\n",
        rasters: &[&[0x00, 0x80, 0x00, 0x80, 0x00, 0x00, 0x01, 0x00]],
        reopened: b"inline elev -9 46 7 1 1 1 2 -1 0\npublish\nstep all\nopen\ntile 1 N46E007_D001_S001_T001_LC09_U0_R0.tif\n",
        begins_again: b"source 1\nbegun 2 12\npublished 2\nsession 1 2\n",
        again: &[&[0x00, 0x80, 0x00, 0x80, 0xFF, 0xFF, 0x00, 0x00]],
    },
    // Where a post around a place has no value, the place has none.
    Rasters {
        script: b"inline elev -9 46 7 1 1 2 2 30 -32768 10 20\npublish\nstep all\nopen\ntile 1 N46E007_D001_S001_T001_LC09_U0_R0.tif\n",
        begins: b"source 1\nbegun 1 24\npublished 1\nsession 1 1\n",
        rasters: &[&[0x14, 0x00, 0x00, 0x80, 0x0A, 0x00, 0x0F, 0x00]],
        reopened: b"open\ntile 1 N46E007_D001_S001_T001_LC09_U0_R0.tif\n",
        begins_again: b"session 1 1\n",
        again: &[&[0x14, 0x00, 0x00, 0x80, 0x0A, 0x00, 0x0F, 0x00]],
    },
    // Materials: the most frequent of four, and of equally frequent ones the least; then one of the coarser
    // level, which shows nowhere.
    Rasters {
        script: b"inline mat -9 46 7 1/2 1/2 2 2 3 5 5 3\npublish\nstep all\nopen\ntile 1 N46E007_D005_S001_T001_LC09_U0_R0.tif\ntile 1 N46E007_D005_S001_T001_LC10_U0_R0.tif\n",
        begins: b"source 1\nbegun 1 2\npublished 1\nsession 1 1\n",
        rasters: &[&[0x03, 0x05, 0x05, 0x03], &[0x03]],
        reopened: b"inline mat -10 46 7 1 1 1 1 8\npublish\nstep all\nopen\ntile 1 N46E007_D005_S001_T001_LC10_U0_R0.tif\n",
        begins_again: b"source 1\nbegun 2 1\npublished 2\nsession 1 2\n",
        again: &[&[0x03]],
    },
    // One of four that has a value.
    Rasters {
        script: b"inline mat -9 46 7 1/2 1/2 2 2 0 0 0 7\npublish\nstep all\nopen\ntile 1 N46E007_D005_S001_T001_LC10_U0_R0.tif\n",
        begins: b"source 1\nbegun 1 2\npublished 1\nsession 1 1\n",
        rasters: &[&[0x07]],
        reopened: b"open\ntile 1 N46E007_D005_S001_T001_LC10_U0_R0.tif\n",
        begins_again: b"session 1 1\n",
        again: &[&[0x07]],
    },
];

/// Whether a run over the disk begins with these answers and has tiles of these rasters.
fn shows(
    alloc: Global,
    disk: &mut MemDisk,
    script: &[u8],
    begins: &[u8],
    rasters: &[&[u8]],
) -> Result<bool, Fail> {
    let (status, output) = run(alloc, disk, script)?;
    Ok(match output.written().strip_prefix(begins) {
        Some(tiles) => status == Status::Done && has_rasters(tiles, rasters),
        None => false,
    })
}

#[test]
fn tiles_have_their_values(rt: HostRuntime) -> Result<(), Fail> {
    for row in RASTERS.iter() {
        let mut disk = new_disk(rt.alloc(), 0)?;
        assert!(rt; shows(rt.alloc(), &mut disk, row.script, row.begins, row.rasters)?);
        assert!(rt;
            shows(
                rt.alloc(),
                &mut disk,
                row.reopened,
                row.begins_again,
                row.again
            )?
        );
    }
    Ok(())
}

/// One post of the finest level in the north-east corner of a geocell: its script, and a second run.
const FINEST: &[u8] =
    b"inline elev 23 403726925823/8589934592 68719476735/8589934592 1 1 1 1 7\npublish\nstep all\n";

const ASK_FINEST: &[u8] =
    b"open\ntile 1 N46E007_D001_S001_T001_LC10_U0_R0.tif\ntile 1 N46E007_D002_S001_T001_LC10_U0_R0.tif\ntile 1 N46E007_D002_S001_T002_LC10_U0_R0.tif\ntile 1 N46E007_D001_S001_T001_L23_U8388607_R8388607.tif\n";

/// Whether a raster of 1,024 by 1,024 has one value alone, 7 in the last element of the north row.
fn has_seven_in_its_corner(raster: &[u8]) -> bool {
    let mut found = 0usize;
    for post in raster.chunks(2) {
        if post != [0x00, 0x80].as_slice() {
            found = found.saturating_add(1);
        }
    }
    let (_, corner) = raster.split_at(raster.len().min(2046));
    raster.len() == 2_097_152 && found == 1 && corner.starts_with([0x07, 0x00].as_slice())
}

#[test]
fn the_finest_level_is_seen_from_above(rt: HostRuntime) -> Result<(), Fail> {
    let mut disk = new_disk(rt.alloc(), 0)?;
    let (status, output) = run(rt.alloc(), &mut disk, FINEST)?;
    assert_eq!(rt; status, Status::Done);
    assert_eq!(rt;
        output.written(),
        b"source 1\nbegun 1 102\npublished 1\n".as_slice()
    );
    let (status, output) = run(rt.alloc(), &mut disk, ASK_FINEST)?;
    assert_eq!(rt; status, Status::Done);
    let tiles = output
        .written()
        .strip_prefix(b"session 1 1\n".as_slice())
        .ok_or("answers")?;
    let (coarse, rest) = tile_after(tiles).ok_or("coarse")?;
    let (least, rest) = tile_after(rest).ok_or("least")?;
    let (greatest, rest) = tile_after(rest).ok_or("greatest")?;
    let (finest, rest) = tile_after(rest).ok_or("finest")?;
    assert_eq!(rt; coarse, [0x00, 0x80].as_slice());
    assert_eq!(rt; least, [0x07, 0x00].as_slice());
    assert_eq!(rt; greatest, [0x07, 0x00].as_slice());
    assert!(rt; has_seven_in_its_corner(finest) && rest.is_empty());
    Ok(())
}

#[test]
fn publications_count_their_files(rt: HostRuntime) -> Result<(), Fail> {
    let rows: [(&[u8], &[u8]); 3] = [
        (
            b"inline elev 11 46 7 1 1 1 2 5 6\npublish\n",
            b"source 1\nbegun 1 12381\n",
        ),
        (
            b"inline elev 12 46 7 1 1 1 2 5 6\npublish\n",
            b"source 1\nrefused large 24672\n",
        ),
        // North of 50 degrees a geocell is two degrees wide, and 7 degrees east is no place of level -10.
        (
            b"inline elev -10 50 7 1 1 1 1 5\npublish\nstep all\nopen\ntile 1 N50E006_D001_S001_T001_LC10_U0_R0.tif\n",
            b"source 1\nbegun 1 0\npublished 1\nsession 1 1\nmissing\n",
        ),
    ];
    for row in rows {
        let (status, output) = run(rt.alloc(), &mut new_disk(rt.alloc(), 0)?, row.0)?;
        assert_eq!(rt; status, Status::Done);
        assert_eq!(rt; output.written(), row.1);
    }
    Ok(())
}
