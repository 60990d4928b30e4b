//! A single call of a device that fails.

use crate::script::{BY_HAND, HEAD, PIECES, is_joined, new_disk, run_in_pieces, run_over};
use crate::store::path;
use crate::tiff::LITTLE;
use cdb_front::{MemInput, MemOutput, Status};
use cdb_memfiles::MemShelf;
use std::alloc::Global;
use std::collections::BTreeMap;
use std::test::Fail;

const FIRST: &[u8] =
    b"inline elev -10 46 7 1 1 1 1 500\npublish\nstep all\nopen\ntile 1 N46E007_D001_S001_T001_LC10_U0_R0.tif\n";

/// Runs a script over an empty disk, where the read and the write of these numbers fail.
fn run(
    alloc: Global,
    script: &[u8],
    piece: usize,
    read: u64,
    write: u64,
) -> Result<(Status, MemOutput), Fail> {
    run_in_pieces(alloc, &mut new_disk(alloc, 0)?, script, piece, read, write)
}

/// Whether a run whose read of this number fails wrote the first of the whole answers, and then the
/// line of its status.
fn is_cut_at_read(alloc: Global, piece: usize, read: u64, whole: &[u8]) -> Result<bool, Fail> {
    let (status, output) = run(alloc, FIRST, piece, read, 0)?;
    match output
        .written()
        .strip_suffix(b"cdb: input fault\n".as_slice())
    {
        Some(answers) => Ok(status == Status::InputFault && whole.starts_with(answers)),
        None => Ok(false),
    }
}

/// Whether a run whose write of this number fails wrote a beginning of the whole answers.
fn is_cut_at_write(alloc: Global, piece: usize, write: u64, whole: &[u8]) -> Result<bool, Fail> {
    let (status, output) = run(alloc, FIRST, piece, 0, write)?;
    let written = output.written();
    Ok(status == Status::OutputFault && whole.starts_with(written) && written.len() < whole.len())
}

#[test]
fn failed_reads_end_a_run(rt: HostRuntime) -> Result<(), Fail> {
    for piece in PIECES {
        let (_, whole) = run(rt.alloc(), FIRST, piece, 0, 0)?;
        // One read more than there are pieces: the last one finds the end.
        let reads = FIRST.len().div_ceil(piece.max(1)) as u64 + 1;
        for read in 1..reads + 1 {
            assert!(rt; is_cut_at_read(rt.alloc(), piece, read, whole.written())?);
        }
        assert!(rt; !is_cut_at_read(rt.alloc(), piece, reads + 1, whole.written())?);
    }
    let (status, output) = run(rt.alloc(), b"open\nclo", 3, 3, 0)?;
    assert_eq!(rt; status, Status::InputFault);
    assert_eq!(rt;
        output.written(),
        b"session 1 0\ncdb: input fault\n".as_slice()
    );
    Ok(())
}

#[test]
fn failed_writes_end_a_run(rt: HostRuntime) -> Result<(), Fail> {
    for piece in PIECES {
        let (_, whole) = run(rt.alloc(), FIRST, piece, 0, 0)?;
        // Five answers take five writes, and the tile's bytes a sixth.
        for write in 1..7 {
            assert!(rt; is_cut_at_write(rt.alloc(), piece, write, whole.written())?);
        }
        assert!(rt; !is_cut_at_write(rt.alloc(), piece, 7, whole.written())?);
    }
    Ok(())
}

/// The numbers of the calls that fail, one of each device and 0 where none does; a script, what is written
/// in answer to it, and how the run ends.
#[derive(Drop)]
struct Failing {
    disk: u64,
    shelf: u64,
    read: u64,
    write: u64,
    script: &'static [u8],
    written: &'static [&'static [u8]],
    code: u8,
}

static FAILINGS: [Failing; 5] = [
    // The first read of the input.
    Failing {
        disk: 0,
        shelf: 0,
        read: 1,
        write: 0,
        script: b"versions\n",
        written: &[b"cdb: input fault\n"],
        code: 3,
    },
    // The second answer.
    Failing {
        disk: 0,
        shelf: 0,
        read: 0,
        write: 2,
        script: b"versions\nopen\n",
        written: &[b"versions 0\n"],
        code: 4,
    },
    // The disk in opening.
    Failing {
        disk: 1,
        shelf: 0,
        read: 0,
        write: 0,
        script: b"versions\n",
        written: &[b"cdb: store fault\n"],
        code: 5,
    },
    // The shelf; the same line again is taken.
    Failing {
        disk: 0,
        shelf: 2,
        read: 0,
        write: 0,
        script: b"source elev -9 46 7 1/2 1/2 -32768 a.tif\nsource elev -9 46 7 1/2 1/2 -32768 a.tif\n",
        written: &[b"refused shelf\nsource 1\n"],
        code: 0,
    },
    // The disk in the request for a tile; the same request again is answered.
    Failing {
        disk: TILE_CALL,
        shelf: 0,
        read: 0,
        write: 0,
        script: b"inline elev -10 46 7 1 1 1 1 500\npublish\nstep all\nopen\ntile 1 N46E007_D001_S001_T001_LC10_U0_R0.tif\ntile 1 N46E007_D001_S001_T001_LC10_U0_R0.tif\n",
        written: &[
            b"source 1\nbegun 1 3\npublished 1\nsession 1 1\nrefused fault\ntile 188\n",
            &HEAD,
            &[0xF4, 0x01],
        ],
        code: 0,
    },
];

/// The first call of the disk behind the forty of its opening and of the publication of one source of one post.
const TILE_CALL: u64 = 41;

/// A shelf with the worked file, whose call of this number fails.
fn shelf_of(alloc: Global, fails: u64) -> Result<MemShelf, Fail> {
    let mut files = BTreeMap::new(alloc);
    files.insert(path("a.tif")?, Vec::from_slice(alloc, LITTLE)?)?;
    let mut calls = Vec::new(alloc);
    calls.push(fails)?;
    Ok(MemShelf::new(files, calls))
}

/// Whether a run with such a failing call ends and writes so.
fn is_failing(alloc: Global, row: &Failing) -> Result<bool, Fail> {
    let mut disk = new_disk(alloc, row.disk)?;
    let mut shelf = shelf_of(alloc, row.shelf)?;
    let mut reads = Vec::new(alloc);
    reads.push(row.read)?;
    let mut writes = Vec::new(alloc);
    writes.push(row.write)?;
    let mut input = MemInput::new(Vec::from_slice(alloc, row.script)?, 4096, reads);
    let mut output = MemOutput::new(alloc, writes);
    let status = run_over(
        alloc,
        &BY_HAND,
        &mut disk,
        &mut shelf,
        &mut input,
        &mut output,
    );
    Ok(status.code() == row.code && is_joined(output.written(), row.written))
}

#[test]
fn a_call_of_each_device_fails(rt: HostRuntime) -> Result<(), Fail> {
    for row in FAILINGS.iter() {
        assert!(rt; is_failing(rt.alloc(), row)?);
    }
    Ok(())
}
