//! Runs of the program over devices in memory.

use cdb_files::Disk;
use cdb_front::{MemInput, MemOutput, Status, cdb_run};
use cdb_memfiles::{MemDisk, MemShelf};
use std::alloc::Global;
use std::collections::BTreeMap;
use std::test::Fail;

/// The head of a tile's file of one element of 16 bits, byte by byte.
pub const HEAD: [u8; 186] = [
    0x49, 0x49, 0x2A, 0x00, 0x08, 0x00, 0x00, 0x00, 0x0D, 0x00, 0x00, 0x01, 0x03, 0x00, 0x01, 0x00,
    0x00, 0x00, 0x01, 0x00, 0x00, 0x00, 0x01, 0x01, 0x03, 0x00, 0x01, 0x00, 0x00, 0x00, 0x01, 0x00,
    0x00, 0x00, 0x02, 0x01, 0x03, 0x00, 0x01, 0x00, 0x00, 0x00, 0x10, 0x00, 0x00, 0x00, 0x03, 0x01,
    0x03, 0x00, 0x01, 0x00, 0x00, 0x00, 0x01, 0x00, 0x00, 0x00, 0x06, 0x01, 0x03, 0x00, 0x01, 0x00,
    0x00, 0x00, 0x01, 0x00, 0x00, 0x00, 0x11, 0x01, 0x04, 0x00, 0x01, 0x00, 0x00, 0x00, 0xBA, 0x00,
    0x00, 0x00, 0x15, 0x01, 0x03, 0x00, 0x01, 0x00, 0x00, 0x00, 0x01, 0x00, 0x00, 0x00, 0x16, 0x01,
    0x03, 0x00, 0x01, 0x00, 0x00, 0x00, 0x01, 0x00, 0x00, 0x00, 0x17, 0x01, 0x04, 0x00, 0x01, 0x00,
    0x00, 0x00, 0x02, 0x00, 0x00, 0x00, 0x1A, 0x01, 0x05, 0x00, 0x01, 0x00, 0x00, 0x00, 0xAA, 0x00,
    0x00, 0x00, 0x1B, 0x01, 0x05, 0x00, 0x01, 0x00, 0x00, 0x00, 0xB2, 0x00, 0x00, 0x00, 0x28, 0x01,
    0x03, 0x00, 0x01, 0x00, 0x00, 0x00, 0x01, 0x00, 0x00, 0x00, 0x53, 0x01, 0x03, 0x00, 0x01, 0x00,
    0x00, 0x00, 0x02, 0x00, 0x00, 0x00, 0x00, 0x00, 0x00, 0x00, 0x01, 0x00, 0x00, 0x00, 0x01, 0x00,
    0x00, 0x00, 0x01, 0x00, 0x00, 0x00, 0x01, 0x00, 0x00, 0x00,
];

/// The sizes of the pieces in which an input comes.
pub const PIECES: [usize; 3] = [1, 3, 4096];

/// The words of a run that makes no step but those that are asked for.
pub const BY_HAND: [&str; 2] = ["--background", "0"];

/// A script and what is written in answer to it over a new store, and the same of a second run, which
/// opens that store again.
#[derive(Drop)]
pub struct Row {
    pub script: &'static [u8],
    pub answers: &'static [&'static [u8]],
    pub reopened: &'static [u8],
    pub again: &'static [&'static [u8]],
}

/// An empty disk, whose call of this number fails.
pub fn new_disk(alloc: Global, fails: u64) -> Result<MemDisk, Fail> {
    let mut calls = Vec::new(alloc);
    calls.push(fails)?;
    Ok(MemDisk::new(alloc, calls))
}

/// The top call. The tests above it need none of its contract.
pub fn run_over<D: Disk>(
    alloc: Global,
    words: &[&str],
    disk: &mut D,
    shelf: &mut MemShelf,
    input: &mut MemInput,
    output: &mut MemOutput,
) -> Status {
    cdb_run(alloc, words, disk, shelf, input, output)
}

/// Runs a script over the disk and an empty shelf.
pub fn run<D: Disk>(
    alloc: Global,
    disk: &mut D,
    script: &[u8],
) -> Result<(Status, MemOutput), Fail> {
    run_in_pieces(alloc, disk, script, 4096, 0, 0)
}

/// The same of a script that comes in pieces of at most `piece` bytes, where the call of the input and the
/// call of the output of these numbers fail.
pub fn run_in_pieces<D: Disk>(
    alloc: Global,
    disk: &mut D,
    script: &[u8],
    piece: usize,
    read: u64,
    write: u64,
) -> Result<(Status, MemOutput), Fail> {
    let mut reads = Vec::new(alloc);
    reads.push(read)?;
    let mut writes = Vec::new(alloc);
    writes.push(write)?;
    let mut shelf = MemShelf::new(BTreeMap::new(alloc), Vec::new(alloc));
    let mut input = MemInput::new(Vec::from_slice(alloc, script)?, piece.max(1), reads);
    let mut output = MemOutput::new(alloc, writes);
    let status = run_over(alloc, &BY_HAND, disk, &mut shelf, &mut input, &mut output);
    Ok((status, output))
}

/// Runs a script with these words over the disk and the shelf.
pub fn run_with<D: Disk>(
    alloc: Global,
    words: &[&str],
    disk: &mut D,
    shelf: &mut MemShelf,
    script: &[u8],
) -> Result<(Status, MemOutput), Fail> {
    let mut input = MemInput::new(Vec::from_slice(alloc, script)?, 4096, Vec::new(alloc));
    let mut output = MemOutput::new(alloc, Vec::new(alloc));
    let status = run_over(alloc, words, disk, shelf, &mut input, &mut output);
    Ok((status, output))
}

/// Runs a script with these words over the disk and an empty shelf.
pub fn run_worded<D: Disk>(
    alloc: Global,
    words: &[&str],
    disk: &mut D,
    script: &[u8],
) -> Result<(Status, MemOutput), Fail> {
    let mut shelf = MemShelf::new(BTreeMap::new(alloc), Vec::new(alloc));
    run_with(alloc, words, disk, &mut shelf, script)
}

/// The words of a run that checks the files of its store.
const CHECK: [&str; 2] = ["--mode", "check"];

/// Checks the files of the store of a disk.
pub fn check<D: Disk>(alloc: Global, disk: &mut D) -> Result<(Status, MemOutput), Fail> {
    run_worded(alloc, &CHECK, disk, b"")
}

/// Whether a run over the disk ends well and writes these answers.
pub fn answers(
    alloc: Global,
    disk: &mut MemDisk,
    script: &[u8],
    piece: usize,
    answers: &[&[u8]],
) -> Result<bool, Fail> {
    let (status, output) = run_in_pieces(alloc, disk, script, piece, 0, 0)?;
    Ok(status == Status::Done && output.refused() == 0 && is_joined(output.written(), answers))
}

/// Whether a row's two runs are answered, in whatever pieces the scripts come.
pub fn is_answered(alloc: Global, row: &Row) -> Result<bool, Fail> {
    for piece in PIECES {
        let mut disk = MemDisk::new(alloc, Vec::new(alloc));
        if !answers(alloc, &mut disk, row.script, piece, row.answers)?
            || !answers(alloc, &mut disk, row.reopened, piece, row.again)?
        {
            return Ok(false);
        }
    }
    Ok(true)
}

/// Whether bytes are these pieces, one after another.
pub fn is_joined(bytes: &[u8], pieces: &[&[u8]]) -> bool {
    let mut rest = bytes;
    for piece in pieces {
        match rest.strip_prefix(*piece) {
            Some(after) => rest = after,
            None => return false,
        }
    }
    rest.is_empty()
}
