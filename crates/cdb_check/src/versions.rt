//! All files of a store against what they must be.
ghost use Rattle.std.specs.Prelude.{◌≡◌, ◌+◌, ◌≤◌, ◌++◌, List, OnOk, IfOk, map, length};
ghost use Rattle.cdb_check.specs.Expected.{SourceFile, source_files_of, expected_of, expected_files, a_source, a_tile, SpellAll};
ghost use Rattle.cdb_check.specs.Outcome.{FirstDiffering, OnlyReads, IsFaultCaused, TellsCounts};
ghost use Rattle.cdb_check.specs.Rooms.{IsRoomy};
ghost use Rattle.cdb_model.specs.declared.limits.TheConstants.{MOST_VERSIONS};

use crate::files::{check_record, check_source, check_tile};
use crate::outcome::{Agreed, CheckError};
use crate::room::Room;
use cdb_chain::Chain;
use cdb_files::Disk;
use cdb_grid::Tile;
use cdb_grid::units::height;
use cdb_manifest::Record;
use cdb_source::{Source, SourceHead};
use std::alloc::Global;

/// The height of level 0.
const LEVEL_0: u32 = 24;

/// Looks at the source files of a version, and puts their sources behind those of earlier ones.
fn check_sources<D: Disk>(
    alloc: Global,
    record: &Record,
    sources: &mut Vec<Source>,
    disk: &mut D,
) -> Result<(), CheckError>
    ensures finds { D.tells
        → FirstDiffering (D.state disk.old).present (map a_source (source_files_of «record».now)) result }
    ensures spelled { D.tells → (earlier : List SourceFile)
        → SpellAll (D.state disk.old).present earlier sources.old.items
        → OnOk result
        (SpellAll (D.state disk.old).present (earlier ++ source_files_of «record».now) sources.new.items) }
    ensures looks { OnlyReads D.clock D.since D.state D.fault_count disk.old disk.new }
    ensures cause { IsFaultCaused (D.fault_count disk.old) (D.fault_count disk.new) result }
{
    let heads = record.heads.as_slice();
    for k in 0..heads.len() {
        match check_source(alloc, record.version, k as u32 + 1, &heads[k], disk) {
            Ok(source) => match sources.push(source) {
                Ok(()) => (),
                Err(_) => return Err(CheckError::Memory),
            },
            Err(error) => return Err(error),
        }
    }
    Ok(())
}

/// Looks at the tiles of a version.
#[tactic(auto, using(crate::proofs::KeptTiles::kept_none))]
fn check_tiles<D: Disk>(
    alloc: Global,
    version: u32,
    tiles: &[Tile],
    sources: &[Source],
    room: &mut Room,
    disk: &mut D,
) -> Result<(), CheckError>
    requires version_least { 1 ≤ version }
    requires version_most { version ≤ MOST_VERSIONS }
    requires ready { IsRoomy room.old }
    ensures finds { D.tells → (files : List SourceFile) → SpellAll (D.state disk.old).present files sources.now
        → FirstDiffering (D.state disk.old).present (map (a_tile files version) tiles.now) result }
    ensures ready { IsRoomy room.new }
    ensures looks { OnlyReads D.clock D.since D.state D.fault_count disk.old disk.new }
    ensures cause { IsFaultCaused (D.fault_count disk.old) (D.fault_count disk.new) result }
{
    let mut kept = Vec::new(alloc);
    for k in 0..tiles.len() {
        match check_tile(alloc, version, &tiles[k], sources, &mut kept, room, disk) {
            Ok(()) => (),
            Err(error) => return Err(error),
        }
    }
    Ok(())
}

/// Looks at the files of a version.
fn check_version<D: Disk>(
    alloc: Global,
    record: &Record,
    sources: &mut Vec<Source>,
    room: &mut Room,
    disk: &mut D,
) -> Result<(), CheckError>
    requires ready { IsRoomy room.old }
    ensures finds { D.tells → (earlier : List SourceFile)
        → SpellAll (D.state disk.old).present earlier sources.old.items
        → FirstDiffering (D.state disk.old).present (expected_of earlier «record».now) result }
    ensures spelled { D.tells → (earlier : List SourceFile)
        → SpellAll (D.state disk.old).present earlier sources.old.items
        → OnOk result
        (SpellAll (D.state disk.old).present (earlier ++ source_files_of «record».now) sources.new.items) }
    ensures ready { IsRoomy room.new }
    ensures looks { OnlyReads D.clock D.since D.state D.fault_count disk.old disk.new }
    ensures cause { IsFaultCaused (D.fault_count disk.old) (D.fault_count disk.new) result }
{
    match check_record(alloc, record, room, disk) {
        Ok(()) => (),
        Err(error) => return Err(error),
    }
    match check_sources(alloc, record, sources, disk) {
        Ok(()) => (),
        Err(error) => return Err(error),
    }
    check_tiles(
        alloc,
        record.version,
        record.tiles.as_slice(),
        sources.as_slice(),
        room,
        disk,
    )
}

/// How many files a version must have.
fn file_count(record: &Record) -> u32
    ensures count { result ≡ 1 + length «record».now.heads + length «record».now.tiles }
    ensures most { result ≤ 16449 }
{
    // brings the limits of the record, by which the sum fits
    let _version = record.version;
    1 + record.heads.as_slice().len() as u32 + record.tiles.as_slice().len() as u32
}

/// The least height of levels of heads, or that of level 0.
fn least_height(heads: &[SourceHead]) -> u32 {
    let mut least: u32 = LEVEL_0;
    for head in heads {
        least = least.min(height(head.level));
    }
    least
}

/// How many finer tiles are made at a time: one for each level from 0 to the finest of all sources, one for
/// all coarser levels together, and one that is only asked for.
fn finer_tiles(chain: &Chain) -> usize
    ensures { result ≤ 27 }
{
    let mut least: u32 = LEVEL_0;
    for before in 0..chain.newest() {
        if let Some(record) = chain.record_at(before + 1) {
            least = least.min(least_height(record.heads.as_slice()));
        }
    }
    (LEVEL_0 + 3).saturating_sub(least) as usize
}

/// Whether all files of a store are what its records and source files give: each record, source file
/// and tile, by version, and in a version the record first, then the sources by number, then the tiles
/// in their stated order. Other files aren't looked for. It writes nothing.
///
/// A record must have the bytes that the chain has of it, heads whose load is at most 16,384, and the
/// tiles that they touch; a source file must be that of a source with the head that the record gives;
/// and a tile must have the values that all sources up to its version give. `Differs` comes exactly
/// where a file isn't so, with the path of the first, and `Fault` only where a call of the disk failed.
///
/// It holds all sources of the store at once.
pub fn check<D: Disk>(alloc: Global, chain: &Chain, disk: &mut D) -> Result<Agreed, CheckError>
    ensures finds { D.tells → FirstDiffering (D.state disk.old).present (expected_files chain.now.records) result }
    ensures told { IfOk result (TellsCounts chain.now.records) }
    ensures looks { OnlyReads D.clock D.since D.state D.fault_count disk.old disk.new }
    ensures cause { IsFaultCaused (D.fault_count disk.old) (D.fault_count disk.new) result }
{
    let Ok(mut room) = Room::new(alloc, finer_tiles(chain)) else {
        return Err(CheckError::Memory);
    };
    let mut sources = Vec::new(alloc);
    let mut files = 0;
    for k in 0..chain.newest() {
        let Some(record) = chain.record_at(k + 1) else {
            unreachable!();
        };
        match check_version(alloc, record, &mut sources, &mut room, disk) {
            Ok(()) => (),
            Err(error) => return Err(error),
        }
        files += file_count(record);
    }
    Ok(Agreed {
        versions: chain.newest(),
        files,
    })
}
