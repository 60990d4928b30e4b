//! Records from their bytes.
ghost use Rattle.std.specs.Prelude.{◌≡◌, ◌+◌, ◌*◌, ◌<◌, ◌≤◌, ◌++◌, ◌∷◌, [], IsTrue, length, IfOk, IfErr};
ghost use Rattle.cdb_manifest.specs.declared.record_.Record as records;
ghost use Rattle.cdb_model.specs.Records.{record_front_text, heads_text, entries_text};
ghost use Rattle.cdb_manifest.specs.Records.{record_bytes};
ghost use Rattle.cdb_manifest.specs.Entries.{Ascending};
ghost use Rattle.cdb_manifest.specs.Decoding.{RecordCause, GivesRecord};
ghost use Rattle.cdb_manifest.specs.inside.Decoding.{IsFront, TellsHead, TellsEntry};
ghost use Rattle.cdb_source.specs.declared.limits.TheConstants.{MOST_LOAD};

use crate::entry::entry_at;
use crate::fields::{after_first, head_at, number_at};
use crate::limits::{ENTRY_BYTES, FRONT_BYTES, HEAD_BYTES, MOST_SOURCES, MOST_TILES};
use crate::record_::{Heads, Record, Tiles};
use crate::record_error::RecordError;
use cdb_grid::Tile;
use cdb_model::MOST_VERSIONS;
use cdb_source::SourceHead;
use std::alloc::Global;
use std::cmp::Ordering;

/// The first numbers of a record.
#[derive(Clone, Copy)]
struct Numbers {
    version: u32,
    sources: u32,
    tiles: u32,
}

/// The fields before the heads, and what follows them.
fn numbers_at(bytes: &[u8]) -> Result<(Numbers, &[u8]), RecordError>
    ensures form { IfOk result (λ p. IsFront p.0.version p.0.sources p.0.tiles) }
    ensures read { IfOk result (λ p. bytes.now ≡ record_front_text p.0.version p.0.sources p.0.tiles ++ p.1.now) }
    ensures bad { IfErr result (RecordCause bytes.now) }
{
    let Some(rest) = after_first(bytes) else {
        return Err(RecordError::Bad { place: 0 });
    };
    let Some((version, rest)) = number_at(rest, 1, MOST_VERSIONS) else {
        return Err(RecordError::Bad { place: 8 });
    };
    let Some((sources, rest)) = number_at(rest, 1, MOST_SOURCES) else {
        return Err(RecordError::Bad { place: 12 });
    };
    let Some((tiles, rest)) = number_at(rest, 0, MOST_TILES) else {
        return Err(RecordError::Bad { place: 16 });
    };
    let numbers = Numbers {
        version,
        sources,
        tiles,
    };
    Ok((numbers, rest))
}

/// So many heads, and what follows them. They begin at byte 20.
fn heads_at(
    alloc: Global,
    count: u32,
    bytes: &[u8],
) -> Result<(Vec<SourceHead>, &[u8]), RecordError>
    requires { count ≤ 64 }
    ensures read { IfOk result (λ p. bytes.now ≡ heads_text p.0.items ++ p.1.now) }
    ensures count { IfOk result (λ p. length p.0.items ≡ count) }
    ensures bad { IfErr result (TellsHead bytes.now count) }
{
    let mut heads = Vec::new(alloc);
    let mut rest = bytes;
    for k in 0..count {
        let Some((head, after)) = head_at(rest) else {
            return Err(RecordError::Bad {
                place: FRONT_BYTES + HEAD_BYTES * k,
            });
        };
        heads.push(head)?;
        rest = after;
    }
    Ok((heads, rest))
}

/// Whether a tile comes after all tiles of an ascending list.
fn comes_after(tiles: &[Tile], tile: &Tile) -> bool
    requires { Ascending tiles.now }
    ensures yes { IsTrue result → Ascending (tiles.now ++ tile.now ∷ []) }
    ensures only { Ascending (tiles.now ++ tile.now ∷ []) → IsTrue result }
{
    if tiles.is_empty() {
        return true;
    }
    match tiles[tiles.len() - 1].cmp(tile) {
        Ordering::Less => true,
        _ => false,
    }
}

/// So many tiles, ascending, and what follows them. Their entries begin at the byte `start`.
fn entries_at(
    alloc: Global,
    count: u32,
    start: u32,
    bytes: &[u8],
) -> Result<(Vec<Tile>, &[u8]), RecordError>
    requires count { count ≤ MOST_LOAD }
    requires start { start ≤ 2836 }
    ensures read { IfOk result (λ p. bytes.now ≡ entries_text p.0.items ++ p.1.now) }
    ensures ordered { IfOk result (λ p. Ascending p.0.items) }
    ensures count { IfOk result (λ p. length p.0.items ≡ count) }
    ensures bad { IfErr result (TellsEntry bytes.now count start) }
{
    let mut tiles = Vec::new(alloc);
    let mut rest = bytes;
    for k in 0..count {
        let Some((tile, after)) = entry_at(rest) else {
            return Err(RecordError::Bad {
                place: start + ENTRY_BYTES * k,
            });
        };
        if !comes_after(tiles.as_slice(), &tile) {
            return Err(RecordError::Bad {
                place: start + ENTRY_BYTES * k,
            });
        }
        tiles.push(tile)?;
        rest = after;
    }
    Ok((tiles, rest))
}

/// The fields of a record in their order, each read once.
fn record_of(alloc: Global, bytes: &[u8]) -> Result<Record, RecordError>
    ensures spelled { IfOk result (λ item. bytes.now ≡ record_bytes item) }
    ensures bad { IfErr result (RecordCause bytes.now) }
{
    let (numbers, rest) = numbers_at(bytes)?;
    let (heads, rest) = heads_at(alloc, numbers.sources, rest)?;
    let start = FRONT_BYTES + HEAD_BYTES * numbers.sources;
    let (tiles, rest) = entries_at(alloc, numbers.tiles, start, rest)?;
    if !rest.is_empty() {
        return Err(RecordError::Bad {
            place: start + ENTRY_BYTES * numbers.tiles,
        });
    }
    Ok(Record {
        version: numbers.version,
        heads: Heads::from(heads),
        tiles: Tiles::from(tiles),
    })
}

/// The record that the bytes spell. `Bad` exactly where they spell none; its place is the byte, from
/// 0, at which the first field begins that isn't of the form. `Memory` where memory was refused.
/// Whether the tiles are those that the sources touch is not looked at.
pub fn decode(alloc: Global, bytes: &[u8]) -> Result<Record, RecordError>
    ensures spelled { IfOk result (λ item. bytes.now ≡ record_bytes item) }
    ensures only { (item : records.Record) → bytes.now ≡ record_bytes item → GivesRecord item result }
    ensures bad { IfErr result (RecordCause bytes.now) }
{
    record_of(alloc, bytes)
}
