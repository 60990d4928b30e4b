//! Tiles from their bytes in a record.
ghost use Rattle.std.specs.Prelude.{◌≡◌, ◌+◌, ◌<◌, ◌≤◌, take, drop, ◌++◌, List, ℕ, MatchOption};
ghost use Rattle.std.specs.Int.{w16, w32, from_be_bytes, cast_signed};
ghost use Rattle.cdb_grid.specs.declared.family.Family as families;
ghost use Rattle.cdb_grid.specs.declared.tile.Tile as tiles;
ghost use Rattle.cdb_model.specs.Records.{family_number, entry_text};
ghost use Rattle.cdb_manifest.specs.inside.Entries.{HasTileFields};

use cdb_grid::{Family, Geocell, Level, Tile, tiles_across};

fn family_of(number: u8) -> Option<Family>
    ensures { MatchOption result ((family : families.Family) → number ≡ family_number family → ⊥)
        (λ family. number ≡ family_number family) }
{
    match number {
        1 => Some(Family::Elev),
        2 => Some(Family::Low),
        3 => Some(Family::High),
        4 => Some(Family::Mat),
        _ => None,
    }
}

fn number_in(entry: &[u8; 16], at: usize) -> u32
    requires { at + 4 ≤ 16 }
    ensures { result ≡ from_be_bytes w32 (take 4 (drop at entry.now)) }
{
    u32::from_be_bytes([entry[at], entry[at + 1], entry[at + 2], entry[at + 3]])
}

fn longitude_in(entry: &[u8; 16]) -> i16
    ensures { result ≡ cast_signed w16 (from_be_bytes w16 (take 2 (drop 4 entry.now))) }
{
    i16::from_be_bytes([entry[4], entry[5]])
}

/// The tile whose entry these bytes are.
pub(crate) fn tile_of(entry: &[u8; 16]) -> Option<Tile>
    ensures { MatchOption result ((tile : tiles.Tile) → HasTileFields entry.now tile → ⊥)
        (λ tile. HasTileFields entry.now tile) }
{
    if entry[3] != 0 || entry[6] != 0 || entry[7] != 0 {
        return None;
    }
    let family = family_of(entry[0])?;
    let level = Level::new(i32::from(entry[1].cast_signed()))?;
    let cell = Geocell::new(entry[2].cast_signed(), longitude_in(entry))?;
    let up = number_in(entry, 8);
    let right = number_in(entry, 12);
    let across = tiles_across(level);
    if up >= across {
        return None;
    }
    if right >= across {
        return None;
    }
    Some(Tile {
        family,
        cell,
        level,
        up,
        right,
    })
}

/// The tile whose entry the bytes begin with, and what follows it.
pub(crate) fn entry_at(bytes: &[u8]) -> Option<(Tile, &[u8])>
    ensures { MatchOption result ((tile : tiles.Tile) (after : List ℕ) → bytes.now ≡ entry_text tile ++ after → ⊥)
        (λ p. bytes.now ≡ entry_text p.0 ++ p.1.now) }
{
    let entry = bytes.first_chunk::<16>()?;
    let tile = tile_of(entry)?;
    Some((tile, bytes.split_at(16).1))
}
