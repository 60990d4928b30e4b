//! The bytes of a record.
ghost use Rattle.std.specs.Prelude.{◌≡◌, ◌++◌, length, OnOk, IfOk};
ghost use Rattle.cdb_model.specs.Records as texts;
ghost use Rattle.cdb_manifest.specs.Records.{record_bytes};

use crate::record_::Record;
use cdb_grid::{Family, Tile};
use cdb_source::{SourceHead, encode_head};
use std::alloc::{AllocError, Global};

/// The eight bytes that a record begins with.
pub(crate) const FIRST_BYTES: [u8; 8] = *b"CDBREC1\n";

fn family_number(family: Family) -> u8
    ensures { result ≡ texts.family_number family }
{
    match family {
        Family::Elev => 1,
        Family::Low => 2,
        Family::High => 3,
        Family::Mat => 4,
    }
}

fn put_front(out: &mut Vec<u8>, item: &Record) -> Result<(), AllocError>
    ensures { OnOk result
        (out.new.items ≡ out.old.items ++ texts.record_front_text item.now.version (length item.now.heads)
        (length item.now.tiles)) }
{
    out.extend_from_slice(&FIRST_BYTES)?;
    out.extend_from_slice(&item.version.to_be_bytes())?;
    out.extend_from_slice(&(item.heads.as_slice().len() as u32).to_be_bytes())?;
    out.extend_from_slice(&(item.tiles.as_slice().len() as u32).to_be_bytes())?;
    Ok(())
}

fn put_heads(out: &mut Vec<u8>, heads: &[SourceHead]) -> Result<(), AllocError>
    ensures { OnOk result (out.new.items ≡ out.old.items ++ texts.heads_text heads.now) }
{
    for head in heads {
        out.extend_from_slice(encode_head(head).split_at(8).1)?;
    }
    Ok(())
}

#[tactic(auto, unfolding(cdb_model::specs::Records::entry_text))]
fn put_entry(out: &mut Vec<u8>, tile: &Tile) -> Result<(), AllocError>
    ensures { OnOk result (out.new.items ≡ out.old.items ++ texts.entry_text tile.now) }
{
    let level = tile.level.number.cast_unsigned();
    let lat = tile.cell.lat.cast_unsigned();
    out.extend_from_slice(&[family_number(tile.family), level, lat, 0])?;
    out.extend_from_slice(&tile.cell.lon.to_be_bytes())?;
    out.extend_from_slice(&[0, 0])?;
    out.extend_from_slice(&tile.up.to_be_bytes())?;
    out.extend_from_slice(&tile.right.to_be_bytes())?;
    Ok(())
}

fn put_entries(out: &mut Vec<u8>, tiles: &[Tile]) -> Result<(), AllocError>
    ensures { OnOk result (out.new.items ≡ out.old.items ++ texts.entries_text tiles.now) }
{
    for tile in tiles {
        put_entry(out, tile)?;
    }
    Ok(())
}

/// The bytes of a record. All numbers are big endian, and signed ones two's complement.
pub fn encode(alloc: Global, item: &Record) -> Result<Vec<u8>, AllocError>
    ensures { IfOk result (λ bytes. bytes.items ≡ record_bytes item.now) }
{
    let mut out = Vec::new(alloc);
    put_front(&mut out, item)?;
    put_heads(&mut out, item.heads.as_slice())?;
    put_entries(&mut out, item.tiles.as_slice())?;
    Ok(out)
}
