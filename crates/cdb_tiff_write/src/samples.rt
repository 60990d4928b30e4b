//! The samples of a tile's file.
ghost use Rattle.std.specs.Prelude.{◌≡◌, ◌+◌, ◌*◌, ◌/◌, ◌≤◌, ◌<◌, ◌==◌, ◌||◌, IsTrue, length};
ghost use Rattle.cdb_grid.specs.Frames.{IsRowChanged};
ghost use Rattle.cdb_tiff_write.specs.Samples.{sample_in};
ghost use Rattle.cdb_model.specs.declared.limits.TheConstants.{MOST_TILE_VALUES};

use cdb_model::TILE_HEAD_BYTES;

/// A sample in two bytes, by its number from the north-west.
pub(crate) fn short_sample(bytes: &[u8], number: usize) -> i16
    requires within { TILE_HEAD_BYTES + 2 * (number + 1) ≤ length bytes.now }
    requires small { number < MOST_TILE_VALUES }
    ensures { result ≡ sample_in 16 bytes.now number }
{
    let at = TILE_HEAD_BYTES + 2 * number;
    i16::from_le_bytes([bytes[at], bytes[at + 1]])
}

/// A sample in one byte, by its number from the north-west.
pub(crate) fn octet_sample(bytes: &[u8], number: usize) -> i16
    requires within { TILE_HEAD_BYTES + (number + 1) ≤ length bytes.now }
    requires small { number < MOST_TILE_VALUES }
    ensures { result ≡ sample_in 8 bytes.now number }
{
    bytes[TILE_HEAD_BYTES + number] as i16
}

/// Reads a row of samples of two bytes each. The row begins at this number of a sample.
fn read_shorts(bytes: &[u8], from: usize, to: &mut [i16])
    requires row { from + length to.old ≤ MOST_TILE_VALUES }
    requires within { TILE_HEAD_BYTES + 2 * (from + length to.old) ≤ length bytes.now }
    ensures { IsRowChanged (λ k old. sample_in 16 bytes.now (from + k)) (length to.old) to.old to.new }
{
    for k in 0..to.len() {
        to[k] = short_sample(bytes, from + k);
    }
}

/// The same of samples of one byte each.
fn read_octets(bytes: &[u8], from: usize, to: &mut [i16])
    requires row { from + length to.old ≤ MOST_TILE_VALUES }
    requires within { TILE_HEAD_BYTES + (from + length to.old) ≤ length bytes.now }
    ensures { IsRowChanged (λ k old. sample_in 8 bytes.now (from + k)) (length to.old) to.old to.new }
{
    for k in 0..to.len() {
        to[k] = octet_sample(bytes, from + k);
    }
}

/// Reads a row of samples. The row begins at this number of a sample.
pub(crate) fn read_row(bytes: &[u8], bits: u8, from: usize, to: &mut [i16])
    requires bits { IsTrue (bits == 8 || bits == 16) }
    requires row { from + length to.old ≤ MOST_TILE_VALUES }
    requires within { TILE_HEAD_BYTES + (from + length to.old) * (bits / 8) ≤ length bytes.now }
    ensures { IsRowChanged (λ k old. sample_in bits bytes.now (from + k)) (length to.old) to.old to.new }
{
    if bits == 8 {
        read_octets(bytes, from, to);
    } else {
        read_shorts(bytes, from, to);
    }
}
