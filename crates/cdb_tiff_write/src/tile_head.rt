//! The head of a written tile: the header, the directory of 13 entries and the values that stand
//! elsewhere (TIFF 6.0, sections 2 and 8). All numbers are little endian.
ghost use Rattle.std.specs.Prelude.{◌≡◌, ◌+◌, ◌≤◌, ◌==◌, ◌||◌, ◌++◌, IsTrue, codes, length};
ghost use Rattle.arrayvec.specs.ArrayVec.{array_vec_len};
ghost use Rattle.cdb_model.specs.TileFile.{short_bytes, long_bytes, short, long, rational, tile_entry, head_bytes};

use arrayvec::ArrayVec;
use cdb_model::TILE_HEAD_BYTES;
use cdb_tiff_base::tag::{
    BITS_PER_SAMPLE, COMPRESSION, IMAGE_LENGTH, IMAGE_WIDTH, LONG, PHOTOMETRIC_INTERPRETATION,
    RATIONAL, RESOLUTION_UNIT, ROWS_PER_STRIP, SAMPLE_FORMAT, SAMPLES_PER_PIXEL, SHORT,
    STRIP_BYTE_COUNTS, STRIP_OFFSETS, X_RESOLUTION, Y_RESOLUTION,
};

type Head = ArrayVec<u8, TILE_HEAD_BYTES>;

/// The first 186 bytes of the file of a tile (TIFF 6.0 sections 2 and 8). `side` is the number of its
/// elements along one side, at most 1,024, and `bits` is 16 for signed elements and 8 for elements without
/// a sign.
#[tactic(auto, unfolding(cdb_model::specs::TileFile::head_bytes))]
pub fn head(side: u32, bits: u8) -> [u8; TILE_HEAD_BYTES]
    requires side { side ≤ 1024 }
    requires bits { IsTrue (bits == 8 || bits == 16) }
    ensures { result ≡ head_bytes side bits }
{
    let mut head = Head::new();
    let short_side = side as u16;
    let strip_bytes = side * side * (u32::from(bits) / 8);
    let sample_format = if bits == 8 { 1 } else { 2 };
    put_header(&mut head);
    put_short_entry(&mut head, IMAGE_WIDTH, short_side);
    put_short_entry(&mut head, IMAGE_LENGTH, short_side);
    put_short_entry(&mut head, BITS_PER_SAMPLE, u16::from(bits));
    put_short_entry(&mut head, COMPRESSION, 1);
    put_short_entry(&mut head, PHOTOMETRIC_INTERPRETATION, 1);
    put_long_entry(&mut head, STRIP_OFFSETS, TILE_HEAD_BYTES as u32);
    put_short_entry(&mut head, SAMPLES_PER_PIXEL, 1);
    put_short_entry(&mut head, ROWS_PER_STRIP, short_side);
    put_long_entry(&mut head, STRIP_BYTE_COUNTS, strip_bytes);
    put_rational_entry(&mut head, X_RESOLUTION, 170);
    put_rational_entry(&mut head, Y_RESOLUTION, 178);
    put_short_entry(&mut head, RESOLUTION_UNIT, 1);
    put_short_entry(&mut head, SAMPLE_FORMAT, sample_format);
    put_long(&mut head, 0);
    put_long(&mut head, 1);
    put_long(&mut head, 1);
    put_long(&mut head, 1);
    put_long(&mut head, 1);
    match head.into_inner() {
        Ok(bytes) => bytes,
        Err(_) => unreachable!(),
    }
}

/// The byte order, the number 42, the place of the directory, and the number of its entries.
fn put_header(head: &mut Head)
    requires { array_vec_len head.old ≡ 0 }
    ensures bytes { head.new.items ≡ codes "II" ++ short_bytes 42 ++ long_bytes 8 ++ short_bytes 13 }
    ensures len { array_vec_len head.new ≡ 10 }
{
    put(head, b"II");
    put_short(head, 42);
    put_long(head, 8);
    put_short(head, 13);
}

/// An entry whose value is one SHORT.
fn put_short_entry(head: &mut Head, tag: u16, value: u16)
    requires { array_vec_len head.old + 12 ≤ TILE_HEAD_BYTES }
    ensures bytes { head.new.items ≡ head.old.items ++ tile_entry tag short 1 value }
    ensures len { array_vec_len head.new ≡ array_vec_len head.old + 12 }
{
    put_kind(head, tag, SHORT);
    put_short(head, value);
    put_short(head, 0);
}

/// An entry whose value is one LONG.
fn put_long_entry(head: &mut Head, tag: u16, value: u32)
    requires { array_vec_len head.old + 12 ≤ TILE_HEAD_BYTES }
    ensures bytes { head.new.items ≡ head.old.items ++ tile_entry tag long 1 value }
    ensures len { array_vec_len head.new ≡ array_vec_len head.old + 12 }
{
    put_kind(head, tag, LONG);
    put_long(head, value);
}

/// An entry whose value is one RATIONAL, which stands at the byte `place`.
fn put_rational_entry(head: &mut Head, tag: u16, place: u32)
    requires { array_vec_len head.old + 12 ≤ TILE_HEAD_BYTES }
    ensures bytes { head.new.items ≡ head.old.items ++ tile_entry tag rational 1 place }
    ensures len { array_vec_len head.new ≡ array_vec_len head.old + 12 }
{
    put_kind(head, tag, RATIONAL);
    put_long(head, place);
}

/// The tag of an entry, the type of its value, and the count of values, which is 1.
fn put_kind(head: &mut Head, tag: u16, kind: u16)
    requires { array_vec_len head.old + 8 ≤ TILE_HEAD_BYTES }
    ensures bytes { head.new.items ≡ head.old.items ++ (short_bytes tag ++ short_bytes kind ++ long_bytes 1) }
    ensures len { array_vec_len head.new ≡ array_vec_len head.old + 8 }
{
    put_short(head, tag);
    put_short(head, kind);
    put_long(head, 1);
}

fn put_short(head: &mut Head, number: u16)
    requires { array_vec_len head.old + 2 ≤ TILE_HEAD_BYTES }
    ensures bytes { head.new.items ≡ head.old.items ++ short_bytes number }
    ensures len { array_vec_len head.new ≡ array_vec_len head.old + 2 }
{
    put(head, &number.to_le_bytes());
}

fn put_long(head: &mut Head, number: u32)
    requires { array_vec_len head.old + 4 ≤ TILE_HEAD_BYTES }
    ensures bytes { head.new.items ≡ head.old.items ++ long_bytes number }
    ensures len { array_vec_len head.new ≡ array_vec_len head.old + 4 }
{
    put(head, &number.to_le_bytes());
}

fn put(head: &mut Head, bytes: &[u8])
    requires { array_vec_len head.old + length bytes.now ≤ TILE_HEAD_BYTES }
    ensures bytes { head.new.items ≡ head.old.items ++ bytes.now }
    ensures len { array_vec_len head.new ≡ array_vec_len head.old + length bytes.now }
{
    match head.try_extend_from_slice(bytes) {
        Ok(()) => (),
        Err(_) => unreachable!(),
    }
}
