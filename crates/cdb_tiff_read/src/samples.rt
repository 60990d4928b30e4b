//! The samples of an image, row by row. Each form of samples has a loop of its own, with nothing in it that
//! depends on the form.
ghost use Rattle.std.specs.Prelude.{◌≡◌, ◌+◌, ◌*◌, ◌/◌, ◌<◌, ◌≤◌, EachIndex, Some, false, length, slice_get, true};
ghost use Rattle.cdb_tiff_base.specs.Pixels.{pixel, row_place, sample};
ghost use Rattle.cdb_tiff_base.specs.declared.order.Order.TheVariants.{Big, Little};
ghost use Rattle.cdb_tiff_read.specs.Opened.{IsOpened};
ghost use Rattle.cdb_tiff_read.specs.inside.Opened.{HasSamples};

use crate::image::Image;
use crate::strips::offset_of;
use cdb_tiff_base::{Order, read_u16};

/// The sample of 16 bits in two's complement at the head of the bytes.
#[tactic(auto, unfolding(cdb_tiff_base::specs::Pixels::sample))]
fn signed_16(bytes: &[u8], order: Order) -> i32
    requires { 2 ≤ length bytes.now }
    ensures { result ≡ sample order 16 true bytes.now }
{
    i32::from(read_u16(bytes, order).cast_signed())
}

/// Samples of 8 bits.
#[tactic(auto, unfolding(cdb_tiff_base::specs::Pixels::sample))]
fn put_8(bytes: &[u8], place: usize, to: &mut [i32])
    requires { place + length to.old ≤ length bytes.now }
    ensures { (order : Order) → HasSamples order 8 false bytes.now place to.old to.new }
{
    for c in 0..to.len() {
        to[c] = i32::from(bytes[place + c]);
    }
}

/// Samples of 8 bits in two's complement.
#[tactic(auto, unfolding(cdb_tiff_base::specs::Pixels::sample))]
fn put_signed_8(bytes: &[u8], place: usize, to: &mut [i32])
    requires { place + length to.old ≤ length bytes.now }
    ensures { (order : Order) → HasSamples order 8 true bytes.now place to.old to.new }
{
    for c in 0..to.len() {
        to[c] = i32::from(bytes[place + c].cast_signed());
    }
}

/// Samples of 16 bits, the lower byte first.
#[tactic(auto, unfolding(cdb_tiff_base::specs::Pixels::sample))]
fn put_16_little(bytes: &[u8], place: usize, to: &mut [i32])
    requires { place + 2 * length to.old ≤ length bytes.now }
    ensures { HasSamples Little 16 false bytes.now place to.old to.new }
{
    for c in 0..to.len() {
        to[c] = i32::from(read_u16(&bytes[place + 2 * c..], Order::Little));
    }
}

/// Samples of 16 bits in two's complement, the lower byte first.
#[tactic(auto, unfolding(cdb_tiff_base::specs::Pixels::sample))]
fn put_signed_16_little(bytes: &[u8], place: usize, to: &mut [i32])
    requires { place + 2 * length to.old ≤ length bytes.now }
    ensures { HasSamples Little 16 true bytes.now place to.old to.new }
{
    for c in 0..to.len() {
        to[c] = signed_16(&bytes[place + 2 * c..], Order::Little);
    }
}

/// Samples of 16 bits, the higher byte first.
#[tactic(auto, unfolding(cdb_tiff_base::specs::Pixels::sample))]
fn put_16_big(bytes: &[u8], place: usize, to: &mut [i32])
    requires { place + 2 * length to.old ≤ length bytes.now }
    ensures { HasSamples Big 16 false bytes.now place to.old to.new }
{
    for c in 0..to.len() {
        to[c] = i32::from(read_u16(&bytes[place + 2 * c..], Order::Big));
    }
}

/// Samples of 16 bits in two's complement, the higher byte first.
#[tactic(auto, unfolding(cdb_tiff_base::specs::Pixels::sample))]
fn put_signed_16_big(bytes: &[u8], place: usize, to: &mut [i32])
    requires { place + 2 * length to.old ≤ length bytes.now }
    ensures { HasSamples Big 16 true bytes.now place to.old to.new }
{
    for c in 0..to.len() {
        to[c] = signed_16(&bytes[place + 2 * c..], Order::Big);
    }
}

/// Writes the samples that begin at a byte place, one for each place of `to`.
fn put_samples(image: &Image, bytes: &[u8], place: usize, to: &mut [i32])
    requires { place + length to.old * (image.now.bits / 8) ≤ length bytes.now }
    ensures { HasSamples image.now.order image.now.bits image.now.signed bytes.now place to.old to.new }
{
    match (image.bits, image.signed, image.order) {
        (8, false, _) => put_8(bytes, place, to),
        (8, true, _) => put_signed_8(bytes, place, to),
        (_, false, Order::Little) => put_16_little(bytes, place, to),
        (_, true, Order::Little) => put_signed_16_little(bytes, place, to),
        (_, false, Order::Big) => put_16_big(bytes, place, to),
        (_, true, Order::Big) => put_signed_16_big(bytes, place, to),
    }
}

/// The byte place of a row.
#[tactic(auto, unfolding(cdb_tiff_base::specs::Pixels::row_place))]
fn place_of_row(image: &Image, bytes: &[u8], r: u32) -> usize
    requires opened { IsOpened bytes.now image.now }
    requires within { r < image.now.length }
    ensures value { result ≡ row_place bytes.now r }
    ensures whole { result + image.now.width * (image.now.bits / 8) ≤ length bytes.now }
{
    let offset = offset_of(bytes, image, r / image.rows_per_strip) as usize;
    let rows_before = (r % image.rows_per_strip) as usize;
    offset + rows_before * image.width as usize * usize::from(image.bits / 8)
}

/// Writes the samples of row `r` of an image, counted from the north, from 0, into `to`, from west to
/// east. `to` has as many places as the image has columns. The samples are whole numbers from -32768 to
/// 65535.
#[tactic(auto, unfolding(cdb_tiff_base::specs::Pixels::pixel))]
pub fn row(image: &Image, bytes: &[u8], r: u32, to: &mut [i32])
    requires opened { IsOpened bytes.now image.now }
    requires within { r < image.now.length }
    requires wide { length to.old ≡ image.now.width }
    ensures { EachIndex to.new (λ c. slice_get to.new c ≡ Some (pixel bytes.now r c)) }
{
    put_samples(image, bytes, place_of_row(image, bytes, r), to);
}
