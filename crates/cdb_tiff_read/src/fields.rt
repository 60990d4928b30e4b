//! The checks of what the tags say of the image, and the image that they give.
ghost use Rattle.std.specs.Prelude.{◌≡◌, ◌==◌, ◌*◌, ◌^◌, ◌≤◌, ◌<◌, not, IsSome, IsTrue, OnOk, is_none};
ghost use Rattle.cdb_tiff_base.specs.Causes.{absent, applies, at_tag, bad_bits, bad_size, compressed, floating, is_readable, is_size, several_samples};
ghost use Rattle.cdb_tiff_base.specs.Directory.{directory, tag_entry};
ghost use Rattle.cdb_tiff_base.specs.Strips.{bits_per_sample, compression, fill_order, image_length, image_width, rows_per_strip, sample_format, samples_per_pixel};
ghost use Rattle.cdb_tiff_read.specs.Opened.{HasTagFields};
ghost use Rattle.cdb_tiff_read.specs.Found.{IsDirectory, pass};

use crate::directory::{Directory, find, first_value};
use crate::entries::refuse_entry;
use crate::header::refuse_if;
use crate::image::Image;
use cdb_tiff_base::tag::{
    BITS_PER_SAMPLE, COMPRESSION, FILL_ORDER, IMAGE_LENGTH, IMAGE_WIDTH, ROWS_PER_STRIP,
    SAMPLE_FORMAT, SAMPLES_PER_PIXEL, STRIP_BYTE_COUNTS, STRIP_OFFSETS,
};
use cdb_tiff_base::{TiffCause, TiffError};

/// The greatest width, and the greatest length.
const GREATEST_SIDE: u32 = 65_536;

/// The greatest number of pixels.
const MOST_PIXELS: u64 = 16_777_216;

/// The entry of the tag is there.
fn check_tag(bytes: &[u8], d: Directory, tag: u16) -> Result<(), TiffError>
    requires { IsDirectory bytes.now d }
    ensures { result ≡ pass (applies (is_none (tag_entry bytes.now tag)) (TiffCause.Absent tag) (directory bytes.now)) }
{
    let missing = find(bytes, d, tag).is_none();
    refuse_if(missing, TiffCause::Absent(tag), d.at)
}

/// The tags without a default are there.
#[tactic(auto, unfolding(cdb_tiff_base::specs::Causes::absent))]
pub fn check_absent(bytes: &[u8], d: Directory) -> Result<(), TiffError>
    requires { IsDirectory bytes.now d }
    ensures row { result ≡ pass (absent bytes.now) }
    ensures offsets { OnOk result (IsSome (tag_entry bytes.now STRIP_OFFSETS)) }
    ensures byte_counts { OnOk result (IsSome (tag_entry bytes.now STRIP_BYTE_COUNTS)) }
{
    check_tag(bytes, d, IMAGE_WIDTH)?;
    check_tag(bytes, d, IMAGE_LENGTH)?;
    check_tag(bytes, d, STRIP_OFFSETS)?;
    check_tag(bytes, d, STRIP_BYTE_COUNTS)
}

/// Fails with the cause at the entry of the tag where the test holds and the entry is there.
pub fn refuse_tag_if(
    test: bool,
    bytes: &[u8],
    d: Directory,
    cause: TiffCause,
    tag: u16,
) -> Result<(), TiffError>
    requires { IsDirectory bytes.now d }
    ensures { result ≡ pass (at_tag bytes.now test cause tag) }
{
    if !test {
        return Ok(());
    }
    refuse_entry(cause, find(bytes, d, tag))
}

/// The strips aren't compressed.
#[tactic(auto, unfolding(cdb_tiff_base::specs::Causes::compressed, cdb_tiff_base::specs::Strips::compression))]
pub fn check_compression(bytes: &[u8], d: Directory) -> Result<(), TiffError>
    requires { IsDirectory bytes.now d }
    ensures { result ≡ pass (compressed bytes.now) }
{
    let compression = first_value(bytes, d, COMPRESSION, 1);
    refuse_tag_if(
        compression != 1,
        bytes,
        d,
        TiffCause::Compressed,
        COMPRESSION,
    )
}

/// A pixel has one sample.
#[tactic(auto, unfolding(cdb_tiff_base::specs::Causes::several_samples, cdb_tiff_base::specs::Strips::samples_per_pixel))]
pub fn check_samples(bytes: &[u8], d: Directory) -> Result<(), TiffError>
    requires { IsDirectory bytes.now d }
    ensures { result ≡ pass (several_samples bytes.now) }
{
    let samples = first_value(bytes, d, SAMPLES_PER_PIXEL, 1);
    refuse_tag_if(
        samples != 1,
        bytes,
        d,
        TiffCause::Samples,
        SAMPLES_PER_PIXEL,
    )
}

/// The samples aren't floating point numbers.
#[tactic(auto, unfolding(cdb_tiff_base::specs::Causes::floating, cdb_tiff_base::specs::Strips::sample_format))]
pub fn check_format(bytes: &[u8], d: Directory) -> Result<(), TiffError>
    requires { IsDirectory bytes.now d }
    ensures { result ≡ pass (floating bytes.now) }
{
    let format = first_value(bytes, d, SAMPLE_FORMAT, 1);
    refuse_tag_if(format == 3, bytes, d, TiffCause::Float, SAMPLE_FORMAT)
}

fn has_readable_samples(bits: u32, format: u32, fill: u32) -> bool
    ensures { result ≡ is_readable bits format fill }
{
    (bits == 8 || bits == 16) && (format == 1 || format == 2) && fill == 1
}

/// The samples have 8 or 16 bits, are integers, and stand with their highest bit first.
#[tactic(auto, unfolding(cdb_tiff_base::specs::Causes::bad_bits, cdb_tiff_base::specs::Strips::bits_per_sample, cdb_tiff_base::specs::Strips::sample_format, cdb_tiff_base::specs::Strips::fill_order))]
pub fn check_bits(bytes: &[u8], d: Directory) -> Result<(), TiffError>
    requires { IsDirectory bytes.now d }
    ensures row { result ≡ pass (bad_bits bytes.now) }
    ensures readable { OnOk result
        (IsTrue (is_readable (bits_per_sample bytes.now) (sample_format bytes.now) (fill_order bytes.now))) }
{
    let bits = first_value(bytes, d, BITS_PER_SAMPLE, 1);
    let format = first_value(bytes, d, SAMPLE_FORMAT, 1);
    let fill = first_value(bytes, d, FILL_ORDER, 1);
    refuse_if(
        !has_readable_samples(bits, format, fill),
        TiffCause::Bits,
        d.at,
    )
}

fn has_image_size(width: u32, length: u32) -> bool
    ensures { result ≡ is_size width length }
{
    0 < width
        && width <= GREATEST_SIDE
        && 0 < length
        && length <= GREATEST_SIDE
        && u64::from(width) * u64::from(length) <= MOST_PIXELS
}

/// The width and the length are neither 0 nor too large.
#[tactic(auto, unfolding(cdb_tiff_base::specs::Causes::bad_size, cdb_tiff_base::specs::Strips::image_width, cdb_tiff_base::specs::Strips::image_length))]
pub fn check_size(bytes: &[u8], d: Directory) -> Result<(), TiffError>
    requires { IsDirectory bytes.now d }
    ensures row { result ≡ pass (bad_size bytes.now) }
    ensures size { OnOk result (IsTrue (is_size (image_width bytes.now) (image_length bytes.now))) }
{
    let width = first_value(bytes, d, IMAGE_WIDTH, 0);
    let length = first_value(bytes, d, IMAGE_LENGTH, 0);
    refuse_if(!has_image_size(width, length), TiffCause::Size, d.at)
}

/// The image that the tags give, which have been checked.
#[tactic(auto, unfolding(cdb_tiff_base::specs::Strips::image_width, cdb_tiff_base::specs::Strips::image_length, cdb_tiff_base::specs::Strips::bits_per_sample, cdb_tiff_base::specs::Strips::sample_format, cdb_tiff_base::specs::Strips::rows_per_strip))]
pub fn image_of(bytes: &[u8], d: Directory) -> Image
    requires directory { IsDirectory bytes.now d }
    requires offsets { IsSome (tag_entry bytes.now STRIP_OFFSETS) }
    requires readable { IsTrue
        (is_readable (bits_per_sample bytes.now) (sample_format bytes.now) (fill_order bytes.now)) }
    requires size { IsTrue (is_size (image_width bytes.now) (image_length bytes.now)) }
    ensures { HasTagFields bytes.now result }
{
    let Some(offsets) = find(bytes, d, STRIP_OFFSETS) else {
        unreachable!();
    };
    Image {
        width: first_value(bytes, d, IMAGE_WIDTH, 0),
        length: first_value(bytes, d, IMAGE_LENGTH, 0),
        bits: first_value(bytes, d, BITS_PER_SAMPLE, 1) as u8,
        signed: first_value(bytes, d, SAMPLE_FORMAT, 1) == 2,
        order: d.order,
        rows_per_strip: first_value(bytes, d, ROWS_PER_STRIP, u32::MAX),
        offsets,
    }
}
