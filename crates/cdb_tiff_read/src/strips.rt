//! The strips of an image: their places, the bytes that they need, and the checks of both.
ghost use Rattle.std.specs.Prelude.{◌≡◌, ◌+◌, ◌-◌, ◌*◌, ◌/◌, ◌<◌, ◌≤◌, ◌^◌, ◌||◌, ◌==◌, not, min, length, nat_lt, Some, IfSome, IsSome, OnOk};
ghost use Rattle.cdb_tiff_base.specs.Causes.{bad_strips, lacks_bytes, is_cut_short};
ghost use Rattle.cdb_tiff_base.specs.Directory.{count_of_entry, tag_entry};
ghost use Rattle.cdb_tiff_base.specs.First.{first_below};
ghost use Rattle.cdb_tiff_base.specs.Numbers.{Bytes};
ghost use Rattle.std.specs.Int.{div_ceil};
ghost use Rattle.cdb_tiff_base.specs.Strips.{need, rows_per_strip, strip_byte_count, strip_offset, strips};
ghost use Rattle.cdb_tiff_read.specs.Found.{IsDirectory, pass};
ghost use Rattle.cdb_tiff_read.specs.Opened.{HasTagFields};

use crate::directory::{Directory, find};
use crate::fields::refuse_tag_if;
use crate::image::Image;
use cdb_tiff_base::tag::{STRIP_BYTE_COUNTS, STRIP_OFFSETS};
use cdb_tiff_base::{Entry, TiffCause, TiffError, value};

/// The number of strips.
fn strip_count(image: &Image) -> u32
    requires { 0 < image.now.rows_per_strip }
    ensures { result ≡ div_ceil image.now.length image.now.rows_per_strip }
{
    image.length.div_ceil(image.rows_per_strip)
}

/// The rows of a strip: the rows per strip, or those that are left.
fn rows_of(image: &Image, index: u32) -> u32
    ensures { result ≡ min image.now.rows_per_strip (image.now.length - index * image.now.rows_per_strip) }
{
    let rows_before = u64::from(index) * u64::from(image.rows_per_strip);
    let rows_left = u64::from(image.length).saturating_sub(rows_before);
    image.rows_per_strip.min(rows_left as u32)
}

/// The bytes that the samples of a strip need.
#[tactic(auto, unfolding(cdb_tiff_base::specs::Strips::need, cdb_tiff_base::specs::Strips::strip_rows))]
fn need_of(image: &Image, index: u32) -> u64
    ensures value { (b : Bytes) → HasTagFields b image.now → result ≡ need b index }
    ensures small { result ≤ 2 ^ 33 }
{
    let rows = rows_of(image, index);
    u64::from(rows) * u64::from(image.width) * u64::from(image.bits / 8)
}

/// The byte place of a strip.
#[tactic(auto, unfolding(cdb_tiff_base::specs::Strips::strip_offset, cdb_tiff_base::specs::Directory::value_or))]
pub fn offset_of(bytes: &[u8], image: &Image, index: u32) -> u32
    requires { HasTagFields bytes.now image.now }
    ensures { result ≡ strip_offset bytes.now index }
{
    value(bytes, &image.offsets, index, image.order).unwrap_or(0)
}

/// The strip has fewer bytes than its samples need.
#[tactic(auto, unfolding(cdb_tiff_base::specs::Strips::strip_byte_count, cdb_tiff_base::specs::Directory::value_or))]
fn strip_lacks_bytes(bytes: &[u8], image: &Image, counts: &Entry, index: u32) -> bool
    requires fields { HasTagFields bytes.now image.now }
    requires counts { tag_entry bytes.now STRIP_BYTE_COUNTS ≡ Some counts.now }
    ensures { result ≡ nat_lt (strip_byte_count bytes.now index) (need bytes.now index) }
{
    let count = value(bytes, counts, index, image.order).unwrap_or(0);
    u64::from(count) < need_of(image, index)
}

/// The first strip that has fewer bytes than its samples need.
#[tactic(auto, using(crate::proofs::First::loops))]
fn first_lacking(bytes: &[u8], image: &Image, counts: &Entry, strips: u32) -> Option<u32>
    requires fields { HasTagFields bytes.now image.now }
    requires counts { tag_entry bytes.now STRIP_BYTE_COUNTS ≡ Some counts.now }
    ensures { result ≡ first_below (λ k. nat_lt (strip_byte_count bytes.now k) (need bytes.now k)) strips }
{
    for k in 0..strips {
        if strip_lacks_bytes(bytes, image, counts, k) {
            return Some(k);
        }
    }
    None
}

/// The strips aren't those of the image.
#[tactic(auto, unfolding(cdb_tiff_base::specs::Strips::strips, cdb_tiff_base::specs::Causes::lacks_bytes, cdb_tiff_base::specs::Directory::count_of_entry))]
fn has_bad_strips(bytes: &[u8], image: &Image, counts: &Entry) -> bool
    requires fields { HasTagFields bytes.now image.now }
    requires counts { tag_entry bytes.now STRIP_BYTE_COUNTS ≡ Some counts.now }
    ensures { result ≡ (rows_per_strip bytes.now == 0 ||
        (not (count_of_entry bytes.now STRIP_OFFSETS == strips bytes.now) ||
        (not (count_of_entry bytes.now STRIP_BYTE_COUNTS == strips bytes.now) || lacks_bytes bytes.now))) }
{
    if image.rows_per_strip == 0 {
        return true;
    }
    let strips = strip_count(image);
    if image.offsets.count != strips || counts.count != strips {
        return true;
    }
    first_lacking(bytes, image, counts, strips).is_some()
}

/// The strips are those of the image, and each has the bytes that its samples need.
#[tactic(auto, unfolding(cdb_tiff_base::specs::Causes::bad_strips))]
pub fn check_strips(bytes: &[u8], d: Directory, image: &Image) -> Result<(), TiffError>
    requires directory { IsDirectory bytes.now d }
    requires fields { HasTagFields bytes.now image.now }
    requires byte_counts { IsSome (tag_entry bytes.now STRIP_BYTE_COUNTS) }
    ensures row { result ≡ pass (bad_strips bytes.now) }
    ensures has_rows { OnOk result (0 < image.now.rows_per_strip) }
{
    let Some(counts) = find(bytes, d, STRIP_BYTE_COUNTS) else {
        unreachable!();
    };
    let bad = has_bad_strips(bytes, image, &counts);
    refuse_tag_if(bad, bytes, d, TiffCause::Strips, STRIP_OFFSETS)
}

/// The strip's samples end past the end of the file.
fn is_short(bytes: &[u8], image: &Image, index: u32) -> bool
    requires { HasTagFields bytes.now image.now }
    ensures { result ≡ nat_lt (length bytes.now) (strip_offset bytes.now index + need bytes.now index) }
{
    let offset = u64::from(offset_of(bytes, image, index));
    (bytes.len() as u64) < offset + need_of(image, index)
}

/// The first strip whose samples end past the end of the file.
#[tactic(auto, using(crate::proofs::First::loops))]
fn first_short(bytes: &[u8], image: &Image, strips: u32) -> Option<u32>
    requires { HasTagFields bytes.now image.now }
    ensures { result ≡
        first_below (λ k. nat_lt (length bytes.now) (strip_offset bytes.now k + need bytes.now k)) strips }
{
    for k in 0..strips {
        if is_short(bytes, image, k) {
            return Some(k);
        }
    }
    None
}

/// The samples of each strip end within the file.
#[tactic(auto, unfolding(cdb_tiff_base::specs::Strips::strips, cdb_tiff_base::specs::Causes::is_cut_short))]
pub fn check_short(bytes: &[u8], image: &Image) -> Result<(), TiffError>
    requires fields { HasTagFields bytes.now image.now }
    requires has_rows { 0 < image.now.rows_per_strip }
    ensures { result ≡ pass (is_cut_short bytes.now) }
{
    let strips = strip_count(image);
    match first_short(bytes, image, strips) {
        Some(k) => Err(TiffError {
            cause: TiffCause::Short,
            at: u64::from(offset_of(bytes, image, k)),
        }),
        None => Ok(()),
    }
}
