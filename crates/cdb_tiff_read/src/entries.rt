//! The checks of the entries by themselves: their order, their values, and that no tag is one of tiles.
ghost use Rattle.std.specs.Prelude.{◌≡◌, find};
ghost use Rattle.cdb_tiff_base.specs.Causes.{at_entry, bad_kind, bad_order, is_tile_tag, is_unsound, is_used, tiled, unordered};
ghost use Rattle.cdb_tiff_base.specs.Directory.{entries};
ghost use Rattle.cdb_tiff_base.specs.Entries.{is_sound};
ghost use Rattle.cdb_tiff_read.specs.Found.{IsDirectory, pass};

use crate::directory::{Directory, entry_of};
use cdb_tiff_base::tag::{
    BITS_PER_SAMPLE, COMPRESSION, FILL_ORDER, IMAGE_LENGTH, IMAGE_WIDTH, ROWS_PER_STRIP,
    SAMPLE_FORMAT, SAMPLES_PER_PIXEL, STRIP_BYTE_COUNTS, STRIP_OFFSETS, TILE_BYTE_COUNTS,
    TILE_WIDTH,
};
use cdb_tiff_base::{Entry, Order, TiffCause, TiffError, value};

/// The tags whose values are read.
const USED_TAGS: [u16; 10] = [
    IMAGE_WIDTH,
    IMAGE_LENGTH,
    BITS_PER_SAMPLE,
    COMPRESSION,
    FILL_ORDER,
    STRIP_OFFSETS,
    SAMPLES_PER_PIXEL,
    ROWS_PER_STRIP,
    STRIP_BYTE_COUNTS,
    SAMPLE_FORMAT,
];

/// Fails with the cause at this entry, if there is one.
pub fn refuse_entry(cause: TiffCause, entry: Option<Entry>) -> Result<(), TiffError>
    ensures { result ≡ pass (at_entry cause entry) }
{
    match entry {
        Some(entry) => Err(TiffError {
            cause,
            at: u64::from(entry.at),
        }),
        None => Ok(()),
    }
}

/// The first entry whose tag isn't above the tag of the entry before.
#[tactic(auto, using(crate::proofs::FirstEntry::first_pair))]
fn first_unordered(bytes: &[u8], d: Directory) -> Option<Entry>
    requires { IsDirectory bytes.now d }
    ensures { result ≡ unordered (entries bytes.now) }
{
    for k in 0..d.entries.saturating_sub(1) {
        let next = entry_of(bytes, d, k + 1);
        if next.tag <= entry_of(bytes, d, k).tag {
            return Some(next);
        }
    }
    None
}

/// The tags rise from entry to entry.
#[tactic(auto, unfolding(cdb_tiff_base::specs::Causes::bad_order))]
pub fn check_order(bytes: &[u8], d: Directory) -> Result<(), TiffError>
    requires { IsDirectory bytes.now d }
    ensures { result ≡ pass (bad_order bytes.now) }
{
    refuse_entry(TiffCause::Order, first_unordered(bytes, d))
}

/// The entry's type is read, and it has values that are whole in the file.
#[tactic(auto, unfolding(cdb_tiff_base::specs::Entries::is_sound, cdb_tiff_base::specs::Entries::entry_value))]
fn has_values(bytes: &[u8], entry: &Entry, order: Order) -> bool
    ensures { result ≡ is_sound order bytes.now entry.now }
{
    entry.count > 0 && value(bytes, entry, entry.count - 1, order).is_some()
}

fn is_used_tag(tag: u16) -> bool
    ensures { result ≡ is_used tag }
{
    USED_TAGS.contains(&tag)
}

/// The entry has a used tag, and no values that can be read.
#[tactic(auto, unfolding(cdb_tiff_base::specs::Causes::is_unsound))]
fn is_unsound_entry(bytes: &[u8], d: Directory, entry: &Entry) -> bool
    requires { IsDirectory bytes.now d }
    ensures { result ≡ is_unsound bytes.now entry.now }
{
    is_used_tag(entry.tag) && !has_values(bytes, entry, d.order)
}

/// The first entry with a used tag and no values that can be read.
#[tactic(auto, using(crate::proofs::FirstEntry::first_entry))]
fn first_unsound(bytes: &[u8], d: Directory) -> Option<Entry>
    requires { IsDirectory bytes.now d }
    ensures { result ≡ find (is_unsound bytes.now) (entries bytes.now) }
{
    for k in 0..d.entries {
        let entry = entry_of(bytes, d, k);
        if is_unsound_entry(bytes, d, &entry) {
            return Some(entry);
        }
    }
    None
}

/// Each entry with a used tag has values that can be read.
#[tactic(auto, unfolding(cdb_tiff_base::specs::Causes::bad_kind))]
pub fn check_kinds(bytes: &[u8], d: Directory) -> Result<(), TiffError>
    requires { IsDirectory bytes.now d }
    ensures { result ≡ pass (bad_kind bytes.now) }
{
    refuse_entry(TiffCause::Kind, first_unsound(bytes, d))
}

fn is_tag_of_tiles(tag: u16) -> bool
    ensures { result ≡ is_tile_tag tag }
{
    TILE_WIDTH <= tag && tag <= TILE_BYTE_COUNTS
}

/// The first entry with a tag of an image that is cut into tiles.
#[tactic(auto, using(crate::proofs::FirstEntry::first_entry))]
fn first_of_tiles(bytes: &[u8], d: Directory) -> Option<Entry>
    requires { IsDirectory bytes.now d }
    ensures { result ≡ find (λ (e : Entry). is_tile_tag e.tag) (entries bytes.now) }
{
    for k in 0..d.entries {
        let entry = entry_of(bytes, d, k);
        if is_tag_of_tiles(entry.tag) {
            return Some(entry);
        }
    }
    None
}

/// The image isn't cut into tiles.
#[tactic(auto, unfolding(cdb_tiff_base::specs::Causes::tiled))]
pub fn check_tiles(bytes: &[u8], d: Directory) -> Result<(), TiffError>
    requires { IsDirectory bytes.now d }
    ensures { result ≡ pass (tiled bytes.now) }
{
    refuse_entry(TiffCause::Tiled, first_of_tiles(bytes, d))
}
