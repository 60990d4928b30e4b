//! The first directory of a file: its entries by index and by tag, and the values of its tags.
ghost use Rattle.std.specs.Prelude.{◌≡◌, ◌<◌};
ghost use Rattle.cdb_tiff_base.specs.Directory.{entry, tag_entry, value_or};
ghost use Rattle.cdb_tiff_read.specs.Found.{IsDirectory};

use cdb_tiff_base::{Entry, Order, read_entry, value};

/// The first directory of a file: the byte order of its numbers, its place and its number of entries.
#[derive(Clone, Copy)]
pub struct Directory {
    pub order: Order,
    pub at: u32,
    pub entries: u16,
}

/// The entry at an index, from 0.
#[tactic(auto, unfolding(cdb_tiff_base::specs::Directory::entry))]
pub fn entry_of(bytes: &[u8], d: Directory, index: u16) -> Entry
    requires directory { IsDirectory bytes.now d }
    requires within { index < d.entries }
    ensures { result ≡ entry bytes.now index }
{
    match read_entry(bytes, d.at + 2 + 12 * u32::from(index), d.order) {
        Some(entry) => entry,
        None => unreachable!(),
    }
}

/// The first entry with a tag, if there is one.
#[tactic(auto, unfolding(cdb_tiff_base::specs::Directory::tag_entry), using(crate::proofs::FirstEntry::first_entry))]
pub fn find(bytes: &[u8], d: Directory, tag: u16) -> Option<Entry>
    requires { IsDirectory bytes.now d }
    ensures { result ≡ tag_entry bytes.now tag }
{
    for k in 0..d.entries {
        let entry = entry_of(bytes, d, k);
        if entry.tag == tag {
            return Some(entry);
        }
    }
    None
}

/// The first value of a tag's entry, or the tag's default.
#[tactic(auto, unfolding(cdb_tiff_base::specs::Directory::value_or))]
pub fn first_value(bytes: &[u8], d: Directory, tag: u16, default: u32) -> u32
    requires { IsDirectory bytes.now d }
    ensures { result ≡ value_or bytes.now tag 0 default }
{
    match find(bytes, d, tag) {
        Some(entry) => value(bytes, &entry, 0, d.order).unwrap_or(default),
        None => default,
    }
}
