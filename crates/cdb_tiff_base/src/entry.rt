//! An entry of a directory, read from its place, and the values of an entry.
ghost use Rattle.std.specs.Prelude.{◌≡◌, ◌+◌, ◌≤◌, length, SomeIff};
ghost use Rattle.cdb_tiff_base.specs.Entries.{entry_at, type_size, entry_value, values};

use crate::number::{read_u16, read_u32};
use crate::order::Order;
use crate::tag::{BYTE, LONG, SHORT};

/// An entry of a directory: 12 bytes from the byte `at` of the file on (TIFF 6.0 section 2, IFD entry).
#[derive(Clone, Copy, Debug, PartialEq, Eq)]
pub struct Entry {
    /// The entry's first byte in the file, from 0.
    pub at: u32,
    /// What the entry says of the image, as 256 for its width.
    pub tag: u16,
    /// The type of its values: 1 BYTE, 3 SHORT, 4 LONG.
    pub kind: u16,
    /// The number of its values.
    pub count: u32,
    /// The values from the left on where they take at most four bytes, else the place of the values.
    pub field: [u8; 4],
}

/// The entry whose 12 bytes begin at the byte `at`; none where the file ends before them.
pub fn read_entry(bytes: &[u8], at: u32, order: Order) -> Option<Entry>
    ensures { SomeIff result (at + 12 ≤ length bytes.now) (entry_at order bytes.now at) }
{
    let from = at as usize;
    if bytes.len() < from + 12 {
        return None;
    }
    Some(Entry {
        at,
        tag: read_u16(&bytes[from..], order),
        kind: read_u16(&bytes[from + 2..], order),
        count: read_u32(&bytes[from + 4..], order),
        field: [
            bytes[from + 8],
            bytes[from + 9],
            bytes[from + 10],
            bytes[from + 11],
        ],
    })
}

/// The value at an index, from 0, of an entry whose type is BYTE, SHORT or LONG; none where the type is
/// another, the index isn't below the entry's count, or the value isn't whole in the file.
#[tactic(auto, unfolding(crate::specs::Entries::entry_value))]
pub fn value(bytes: &[u8], entry: &Entry, index: u32, order: Order) -> Option<u32>
    ensures { result ≡ entry_value order bytes.now entry.now index }
{
    let size = value_size(entry.kind);
    if index >= entry.count {
        return None;
    }
    let values = values_of(bytes, entry, order);
    let from = index as usize * size;
    if values.len() < from + size {
        return None;
    }
    match size {
        1 => Some(u32::from(values[from])),
        2 => Some(u32::from(read_u16(&values[from..], order))),
        4 => Some(read_u32(&values[from..], order)),
        _ => None,
    }
}

/// The bytes of one value of a type, 0 for a type that isn't read.
fn value_size(kind: u16) -> usize
    ensures value { result ≡ type_size kind }
    ensures small { result ≤ 4 }
{
    match kind {
        BYTE => 1,
        SHORT => 2,
        LONG => 4,
        _ => 0,
    }
}

/// The bytes in which an entry's values stand, from the first value on.
fn values_of<'a>(bytes: &'a [u8], entry: &'a Entry, order: Order) -> &'a [u8]
    ensures { result.now ≡ values order bytes.now entry.now }
{
    if entry.count as usize * value_size(entry.kind) <= 4 {
        return &entry.field;
    }
    let place = read_u32(&entry.field, order) as usize;
    if bytes.len() < place {
        return &[];
    }
    &bytes[place..]
}
