ghost use Rattle.std.specs.Prelude.{◌*◌, ◌<◌, ◌≤◌, ◌==◌, ◌||◌, IsTrue};

use cdb_tiff_base::{Entry, Order};

/// The image of a TIFF file, opened from the file's bytes.
#[derive(Clone, Copy, Debug, PartialEq, Eq)]
pub struct Image {
    /// Pixels of a row.
    pub width: u32,
    /// Rows.
    pub length: u32,
    /// Bits of a sample: 8 or 16.
    pub bits: u8,
    /// The samples are in two's complement.
    pub signed: bool,
    /// The byte order of the file's numbers, samples among them.
    pub order: Order,
    /// Rows of each strip but the last, which has those that are left.
    pub rows_per_strip: u32,
    /// The entry whose values are the byte places of the strips.
    pub offsets: Entry,
    pub ghost has_columns: { 0 < width },
    pub ghost has_rows: { 0 < length },
    pub ghost width_in_range: { width ≤ 65536 },
    pub ghost length_in_range: { length ≤ 65536 },
    pub ghost pixels_in_range: { width * length ≤ 16777216 },
    pub ghost whole_bytes: { IsTrue (bits == 8 || bits == 16) },
}
