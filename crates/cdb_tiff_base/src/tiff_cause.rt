ghost use Rattle.std.specs.Prelude.{Some};

use std::fmt;

/// Why a TIFF file is refused, in the order in which the causes are looked for. Its `Display` is the
/// cause's word, with the tag after `absent`.
#[derive(Clone, Copy, Debug, PartialEq, Eq)]
pub enum TiffCause {
    /// The first bytes are no TIFF header.
    NotTiff,
    /// The header is that of a BigTIFF file.
    BigTiff,
    /// The first directory isn't whole in the file.
    Directory,
    /// The tags of the entries don't rise.
    Order,
    /// An entry has a type that isn't BYTE, SHORT or LONG, no value, or values past the file's end.
    Kind,
    /// The image is cut into tiles (TIFF 6.0 section 15).
    Tiled,
    /// The entry of this tag isn't there.
    Absent(u16),
    /// The strips are compressed.
    Compressed,
    /// A pixel has several samples.
    Samples,
    /// The samples are floating point numbers.
    Float,
    /// The bits of a sample, their format or their order in a byte is none that is read.
    Bits,
    /// The width or the length is 0 or too large.
    Size,
    /// The strips aren't those of the image: their counts or a byte count don't fit.
    Strips,
    /// A strip ends past the file's end.
    Short,
}

impl TiffCause {
    ghost use Rattle.std.specs.Prelude.{◌≡◌, ◌≤◌, length};
    ghost use Rattle.cdb_tiff_base.specs.Words.{name_of};

    /// The name of the cause, without the tag that `absent` speaks of.
    pub fn name(&self) -> &'static str
        ensures name { result.now ≡ name_of self.now }
        ensures short { length result.now ≤ 10 }
    {
        match self {
            TiffCause::NotTiff => "nottiff",
            TiffCause::BigTiff => "bigtiff",
            TiffCause::Directory => "directory",
            TiffCause::Order => "order",
            TiffCause::Kind => "kind",
            TiffCause::Tiled => "tiled",
            TiffCause::Absent(_) => "absent",
            TiffCause::Compressed => "compressed",
            TiffCause::Samples => "samples",
            TiffCause::Float => "float",
            TiffCause::Bits => "bits",
            TiffCause::Size => "size",
            TiffCause::Strips => "strips",
            TiffCause::Short => "short",
        }
    }
}

impl fmt::Display for TiffCause {
    ghost use Rattle.cdb_tiff_base.specs.Words.{word_of};

    ghost output = { λ c. Some (word_of c) };

    fn fmt<W: fmt::Write>(&self, f: &mut fmt::Formatter<W>) -> fmt::Result {
        f.write_str(self.name())?;
        match self {
            TiffCause::Absent(tag) => write!(f, " {tag}"),
            _ => Ok(()),
        }
    }
}
