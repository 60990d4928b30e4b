ghost use Rattle.std.specs.Prelude.{Some};

use crate::tiff_cause::TiffCause;
use std::fmt;

/// The first cause for which a TIFF file is refused, and the byte of the file that it speaks of, from
/// 0. Its `Display` is the cause's word and that byte.
#[derive(Clone, Copy, Debug, PartialEq, Eq)]
pub struct TiffError {
    pub cause: TiffCause,
    pub at: u64,
}

impl fmt::Display for TiffError {
    ghost use Rattle.cdb_tiff_base.specs.Words.{error_text};

    ghost output = { λ e. Some (error_text e) };

    fn fmt<W: fmt::Write>(&self, f: &mut fmt::Formatter<W>) -> fmt::Result {
        write!(f, "{} {}", self.cause, self.at)
    }
}
