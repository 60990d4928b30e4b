//! The entries of a TIFF file's directory and their values, by position in the bytes, and the causes
//! for which a file is refused (TIFF 6.0 section 2).
#![tactic(auto)]

mod entry;
mod number;
mod order;
pub mod tag;
mod tiff_cause;
mod tiff_error;
mod written_tile;

pub use entry::{Entry, read_entry, value};
pub use number::{read_u16, read_u32};
pub use order::Order;
pub use tiff_cause::TiffCause;
pub use tiff_error::TiffError;
pub use written_tile::written_tile_is_read;
