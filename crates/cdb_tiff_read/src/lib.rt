//! A reader of single-band TIFF images of 8 or 16 bits in strips (TIFF 6.0): the rows of an image, or
//! the first cause for which its file is refused, with the byte of the file.
#![tactic(auto)]

mod directory;
mod entries;
mod fields;
mod header;
mod image;
mod reader;
mod samples;
mod strips;

pub use cdb_tiff_base::{Entry, Order, TiffCause, TiffError};
pub use image::Image;
pub use reader::open;
pub use samples::row;
