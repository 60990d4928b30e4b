//! The record of a publication, and the file that names the newest version.
#![tactic(auto)]

mod decoding;
mod encoding;
mod entry;
mod fields;
mod head_file;
pub mod laws;
mod limits;
mod record_;
mod record_error;

pub use decoding::decode;
pub use encoding::encode;
pub use head_file::{read_head, write_head};
pub use limits::{MOST_SOURCES, RECORD_BYTES};
pub use record_::{Heads, Record, Tiles};
pub use record_error::RecordError;
