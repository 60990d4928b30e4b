//! Sources of elevations and of materials: rasters of posts on the globe, from which the tiles of
//! a store take their values.
#![tactic(auto)]

mod decode_error;
mod decoding;
mod encoding;
mod families;
mod head;
mod kind;
pub mod laws;
mod limits;
mod maker;
mod posts;
mod row;
mod runs;
mod source;
mod span;

pub use decode_error::DecodeError;
pub use decoding::{decode, decode_head};
pub use encoding::{FIRST_BYTES, encode_head, encode_row};
pub use families::kind_of;
pub use head::SourceHead;
pub use kind::Kind;
pub use limits::{MOST_LOAD, SOURCE_FRONT_BYTES};
pub use maker::{Range, SourceMaker};
pub use posts::Posts;
pub use runs::decode_posts;
pub use source::Source;
