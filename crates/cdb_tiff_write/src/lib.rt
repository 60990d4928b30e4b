//! The bytes of a written tile: a TIFF 6.0 file of one strip without compression.
#![tactic(auto)]

mod filling;
mod folding;
pub mod laws;
mod raster;
mod reading;
mod samples;
mod size;
mod tile_file;
mod tile_head;

pub use filling::fill_file;
pub use folding::fold_file;
pub use raster::{put_row_8, put_row_16};
pub use reading::posts_of;
pub use size::{bits, tile_size};
pub use tile_file::put_file;
pub use tile_head::head;
