//! Cuts values out of sources.
#![tactic(auto)]

mod average;
mod axis;
mod blend;
mod copying;
mod folding;
pub mod laws;
mod paint_rows;
mod painting;
mod raster;
mod sampling;
mod source_rows;
mod tile_part;
mod walk;

pub use copying::copy_part;
pub use folding::{clear, elevation_tile, fold};
pub use painting::paint;
pub use sampling::{sample, sample_at};
pub use source_rows::{Rows, window};
