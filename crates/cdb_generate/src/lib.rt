//! A generator of publications, and the sum of the values in their tiles.
#![tactic(auto)]

mod draws;
mod heads;
pub mod laws;
mod sources;
mod sums;

pub use draws::draw;
pub use sources::draw_publication;
pub use sums::sum_posts;
