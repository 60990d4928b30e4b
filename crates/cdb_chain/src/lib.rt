//! The versions of a store by their records, and where a tile is looked up.
#![tactic(auto)]

mod chain;
pub mod laws;
mod open_error;
mod opening;
mod place;

pub use chain::Chain;
pub use open_error::OpenError;
pub use place::Place;
