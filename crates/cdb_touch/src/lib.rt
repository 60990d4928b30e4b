//! The tiles of a store that a source reaches, and those that a publication touches.
#![tactic(auto)]

mod axis;
mod gather;
mod head;
mod heights;
mod loads;
mod reach;
mod rectangle;
mod tiles;
mod touch;

pub use cdb_source::{MOST_LOAD, kind_of};
pub use loads::load;
pub use reach::{reached, reaches};
pub use touch::{TouchError, touched};
