//! Builds one tile from sources alone, place by place after the definitions of its values.
#![tactic(auto)]

mod cell;
mod elevation;
mod frame;
mod material;
mod places;
mod reach;

pub use frame::build;
