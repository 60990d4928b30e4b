//! What a crash leaves of a store: definitions, and their laws.
#![tactic(auto)]

pub mod laws;
