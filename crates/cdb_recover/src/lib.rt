//! Recovery of a store from whatever a stop left: the newest version stays, and what was left of a
//! version that wasn't published goes.
#![tactic(auto)]

mod calls;
mod clearing;
mod head;
mod recover_error;
mod recovery;

pub use recover_error::RecoverError;
pub use recovery::recover;
