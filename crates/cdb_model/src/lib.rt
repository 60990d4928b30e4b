//! The plain data of the store, and the definitions that every other crate is proved against.
#![tactic(auto)]

mod laws;
mod limits;
mod line;
mod line_error;
mod name_error;
mod session;

pub use laws::{
    acknowledged_complete, begun_from_store, begun_in_order, free_answers, halted_begins_none,
    halts_by_fault, many_steps, one_answer, plain_answers, sessions_stay,
};
pub use limits::{MOST_TILE_BYTES, MOST_TILE_VALUES, MOST_VERSIONS, TILE_HEAD_BYTES};
pub use line::{InlineWords, Line, LoadWords};
pub use line_error::LineError;
pub use name_error::NameError;
pub use session::Session;
