//! A publication over a disk, step by step.
#![tactic(auto)]

mod advance;
mod errors;
mod folders;
mod folding;
mod frames;
mod head_step;
pub mod laws;
mod left;
mod look_up;
mod make_step;
mod older;
mod outline;
mod plan;
mod planning;
mod publication;
mod reads;
mod record_step;
mod room;
mod source_file;
mod tile_maker;
mod tile_read;
mod tile_values;
mod windows;
mod work;

pub use errors::{PlanError, Progress, StepError};
pub use planning::PlanRefused;
pub use publication::Publication;
