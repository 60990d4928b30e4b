//! The program over any input and any output: lines in, answers out.
#![tactic(auto)]

mod answer_text;
mod answers;
mod checked_run;
mod end_run;
mod engine_calls;
mod engine_lines;
mod exit_status;
mod fed;
mod filled_run;
mod heard;
mod input;
mod line_maker;
mod mem_input;
mod mem_output;
mod opened_run;
mod output;
mod read_kept;
mod read_turn;
mod results;
mod run_laws;
mod say_answer;
mod script;
mod script_lines;
mod source_lines;
mod steps;
mod store_calls;
mod worded_run;
mod write;

pub use cdb_files::Failed;
pub use exit_status::{Limit, Status};
pub use input::Input;
pub use mem_input::MemInput;
pub use mem_output::MemOutput;
pub use output::Output;
pub use run_laws::{
    check_completeness, completeness, continues, fill_completeness, headline, serves_tiles,
};
pub use worded_run::cdb_run;
