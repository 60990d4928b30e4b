//! The lines of the script and the option words: what they say, read from their bytes.
#![tactic(auto)]

mod command;
mod fields;
mod fraction;
mod given;
mod head;
mod laws;
mod numbers;
mod options;
mod parsed;
mod path;
mod posts;
mod reading;
mod sources;
mod words;
mod words_error;

pub use cdb_model::{InlineWords, Line, LineError, LoadWords};
pub use laws::{one_reading, reading_is_worded, writing_reads_back};
pub use options::{Mode, Options, read_words};
pub use reading::read_line;
pub use words_error::WordsError;
