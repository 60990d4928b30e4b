//! The check of a store: each record, source file and tile against what the records and the source
//! files give.
#![tactic(auto)]

mod compare;
mod files;
mod kept;
pub mod laws;
mod making;
mod outcome;
mod painting;
mod room;
mod versions;

pub use outcome::{Agreed, CheckError};
pub use versions::check;
