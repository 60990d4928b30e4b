//! The engine of a store on a disk: sources, publications and sessions. Each call is one step of the
//! machine that `cdb_model` defines. A store is filled with the publications of a generator by such calls.
#![tactic(auto)]

mod begin;
mod check;
mod drawn_publication;
mod drawn_sources;
mod engine;
mod errors;
mod file;
mod filling;
mod head_words;
mod image_rows;
mod open;
mod posts;
mod publish;
mod reply;
mod room;
mod settle;
mod source_file;
mod tile_sums;

pub use cdb_chain::OpenError;
pub use cdb_check::{Agreed, CheckError};
pub use cdb_model::{InlineWords as InlineOrder, LoadWords as LoadOrder};
pub use cdb_publish::Progress;
pub use cdb_sessions::{Reply, SessionError, TileError, Unknown};
pub use cdb_source::{Kind, Source};
pub use drawn_publication::{Published, publish_one};
pub use engine::Engine;
pub use errors::{
    AdvanceError, InlineError, LoadError, PopulateError, PublishError, ReadyError, SubmitRefused,
};
pub use filling::{Made, populate};
pub use reply::{Begun, Opened};
