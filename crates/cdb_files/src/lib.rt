//! The disk and the shelf that the store is written to and read from, each a trait whose ghost
//! members are its model: what it holds, and what a crash may leave of it.
#![tactic(auto)]

mod disk;
mod failed;
mod folder;
mod path;
mod shelf;
mod whole;

pub use disk::Disk;
pub use failed::Failed;
pub use folder::folder_above;
pub use path::Path;
pub use shelf::Shelf;
pub use whole::{ReadSize, fill, read_whole, write_whole};
