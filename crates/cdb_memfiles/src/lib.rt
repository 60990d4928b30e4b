//! Disks and a shelf in memory, which keep the file model and fail where they are told to.
#![tactic(auto)]

mod call;
mod crash;
mod files;
mod fuse;
mod mem_disk;
mod pick;
mod record;
mod schedule;
mod shelf;
mod standing;
mod standings;

pub use fuse::Fuse;
pub use mem_disk::MemDisk;
pub use pick::Pick;
pub use shelf::MemShelf;
