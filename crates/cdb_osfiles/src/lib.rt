//! The disk and the shelf over real folders. They tell nothing of what they hold, and count their
//! failures: what a file system does is trusted and not proved.
#![tactic(auto)]

mod calls;
mod faults;
mod first;
mod folders;
mod last_search;
mod listing;
mod os_disk;
mod os_shelf;
mod place;

pub use os_disk::OsDisk;
pub use os_shelf::OsShelf;
