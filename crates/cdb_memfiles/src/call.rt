use cdb_files::Path;

/// A call that a disk in memory answered with Ok, or what a crash left.
#[derive(Drop)]
pub enum Call {
    MakeDir(Path),
    Create(Path),
    Append(Path, Vec<u8>),
    SyncFile(Path),
    SyncDir(Path),
    Rename(Path, Path),
    Remove(Path),
    /// A file that a crash left, with its bytes.
    Restore(Path, Vec<u8>),
}
