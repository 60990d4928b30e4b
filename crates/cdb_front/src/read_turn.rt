use crate::exit_status::Status;

/// What became of one read of the input.
#[derive(Clone, Copy, Debug, PartialEq, Eq)]
pub enum Turned {
    /// So many bytes were taken, and more may come.
    Taken(usize),
    Stopped(Status),
}
