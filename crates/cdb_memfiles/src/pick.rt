/// What a crash leaves of what it may leave.
#[derive(Clone, Copy, Debug, PartialEq, Eq)]
pub enum Pick {
    /// What is there at present.
    Newest,
    /// The first possibility of each path, and absence where anything may be left.
    Oldest,
    /// What is there at present, and the first half of it where anything may be left.
    Torn,
}
