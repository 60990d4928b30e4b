/// A publication that was begun: its version, and how many files it will have.
#[derive(Clone, Copy, Debug, PartialEq, Eq)]
pub struct Begun {
    pub version: u32,
    pub files: u32,
}

/// A session that was opened: its number, and the version that it answers from.
#[derive(Clone, Copy, Debug, PartialEq, Eq)]
pub struct Opened {
    pub id: u32,
    pub version: u32,
}
