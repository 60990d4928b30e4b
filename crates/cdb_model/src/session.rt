/// An open session: its number, and the version that it answers from.
#[derive(Clone, Copy, Debug, PartialEq, Eq)]
pub struct Session {
    pub id: u32,
    pub version: u32,
}
