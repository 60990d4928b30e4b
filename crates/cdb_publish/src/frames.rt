/// The memory in which the steps of a publication are made.
#[derive(Drop)]
pub struct Frames {
    /// The bytes of a tile's file, or of the rows of a source that a tile takes.
    pub(crate) bytes: Vec<u8>,
    /// The values of a tile, the south row first.
    pub(crate) posts: Vec<i16>,
    /// The posts of these rows, or the values of the earlier tile.
    pub(crate) scratch: Vec<i16>,
}
