/// An element of a tile: its row from the south and its column from the west, from 0.
#[derive(Clone, Copy, Debug, PartialEq, Eq)]
pub struct Spot {
    pub row: u32,
    pub col: u32,
}
