/// A text that is no file name or no path of a tile: `place` is the byte of the text, from 0, at which
/// its first wrong field begins.
#[derive(Clone, Copy, Debug, PartialEq, Eq)]
pub struct NameError {
    pub place: u32,
}
