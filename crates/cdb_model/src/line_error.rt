/// Why the bytes of a line say nothing.
#[derive(Clone, Copy, Debug, PartialEq, Eq)]
pub enum LineError {
    /// The line isn't of the grammar.
    Syntax,
    /// The line is of the grammar, and its file name isn't that of a tile: `place` is the byte of the
    /// file name, from 0, at which its first wrong field begins.
    Name { place: u32 },
}
