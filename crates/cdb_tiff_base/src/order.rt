/// The order of the bytes of each number in a TIFF file (TIFF 6.0 section 2, image file header).
#[derive(Clone, Copy, Debug, PartialEq, Eq)]
pub enum Order {
    /// `II`: the lowest byte first.
    Little,
    /// `MM`: the highest byte first.
    Big,
}
