//! The tags of the entries of a directory, by the names that TIFF 6.0 gives them (section 8; those of
//! tiles in section 15, the format of a sample in section 19), and the types of their values (section 2).

/// Pixels of a row.
pub const IMAGE_WIDTH: u16 = 256;

/// Rows of the image.
pub const IMAGE_LENGTH: u16 = 257;

/// Bits of a sample.
pub const BITS_PER_SAMPLE: u16 = 258;

/// How the strips are compressed, 1 for not at all.
pub const COMPRESSION: u16 = 259;

/// What a sample's number means for its colour, 1 where 0 is black.
pub const PHOTOMETRIC_INTERPRETATION: u16 = 262;

/// The order of the bits in a byte, 1 where the highest comes first.
pub const FILL_ORDER: u16 = 266;

/// The byte place of each strip.
pub const STRIP_OFFSETS: u16 = 273;

/// Samples of a pixel.
pub const SAMPLES_PER_PIXEL: u16 = 277;

/// Rows of each strip but the last, which has those that are left.
pub const ROWS_PER_STRIP: u16 = 278;

/// The bytes of each strip.
pub const STRIP_BYTE_COUNTS: u16 = 279;

/// Pixels of a unit of length along a row.
pub const X_RESOLUTION: u16 = 282;

/// Pixels of a unit of length along a column.
pub const Y_RESOLUTION: u16 = 283;

/// The unit of length of both resolutions, 1 for none.
pub const RESOLUTION_UNIT: u16 = 296;

/// The first of the four tags of an image that is cut into tiles.
pub const TILE_WIDTH: u16 = 322;

/// The last of the four tags of an image that is cut into tiles.
pub const TILE_BYTE_COUNTS: u16 = 325;

/// What kind of number a sample is: 1 without a sign, 2 in two's complement, 3 a floating point number.
pub const SAMPLE_FORMAT: u16 = 339;

/// The type of values of 8 bits without a sign.
pub const BYTE: u16 = 1;

/// The type of values of 16 bits without a sign.
pub const SHORT: u16 = 3;

/// The type of values of 32 bits without a sign.
pub const LONG: u16 = 4;

/// The type of values that are fractions of two numbers of 32 bits.
pub const RATIONAL: u16 = 5;
