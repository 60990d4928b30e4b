//! The tiles among the answers of a run.

/// The bytes after the line at the head of these, and that line.
fn line_after(bytes: &[u8]) -> Option<(&[u8], &[u8])> {
    let end = bytes.iter().position(|byte| *byte == b'\n')?;
    let (line, rest) = bytes.split_at(end.min(bytes.len()));
    let (_, rest) = rest.split_first()?;
    Some((line, rest))
}

/// The number that a line gives after `tile`.
fn tile_length(line: &[u8]) -> Option<usize> {
    let digits = line.strip_prefix(b"tile ".as_slice())?;
    let mut length = 0usize;
    for digit in digits {
        if !digit.is_ascii_digit() || length > 100_000_000 {
            return None;
        }
        length = length * 10 + (*digit - b'0') as usize;
    }
    Some(length)
}

/// The raster of the tile at the head of these bytes, without the 186 bytes of its head, and what comes
/// after the tile.
pub fn tile_after(bytes: &[u8]) -> Option<(&[u8], &[u8])> {
    let (line, rest) = line_after(bytes)?;
    let length = tile_length(line)?;
    if length < 186 || rest.len() < length {
        return None;
    }
    let (file, rest) = rest.split_at(length);
    let (_, raster) = file.split_at(186);
    Some((raster, rest))
}

/// Whether the answers have tiles of these rasters, in this order, and no more.
pub fn has_rasters(answers: &[u8], rasters: &[&[u8]]) -> bool {
    let mut rest = answers;
    for raster in rasters {
        match next_tile(rest) {
            Some((found, after)) => {
                if found != *raster {
                    return false;
                }
                rest = after;
            }
            None => return false,
        }
    }
    next_tile(rest).is_none()
}

/// The raster of the next tile among these answers, and what comes after it.
fn next_tile(answers: &[u8]) -> Option<(&[u8], &[u8])> {
    let mut rest = answers;
    for _ in 0..answers.len() {
        if let Some(found) = tile_after(rest) {
            return Some(found);
        }
        rest = line_after(rest)?.1;
    }
    None
}
