//! Frames written as files of tiles, and read back.
use cdb_grid::{Arc, Family, FourRule, Level, Spot, Tile, side, tile_at};
use cdb_source::kind_of;
use cdb_tiff_write::{bits, fill_file, fold_file, head, posts_of, put_file, tile_size};
use std::test::Fail;

/// No elevation.
const NONE: i16 = -32768;

/// A family and a level, a frame of at most four elements, the south row first, and the raster of its
/// file.
static FRAMES: [(Family, i32, &[i16], &[u8]); 7] = [
    (Family::Elev, -10, &[500], &[0xf4, 0x01]),
    (
        Family::Elev,
        -9,
        &[10, 20, 30, 40],
        &[0x1e, 0, 0x28, 0, 0x0a, 0, 0x14, 0],
    ),
    (
        Family::Low,
        -9,
        &[0, 1, NONE, NONE],
        &[0, 0x80, 0, 0x80, 0, 0, 1, 0],
    ),
    (
        Family::Elev,
        -9,
        &[-1, 0, NONE, NONE],
        &[0, 0x80, 0, 0x80, 0xff, 0xff, 0, 0],
    ),
    (
        Family::High,
        -9,
        &[10, 15, 20, NONE],
        &[0x14, 0, 0, 0x80, 0x0a, 0, 0x0f, 0],
    ),
    (Family::Mat, -10, &[3], &[3]),
    (Family::Mat, -9, &[0, 3, 9, 255], &[9, 255, 0, 3]),
];

fn tile(family: Family, level: i32) -> Result<Tile, Fail> {
    let level = Level::new(level).ok_or("level")?;
    let lat = Arc::of_fraction(46, 1).ok_or("lat")?;
    let lon = Arc::of_fraction(7, 1).ok_or("lon")?;
    Ok(tile_at(family, level, lat, lon).ok_or("tile")?)
}

/// Writes a frame into the file of a tile, and reads it back. None where the lengths don't fit.
fn write_and_read(tile: &Tile, frame: &[i16], bytes: &mut [u8], back: &mut [i16]) -> Option<()> {
    let side = side(tile.level);
    let elements = side as usize * side as usize;
    if frame.len() != elements || bytes.len() != tile_size(tile) || back.len() != elements {
        return None;
    }
    put_file(tile, frame, bytes);
    posts_of(bytes, side, bits(tile.family), back);
    Some(())
}

/// The number of the south-east quarter.
struct SouthEast;

impl FourRule for SouthEast {
    ghost of_four = { λ own sw se nw ne. se };

    fn of_four(&self, _: i16, _: i16, south_east: i16, _: i16, _: i16) -> i16 {
        south_east
    }
}

/// Folds a file of four elements into a frame of one, and fills a frame from a file. None where the
/// lengths don't fit.
fn fold_and_fill(tile: &Tile, bytes: &[u8], folded: &mut [i16], filled: &mut [i16]) -> Option<()> {
    let side = side(tile.level);
    let elements = side as usize * side as usize;
    if filled.len() != elements || bytes.len() != tile_size(tile) || folded.len() != 1 {
        return None;
    }
    if side == 2 {
        let corner = Spot { row: 0, col: 0 };
        fold_file(&SouthEast, bytes, 2, bits(tile.family), corner, folded, 1);
    }
    fill_file(tile, bytes, filled);
    Some(())
}

#[test]
fn files_of_frames(rt: HostRuntime) -> Result<(), Fail> {
    for (family, level, frame, raster) in FRAMES.iter() {
        let tile = tile(*family, *level)?;
        let mut bytes = [0; 194];
        let mut back = [0; 4];
        let bytes = bytes.get_mut(..186 + raster.len()).ok_or("bytes")?;
        let back = back.get_mut(..frame.len()).ok_or("frame")?;
        write_and_read(&tile, frame, bytes, back).ok_or("lengths")?;
        let (first, rest) = bytes.split_at_checked(186).ok_or("head")?;
        assert_eq!(rt; first, head(side(tile.level), bits(*family)).as_slice());
        assert_eq!(rt; rest, *raster);
        assert_eq!(rt; &*back, *frame);
        let mut folded = [7];
        let mut filled = [kind_of(*family).no_value(); 4];
        let filled = filled.get_mut(..frame.len()).ok_or("filled")?;
        fold_and_fill(&tile, bytes, &mut folded, filled).ok_or("sizes")?;
        assert_eq!(rt; folded, [frame.get(1).copied().unwrap_or(7)]);
        assert_eq!(rt; &*filled, *frame);
    }
    Ok(())
}
