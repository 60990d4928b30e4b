//! What the stores of these tests have in common.

use cdb_files::{Path, folder_above, write_whole};
use cdb_grid::{Arc, Family, Level, Tile, tile_at};
use cdb_memfiles::MemDisk;
use std::test::Fail;

/// The head of a source of one post at N46E007 at level -10.
pub static HEAD: [u8; 44] = [
    0x01, 0xF6, 0x00, 0x00, 0x00, 0x00, 0x00, 0x01, 0x00, 0x00, 0x00, 0x01, // kind to columns
    0x00, 0x05, 0xAF, 0x78, 0x00, 0x00, 0x00, 0x00, // latitude
    0x00, 0x00, 0xDD, 0x7C, 0x00, 0x00, 0x00, 0x00, // longitude
    0x00, 0x00, 0x1F, 0xA4, 0x00, 0x00, 0x00, 0x00, // step in latitude
    0x00, 0x00, 0x1F, 0xA4, 0x00, 0x00, 0x00, 0x00, // step in longitude
];

/// The first tile of N46E007 of a family at a level.
pub fn first_tile(family: Family, level: i32) -> Option<Tile> {
    let level = Level::new(level)?;
    tile_at(
        family,
        level,
        Arc::of_fraction(46, 1)?,
        Arc::of_fraction(7, 1)?,
    )
}

/// Writes a file, in its folder.
pub fn put(disk: &mut MemDisk, path: &Path, bytes: &[u8]) -> Result<(), Fail> {
    write_whole(disk, &folder_above(path), path, bytes)?;
    Ok(())
}
