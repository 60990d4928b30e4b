//! The length of a written tile.
ghost use Rattle.std.specs.Prelude.{◌≡◌, ◌≤◌, ◌==◌, ◌||◌, IsTrue};
ghost use Rattle.cdb_model.specs.TileFile.{bits_of};
ghost use Rattle.cdb_tiff_write.specs.Rasters.{tile_size};
ghost use Rattle.cdb_model.specs.declared.limits.TheConstants.{MOST_TILE_BYTES};

use cdb_grid::{Family, Tile, side};
use cdb_model::TILE_HEAD_BYTES;

/// The bits of an element of a tile: 16 for elevations, with a sign, and 8 for materials, without one.
pub fn bits(family: Family) -> u8
    ensures value { result ≡ bits_of family }
    ensures known { IsTrue (result == 8 || result == 16) }
{
    match family {
        Family::Elev | Family::Low | Family::High => 16,
        Family::Mat => 8,
    }
}

/// The length of a tile's file in bytes: a head of 186 bytes, and two bytes for each elevation or one
/// for each material.
pub fn tile_size(tile: &Tile) -> usize
    ensures value { result ≡ tile_size tile.now }
    ensures most { result ≤ MOST_TILE_BYTES }
{
    let side = side(tile.level) as usize;
    TILE_HEAD_BYTES + side * side * (bits(tile.family) as usize / 8)
}
