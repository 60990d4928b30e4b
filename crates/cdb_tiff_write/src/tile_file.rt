//! The file of a tile from its frame.
ghost use Rattle.std.specs.Prelude.{◌≡◌, ◌*◌, List, length};
ghost use Rattle.cdb_grid.specs.Tiles.{tile_side};
ghost use Rattle.cdb_source.specs.declared.source.Source as sources;
ghost use Rattle.cdb_model.specs.TileFile.{tile_bytes};
ghost use Rattle.cdb_cut.specs.OneTile.{IsFrameOf};
ghost use Rattle.cdb_tiff_write.specs.Rasters.{frame_bytes, tile_size};

use crate::raster::put_rows;
use crate::size::bits;
use crate::tile_head::head;
use cdb_grid::{Tile, side};
use cdb_model::TILE_HEAD_BYTES;

/// Writes the file of a tile with the numbers of a frame, whose first row is the south row. `bytes` has
/// the length of the file, and `frame` a number for each element of the tile. A number of a tile of
/// materials that isn't from 0 to 255 is written as 0.
pub fn put_file(tile: &Tile, frame: &[i16], bytes: &mut [u8])
    requires frame { length frame.now ≡ tile_side tile.now * tile_side tile.now }
    requires bytes { length bytes.old ≡ tile_size tile.now }
    ensures laid { bytes.new ≡ frame_bytes tile.now frame.now }
    ensures file { (ss : List sources.Source) → IsFrameOf ss tile.now frame.now → bytes.new ≡ tile_bytes ss tile.now }
{
    let side = side(tile.level);
    let (first, raster) = bytes.split_at_mut(TILE_HEAD_BYTES);
    first.copy_from_slice(&head(side, bits(tile.family)));
    put_rows(tile.family, side as usize, frame, raster);
}
