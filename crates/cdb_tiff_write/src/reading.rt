//! The posts of a written tile.
ghost use Rattle.std.specs.Prelude.{◌≡◌, ℕ, ◌+◌, ◌-◌, ◌*◌, ◌/◌, ◌<◌, ◌≤◌, ◌==◌, ◌||◌, IsTrue, List, length};
ghost use Rattle.cdb_grid.specs.Frames.{number_at};
ghost use Rattle.cdb_grid.specs.Tiles.{tile_side};
ghost use Rattle.cdb_grid.specs.declared.tile.Tile as tiles;
ghost use Rattle.cdb_source.specs.declared.source.Source as sources;
ghost use Rattle.cdb_model.specs.TileFile.{bits_of, tile_bytes};
ghost use Rattle.cdb_cut.specs.OneTile.{IsFrameOf};
ghost use Rattle.cdb_tiff_write.specs.Samples.{sample_in, HasRaster};
ghost use Rattle.cdb_model.specs.declared.limits.TheConstants.{TILE_HEAD_BYTES};

use crate::samples::read_row;
use cdb_grid::{RowRule, Spot, change_part};

/// The raster of a tile's file.
#[derive(Clone, Copy)]
struct Raster<'a> {
    bytes: &'a [u8],
    side: usize,
    bits: u8,
    ghost known: { IsTrue (bits == 8 || bits == 16) },
}

impl RowRule for Raster<'_> {
    ghost has_row = { λ r row cols. HasRaster r.bytes.now r.side r.bits row cols };

    ghost rule = { λ r row col old. sample_in r.bits r.bytes.now ((r.side - 1 - row) * r.side + col) };

    fn change_row(&self, row: usize, part: &mut [i16]) {
        let from = (self.side - 1 - row) * self.side;
        read_row(self.bytes, self.bits, from, part);
    }
}

/// Reads the values of a tile's file, the south row first. The head isn't looked at. `side` is the
/// number of elements along one side, and `bits` is 16 for signed elements and 8 for elements without a
/// sign.
pub fn posts_of(bytes: &[u8], side: u32, bits: u8, to: &mut [i16])
    requires bits { IsTrue (bits == 8 || bits == 16) }
    requires side { side ≤ 1024 }
    requires bytes { length bytes.now ≡ TILE_HEAD_BYTES + side * side * (bits / 8) }
    requires to { length to.old ≡ side * side }
    ensures size { length to.new ≡ length to.old }
    ensures each { (row col : ℕ) → row < side → col < side → number_at to.new side row col ≡ sample_in bits
        bytes.now ((side - 1 - row) * side + col) }
    ensures tile { (ss : List sources.Source) (t : tiles.Tile) → side ≡ tile_side t → bits ≡ bits_of t.family →
        bytes.now ≡ tile_bytes ss t → IsFrameOf ss t to.new }
{
    let raster = Raster {
        bytes,
        side: side as usize,
        bits,
    };
    let start = Spot { row: 0, col: 0 };
    change_part(
        &raster,
        start,
        side as usize,
        side as usize,
        to,
        side as usize,
    );
}
