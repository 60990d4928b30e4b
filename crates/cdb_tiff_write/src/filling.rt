//! The file of an older tile, where a frame has no value.
ghost use Rattle.std.specs.Prelude.{◌≡◌, ◌+◌, ◌-◌, ◌*◌, ◌≤◌, ◌==◌, ◌||◌, IsTrue, length};
ghost use Rattle.std.specs.Option.{option_or};
ghost use Rattle.cdb_grid.specs.Frames.{IsRowChanged};
ghost use Rattle.cdb_grid.specs.Tiles.{tile_side};
ghost use Rattle.cdb_source.specs.Posts.{none_of, coded};
ghost use Rattle.cdb_source.specs.Sample.{value_of};
ghost use Rattle.cdb_model.specs.TileFile.{bits_of};
ghost use Rattle.cdb_cut.specs.OneTile.{IsFilled};
ghost use Rattle.cdb_tiff_write.specs.Rasters.{tile_size};
ghost use Rattle.cdb_tiff_write.specs.Samples.{frame_in, HasRaster};
ghost use Rattle.cdb_tiff_write.specs.inside.Older.{or_sample};
ghost use Rattle.cdb_model.specs.declared.limits.TheConstants.{MOST_TILE_VALUES, TILE_HEAD_BYTES};

use crate::samples::{octet_sample, short_sample};
use crate::size::bits;
use cdb_grid::{RowRule, Spot, Tile, change_part, side};
use cdb_source::{Kind, kind_of};

/// The file of an older tile, under the numbers of a newer one.
#[derive(Clone, Copy)]
struct OlderFile<'a> {
    kind: Kind,
    bytes: &'a [u8],
    side: usize,
    bits: u8,
    ghost known: { IsTrue (bits == 8 || bits == 16) },
}

/// The number of a frame where it has a value, else the older one. `none` stands for no value.
fn or_older(kind: Kind, none: i16, own: i16, older: i16) -> i16
    requires { none ≡ none_of kind }
    ensures { result ≡ coded kind (option_or (value_of kind own) (value_of kind older)) }
{
    if own == none { older } else { own }
}

/// Fills a row from samples of two bytes. The row begins at this number of a sample.
fn fill_shorts(kind: Kind, bytes: &[u8], from: usize, part: &mut [i16])
    requires row { from + length part.old ≤ MOST_TILE_VALUES }
    requires within { TILE_HEAD_BYTES + 2 * (from + length part.old) ≤ length bytes.now }
    ensures { IsRowChanged (λ k. or_sample kind 16 bytes.now (from + k)) (length part.old) part.old part.new }
{
    let none = kind.no_value();
    for k in 0..part.len() {
        part[k] = or_older(kind, none, part[k], short_sample(bytes, from + k));
    }
}

/// The same from samples of one byte.
fn fill_octets(kind: Kind, bytes: &[u8], from: usize, part: &mut [i16])
    requires row { from + length part.old ≤ MOST_TILE_VALUES }
    requires within { TILE_HEAD_BYTES + (from + length part.old) ≤ length bytes.now }
    ensures { IsRowChanged (λ k. or_sample kind 8 bytes.now (from + k)) (length part.old) part.old part.new }
{
    let none = kind.no_value();
    for k in 0..part.len() {
        part[k] = or_older(kind, none, part[k], octet_sample(bytes, from + k));
    }
}

impl RowRule for OlderFile<'_> {
    ghost has_row = { λ o row cols. HasRaster o.bytes.now o.side o.bits row cols };

    ghost rule = { λ o row col. or_sample o.kind o.bits o.bytes.now ((o.side - 1 - row) * o.side + col) };

    fn change_row(&self, row: usize, part: &mut [i16]) {
        let from = (self.side - 1 - row) * self.side;
        if self.bits == 8 {
            fill_octets(self.kind, self.bytes, from, part);
        } else {
            fill_shorts(self.kind, self.bytes, from, part);
        }
    }
}

/// Writes the numbers of the file of an older tile of the same name where the frame has no value. The
/// head of the file isn't looked at. `bytes` has the length of the file.
pub fn fill_file(tile: &Tile, bytes: &[u8], frame: &mut [i16])
    requires bytes { length bytes.now ≡ tile_size tile.now }
    requires frame { length frame.old ≡ tile_side tile.now * tile_side tile.now }
    ensures { IsFilled tile.now (frame_in (bits_of tile.now.family) bytes.now (tile_side tile.now)) frame.old
        frame.new }
{
    let side = side(tile.level) as usize;
    let older = OlderFile {
        kind: kind_of(tile.family),
        bytes,
        side,
        bits: bits(tile.family),
    };
    let start = Spot { row: 0, col: 0 };
    change_part(&older, start, side, side, frame, side);
}
