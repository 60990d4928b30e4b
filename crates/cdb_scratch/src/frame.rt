//! The frame of a tile, row after row.
ghost use Rattle.std.specs.Prelude.{◌≡◌, ℕ, ◌*◌, ◌<◌, ◌↔◌, IsTrue, map, length};
ghost use Rattle.cdb_grid.specs.Tiles.{tile_side};
ghost use Rattle.cdb_source.specs.Reached.{kind_of, tile_value, Reached};
ghost use Rattle.cdb_grid.specs.Frames.{number_at, number_in};
ghost use Rattle.cdb_source.specs.Posts.{coded};

use crate::cell::value;
use cdb_grid::units::height;
use cdb_grid::{Tile, corner, side};
use cdb_source::{Kind, Source, kind_of};
use cdb_touch::reached;

/// The number by which a frame of a kind has a value, or none.
fn code(kind: Kind, value: Option<i16>) -> i16
    ensures { result ≡ coded kind value }
{
    match value {
        Some(value) => value,
        None => kind.no_value(),
    }
}

/// The number of the element at a row and a column of a tile.
fn number(sources: &[Source], tile: &Tile, row: u32, col: u32) -> i16
    requires row { row < tile_side tile.now }
    requires col { col < tile_side tile.now }
    ensures { result ≡ coded (kind_of tile.now.family) (tile_value sources.now tile.now row col) }
{
    let (north, east) = corner(tile, row, col);
    let value = value(tile.family, sources, height(tile.level), north, east);
    code(kind_of(tile.family), value)
}

/// Writes the numbers of one row.
fn put_row(sources: &[Source], tile: &Tile, row: u32, part: &mut [i16])
    requires row { row < tile_side tile.now }
    requires length { length part.old ≡ tile_side tile.now }
    ensures { (col : ℕ) → col < tile_side tile.now → number_in part.new col ≡ coded (kind_of tile.now.family)
        (tile_value sources.now tile.now row col) }
{
    for col in 0..part.len() {
        part[col] = number(sources, tile, row, col as u32);
    }
}

/// Writes the numbers of all rows.
fn put_rows(sources: &[Source], tile: &Tile, frame: &mut [i16])
    requires length { length frame.old ≡ tile_side tile.now * tile_side tile.now }
    ensures { (row col : ℕ) → row < tile_side tile.now → col < tile_side tile.now →
        number_at frame.new (tile_side tile.now) row col ≡ coded (kind_of tile.now.family)
        (tile_value sources.now tile.now row col) }
{
    let side = side(tile.level);
    for row in 0..side {
        let from = row as usize * side as usize;
        put_row(sources, tile, row, &mut frame[from..from + side as usize]);
    }
}

/// Writes the values of a tile into a frame, from sources alone, oldest source first, and says
/// whether one of them reaches the tile. A tile can be reached and have no value at any place.
///
/// The frame has `side * side` numbers for a tile of `side` elements along a side, row after row
/// from the south and each row from west to east. Elevations, and the least and the greatest ones,
/// are in whole metres, and -32768 stands for no value; materials are indices from 1 to 255, and 0
/// stands for no value (OGC CDB 1.2 Volume 1, elevation and raster material components). An
/// elevation is taken at the south-west corner of its element's cell, and a material at the centre.
///
/// It takes no memory. For all families but elevations it goes down into the four finer cells of a
/// cell, and only where a source of a level at least as fine as the cell's has a place in it.
pub fn build(sources: &[Source], tile: &Tile, frame: &mut [i16]) -> bool
    requires length { length frame.old ≡ tile_side tile.now * tile_side tile.now }
    ensures reached { IsTrue result ↔ Reached (map (λ source. source.head) sources.now) tile.now }
    ensures length { length frame.new ≡ length frame.old }
    ensures each { (row col : ℕ) → row < tile_side tile.now → col < tile_side tile.now →
        number_at frame.new (tile_side tile.now) row col ≡ coded (kind_of tile.now.family)
        (tile_value sources.now tile.now row col) }
{
    put_rows(sources, tile, frame);
    reached(sources, tile)
}
