//! Whether a source reaches a tile.
ghost use Rattle.std.specs.Prelude.{◌≡◌, ◌↔◌, ◌≤◌, IsTrue, map};
ghost use Rattle.cdb_grid.specs.Tiles.{tile_height};
ghost use Rattle.cdb_source.specs.Reached.{source_height, Reaches, Reached};
ghost use Rattle.cdb_touch.specs.inside.Numbers.{tile_width, row_number, column_number};
ghost use Rattle.cdb_touch.specs.inside.Reach.{HasRow, HasColumn};

use crate::head::{columns, rows};
use crate::heights;
use cdb_grid::{Tile, units};
use cdb_source::{Source, SourceHead, kind_of};

/// The number of a tile's row among all rows of its height, from the south pole.
fn row_number(tile: &Tile) -> u64
    ensures { result ≡ row_number tile.now }
{
    units::row(tile.cell) * heights::tiles(units::height(tile.level)) + tile.up as u64
}

/// The number of a tile's column among all columns of its height in its row of geocells, from the
/// meridian of -180 degrees.
fn column_number(tile: &Tile) -> u64
    ensures { result ≡ column_number tile.now }
{
    let width = units::width(tile.cell);
    units::column(tile.cell) / width * heights::tiles(units::height(tile.level)) + tile.right as u64
}

/// Whether a tile's row holds a place of a source.
fn has_row(head: &SourceHead, tile: &Tile) -> bool
    requires { source_height head.now ≤ tile_height tile.now }
    ensures { IsTrue result ↔ HasRow head.now (tile_height tile.now) (row_number tile.now) }
{
    rows(head, units::height(tile.level)).contains(row_number(tile))
}

/// Whether a tile's column holds a place of a source.
fn has_column(head: &SourceHead, tile: &Tile) -> bool
    requires { source_height head.now ≤ tile_height tile.now }
    ensures { IsTrue result ↔ HasColumn head.now (tile_height tile.now) (tile_width tile.now) (column_number tile.now) }
{
    columns(head, units::height(tile.level), units::row(tile.cell)).contains(column_number(tile))
}

/// Whether a source reaches a tile: the kinds agree, the source's level is at least as fine as the
/// tile's, and some place of the source's level lies both in the tile and in the source's box.
/// Tiles of elevations and those of their least and greatest values are of one kind.
pub fn reaches(head: &SourceHead, tile: &Tile) -> bool
    ensures { IsTrue result ↔ Reaches head.now tile.now }
{
    if head.kind != kind_of(tile.family) || head.level.number < tile.level.number {
        return false;
    }
    has_row(head, tile) && has_column(head, tile)
}

/// Whether some source of a list reaches a tile.
pub fn reached(sources: &[Source], tile: &Tile) -> bool
    ensures { IsTrue result ↔ Reached (map (λ source. source.head) sources.now) tile.now }
{
    for source in sources {
        if reaches(&source.head, tile) {
            return true;
        }
    }
    false
}
