//! Sources painted into the frame of a tile.
ghost use Rattle.std.specs.Prelude.{◌≡◌, ◌+◌, ◌*◌, ◌≤◌, ◌∷◌, [], List, length};
ghost use Rattle.cdb_grid.specs.Tiles.{tile_side};
ghost use Rattle.cdb_source.specs.declared.source.Source as given;
ghost use Rattle.cdb_cut.specs.Window.{rows_of};
ghost use Rattle.cdb_cut.specs.OneTile.{IsPaintedBy};

use cdb_cut::{Rows, paint, window};
use cdb_grid::Tile;
use cdb_source::Source;

/// The posts of rows of a source.
fn posts_of(source: &Source, rows: Rows) -> &[i16]
    requires { rows.first + rows.count ≤ source.now.head.rows }
    ensures posts { result.now ≡ rows_of source.now rows.first rows.count }
    ensures length { length result.now ≡ rows.count * source.now.head.cols }
{
    let cols = source.head.cols as usize;
    let from = rows.first as usize * cols;
    &source.posts.as_slice()[from..from + rows.count as usize * cols]
}

/// Paints a source where its level is exactly the tile's and the frame has no value.
fn paint_source(source: &Source, tile: &Tile, frame: &mut [i16])
    requires { length frame.old ≡ tile_side tile.now * tile_side tile.now }
    ensures { (ss own : List given.Source) → IsPaintedBy ss tile.now own frame.old
        → IsPaintedBy ss tile.now (source.now ∷ own) frame.new }
{
    let head = &source.head;
    if head.level.number != tile.level.number {
        return;
    }
    let Some(rows) = window(head, tile) else {
        return;
    };
    paint(head, rows, posts_of(source, rows), tile, frame);
}

/// Paints the sources of exactly the tile's level, newest first, where there is no value.
pub(crate) fn paint_sources(sources: &[Source], tile: &Tile, frame: &mut [i16])
    requires { length frame.old ≡ tile_side tile.now * tile_side tile.now }
    ensures { (ss : List given.Source) → IsPaintedBy ss tile.now [] frame.old
        → IsPaintedBy ss tile.now sources.now frame.new }
{
    let count = sources.len();
    for done in 0..count {
        paint_source(&sources[count - 1 - done], tile, frame);
    }
}
