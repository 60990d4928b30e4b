//! The room that the rows of sources take.
ghost use Rattle.std.specs.Prelude.{◌≡◌, ◌≤◌, ℕ, Some, slice_get};
ghost use Rattle.cdb_grid.specs.declared.tile.Tile as grid;
ghost use Rattle.cdb_publish.specs.Windows.{HasRoomFor, HasRoom};

use cdb_cut::window;
use cdb_grid::Tile;
use cdb_source::SourceHead;

/// How many posts the rows are that a tile takes of a source of its level.
fn window_size(head: &SourceHead, tile: &Tile) -> usize
    ensures room { HasRoomFor head.now tile.now result }
    ensures most { result ≤ 16777216 }
{
    if head.level.number != tile.level.number {
        return 0;
    }
    match window(head, tile) {
        Some(rows) => rows.count as usize * head.cols as usize,
        None => 0,
    }
}

/// The most that a tile takes of any of these sources.
fn tile_room(heads: &[SourceHead], tile: &Tile) -> usize
    ensures room { HasRoom heads.now tile.now result }
    ensures most { result ≤ 16777216 }
{
    let mut room: usize = 0;
    for head in heads {
        room = room.max(window_size(head, tile));
    }
    room
}

/// The most that any of these tiles takes of any of these sources.
pub(crate) fn largest_window(heads: &[SourceHead], tiles: &[Tile]) -> usize
    ensures room { (i : ℕ) (t : grid.Tile) → slice_get tiles.now i ≡ Some t → HasRoom heads.now t result }
    ensures most { result ≤ 16777216 }
{
    let mut room: usize = 0;
    for tile in tiles {
        room = room.max(tile_room(heads, tile));
    }
    room
}
