//! Tiles made from sources alone: each finer tile is made and folded in, and then the sources of the
//! tile's own level are painted.
ghost use Rattle.std.specs.Prelude.{◌≡◌, ℕ, ◌+◌, ◌*◌, ◌≤◌, ◌++◌, ◌∷◌, [], List, ℤ, Option, length};
ghost use Rattle.cdb_grid.specs.Children.{IsParent};
ghost use Rattle.cdb_grid.specs.Tiles.{tile_side};
ghost use Rattle.cdb_grid.specs.declared.tile.Tile as grid;
ghost use Rattle.cdb_cut.specs.Laws.{IsOwn, IsExtreme};
ghost use Rattle.cdb_cut.specs.OneTile.{IsFrameOf, IsFolded, IsWholeFolded};
ghost use Rattle.cdb_cut.specs.FinerTiles.{AreChildren, IsPlain, elevation_tile};
ghost use Rattle.cdb_check.specs.Kept.{AreKeptFrames};

use crate::kept::Kept;
use crate::painting::paint_sources;
use cdb_cut::{clear, elevation_tile, fold};
use cdb_grid::{Family, Tile, children, side, spot_of};
use cdb_model::MOST_TILE_VALUES;
use cdb_scratch::build;
use cdb_source::Source;
use cdb_touch::reached;

/// Makes a tile place by place, which needs no room.
fn build_tile(sources: &[Source], tile: &Tile, frame: &mut [i16])
    requires frame { length frame.old ≡ tile_side tile.now * tile_side tile.now }
    ensures { IsFrameOf sources.now tile.now frame.new }
{
    build(sources, tile, frame);
}

/// Makes a finer tile where a source reaches it, and folds it in.
#[cycle(making)]
fn fold_child(
    sources: &[Source],
    kept: &[Kept],
    tile: &Tile,
    child: &Tile,
    spare: &mut [i16],
    frame: &mut [i16],
)
    requires kept { AreKeptFrames sources.now kept.now }
    requires parent { IsParent child.now tile.now }
    requires spare { MOST_TILE_VALUES ≤ length spare.old }
    requires frame { length frame.old ≡ tile_side tile.now * tile_side tile.now }
    ensures { (start : ℕ → ℕ → Option ℤ) (done : List grid.Tile) → IsPlain tile.now start
        → IsFolded sources.now tile.now start done frame.old
        → IsFolded sources.now tile.now start (done ++ child.now ∷ []) frame.new }
{
    let spot = spot_of(child);
    if !reached(sources, child) {
        return;
    }
    let child_side = side(child.level);
    let size = child_side as usize * child_side as usize;
    let (part, rest) = spare.split_at_mut(size);
    make_tile(sources, kept, child, rest, part);
    fold(tile.family, part, child_side, spot, frame, side(tile.level));
}

/// Makes all finer tiles and folds them in, in their order.
#[cycle(making)]
fn fold_children(
    sources: &[Source],
    kept: &[Kept],
    tile: &Tile,
    finer: &[Tile],
    spare: &mut [i16],
    frame: &mut [i16],
)
    requires kept { AreKeptFrames sources.now kept.now }
    requires finer { AreChildren tile.now finer.now }
    requires spare { MOST_TILE_VALUES ≤ length spare.old }
    requires frame { length frame.old ≡ tile_side tile.now * tile_side tile.now }
    ensures { (start : ℕ → ℕ → Option ℤ) → IsPlain tile.now start
        → IsFolded sources.now tile.now start [] frame.old → IsWholeFolded sources.now tile.now start frame.new }
{
    for child in finer {
        fold_child(sources, kept, tile, child, spare, frame);
    }
}

/// Makes a tile of elevations or of materials.
#[cycle(making)]
fn make_own(sources: &[Source], kept: &[Kept], tile: &Tile, spare: &mut [i16], frame: &mut [i16])
    requires kept { AreKeptFrames sources.now kept.now }
    requires own { IsOwn tile.now.family }
    requires spare { MOST_TILE_VALUES ≤ length spare.old }
    requires frame { length frame.old ≡ tile_side tile.now * tile_side tile.now }
    ensures { IsFrameOf sources.now tile.now frame.new }
{
    clear(tile, frame);
    let finer = children(tile);
    fold_children(sources, kept, tile, finer.as_slice(), spare, frame);
    paint_sources(sources, tile, frame);
}

/// Makes the elevations of the same cells as a tile's.
#[cycle(making)]
fn make_elevations(
    sources: &[Source],
    kept: &[Kept],
    tile: &Tile,
    spare: &mut [i16],
    frame: &mut [i16],
)
    requires kept { AreKeptFrames sources.now kept.now }
    requires spare { MOST_TILE_VALUES ≤ length spare.old }
    requires frame { length frame.old ≡ tile_side tile.now * tile_side tile.now }
    ensures { IsFrameOf sources.now (elevation_tile tile.now) frame.new }
{
    let elevations = elevation_tile(tile);
    if Kept::copy(kept, &elevations, frame) {
        return;
    }
    make_own(sources, kept, &elevations, spare, frame);
}

/// Makes a tile of least or of greatest elevations.
#[cycle(making)]
fn make_extreme(
    sources: &[Source],
    kept: &[Kept],
    tile: &Tile,
    spare: &mut [i16],
    frame: &mut [i16],
)
    requires kept { AreKeptFrames sources.now kept.now }
    requires extreme { IsExtreme tile.now.family }
    requires spare { MOST_TILE_VALUES ≤ length spare.old }
    requires frame { length frame.old ≡ tile_side tile.now * tile_side tile.now }
    ensures { IsFrameOf sources.now tile.now frame.new }
{
    make_elevations(sources, kept, tile, spare, frame);
    let finer = children(tile);
    fold_children(sources, kept, tile, finer.as_slice(), spare, frame);
}

/// Makes the values of a tile over all sources, oldest first, or takes them where the tile is kept.
///
/// `spare` is the room for finer tiles, one after the other; where it has no room for the largest one,
/// the tile is built place by place.
#[cycle(making)]
pub(crate) fn make_tile(
    sources: &[Source],
    kept: &[Kept],
    tile: &Tile,
    spare: &mut [i16],
    frame: &mut [i16],
)
    requires kept { AreKeptFrames sources.now kept.now }
    requires frame { length frame.old ≡ tile_side tile.now * tile_side tile.now }
    ensures { IsFrameOf sources.now tile.now frame.new }
{
    if Kept::copy(kept, tile, frame) {
        return;
    }
    if spare.len() < MOST_TILE_VALUES {
        build_tile(sources, tile, frame);
        return;
    }
    match tile.family {
        Family::Elev | Family::Mat => make_own(sources, kept, tile, spare, frame),
        Family::Low | Family::High => make_extreme(sources, kept, tile, spare, frame),
    }
}
