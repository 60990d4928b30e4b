ghost use Rattle.std.specs.Prelude.{◌≡◌, ◌↔◌, ◌+◌, ◌*◌, ◌/◌, ◌<◌, ◌≤◌, ◌⊎◌, ℤ, pos, negsuc, ◌+ℤ◌, ◌≤ℤ◌, ◌<ℤ◌, [], IsNone, IfSome, MatchOption, Any, AllPairs};
ghost use Rattle.cdb_grid.specs.Units.{height_of, tiles_of, side_of};
ghost use Rattle.cdb_grid.specs.Grid.{Place};
ghost use Rattle.cdb_grid.specs.Tiles.{tile_height, tile_side, element_corner, IsInTile};
ghost use Rattle.cdb_grid.specs.Children.{IsParent, HasOneChild, HasFourChildren, AreApart};
ghost use Rattle.cdb_grid.specs.declared.tile.Tile.{Tile};

use crate::level::Level;
use crate::spot::Spot;
use crate::tile::{ChildTiles, Tile};
use crate::units;

/// The tile of the next coarser level that holds a tile, or `None` exactly at level -10
/// (OGC CDB 1.2 Volume 1, levels of detail).
pub fn parent(tile: &Tile) -> Option<Tile>
    ensures coarsest { IsNone result ↔ (tile.now.level.number ≡ negsuc 9) }
    ensures parent { IfSome result (IsParent tile.now) }
    ensures only { (p : Tile) → IsParent tile.now p → result ≡ Some p }
{
    let level = tile.level.coarser()?;
    Some(Tile {
        family: tile.family,
        cell: tile.cell,
        level,
        up: tile.up / 2,
        right: tile.right / 2,
    })
}

/// The tiles of the next finer level that a tile splits into: one below level 0, four from 0 to 22
/// in the order south-west, south-east, north-west, north-east, and none at 23
/// (OGC CDB 1.2 Volume 1, levels of detail).
pub fn children(tile: &Tile) -> ChildTiles
    ensures none { tile.now.level.number ≡ pos 23 → result.items ≡ [] }
    ensures one { tile.now.level.number <ℤ pos 0 → HasOneChild tile.now result.items }
    ensures four { pos 0 ≤ℤ tile.now.level.number → tile.now.level.number <ℤ pos 23 →
        HasFourChildren tile.now result.items }
    ensures fill { tile.now.level.number <ℤ pos 23 → (p : Place) → IsInTile tile.now p →
        Any (λ c. IsInTile c p) result.items }
    ensures apart { AllPairs AreApart result.items }
{
    let mut children = ChildTiles::new();
    let Some(level) = tile.level.finer() else {
        return children;
    };
    if tile.level.number < 0 {
        children.push(whole(tile, level));
    } else {
        let south_west = quarter(tile, level, 0, 0);
        let south_east = quarter(tile, level, 0, 1);
        let north_west = quarter(tile, level, 1, 0);
        let north_east = quarter(tile, level, 1, 1);
        children.push(south_west);
        children.push(south_east);
        children.push(north_west);
        children.push(north_east);
    }
    children
}

/// The element of its parent at which the part of a tile begins: there the two have the same
/// south-west corner, and half the tile's side fits both ways.
pub fn spot_of(child: &Tile) -> Spot
    requires { negsuc 9 <ℤ child.now.level.number }
    ensures begins { (parent : Tile) → IsParent child.now parent →
        element_corner parent result.row result.col ≡ element_corner child.now 0 0 }
    ensures row_fits { result.row + tile_side child.now / 2 ≤ side_of (tile_height child.now + 1) }
    ensures col_fits { result.col + tile_side child.now / 2 ≤ side_of (tile_height child.now + 1) }
{
    let half = units::side(child.level) / 2;
    Spot {
        row: child.up % 2 * half,
        col: child.right % 2 * half,
    }
}

/// The only child of a tile below level 0.
fn whole(tile: &Tile, level: Level) -> Tile
    requires level { tile.now.level.number +ℤ pos 1 ≡ level.number }
    requires below { tile.now.level.number <ℤ pos 0 }
    ensures family { result.family ≡ tile.now.family }
    ensures cell { result.cell ≡ tile.now.cell }
    ensures level { result.level.number ≡ level.number }
    ensures up { result.up ≡ tile.now.up }
    ensures right { result.right ≡ tile.now.right }
{
    Tile {
        family: tile.family,
        cell: tile.cell,
        level,
        up: tile.up,
        right: tile.right,
    }
}

/// The child in one half of a tile to the north and one to the east.
fn quarter(tile: &Tile, level: Level, north: u32, east: u32) -> Tile
    requires level { tile.now.level.number +ℤ pos 1 ≡ level.number }
    requires from { pos 0 ≤ℤ tile.now.level.number }
    requires north { north < 2 }
    requires east { east < 2 }
    ensures family { result.family ≡ tile.now.family }
    ensures cell { result.cell ≡ tile.now.cell }
    ensures level { result.level.number ≡ level.number }
    ensures up { result.up ≡ 2 * tile.now.up + north }
    ensures right { result.right ≡ 2 * tile.now.right + east }
{
    let up = 2 * tile.up + north;
    let right = 2 * tile.right + east;
    Tile {
        family: tile.family,
        cell: tile.cell,
        level,
        up,
        right,
    }
}
