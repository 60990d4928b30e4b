//! Laws of the grid, each the contract of a function that does nothing.

ghost use Rattle.std.specs.Prelude.{◌≡◌, ℕ, ◌+◌, ◌/◌, ◌^◌, ◌≤◌, ◌<◌, ℤ, pos, ◌<ℤ◌, List, slice_get, AllPairs, Some};
ghost use Rattle.std.specs.declared.cmp.Ordering.TheVariants.{Less, Equal};
ghost use Rattle.cdb_grid.specs.Units.{height_of, tiles_of};
ghost use Rattle.cdb_grid.specs.Grid.{Place, IsCorner};
ghost use Rattle.cdb_grid.specs.Children.{IsParent, IsRefined};
ghost use Rattle.cdb_grid.specs.Order.{tile_cmp};
ghost use Rattle.cdb_grid.specs.Tiles.{tile_height, tile_side, element_corner, IsInTile, HasOneElement};
ghost use Rattle.cdb_grid.specs.declared.tile.Tile.{Tile};

/// The place of an element of elevation kind is one of every finer level: a corner of a height is
/// one of each smaller height.
pub fn finer_levels_have_every_place()
    ensures { (fine coarse : ℕ) (p : Place) → fine ≤ coarse → IsCorner coarse p → IsCorner fine p }
{}

/// The elements of a tile stand at the corners of its height that lie in it, one element at each.
pub fn every_place_has_one_element()
    ensures corner { (t : Tile) (row col : ℕ) → row < tile_side t → col < tile_side t →
        IsCorner (tile_height t) (element_corner t row col) }
    ensures within { (t : Tile) (row col : ℕ) → row < tile_side t → col < tile_side t →
        IsInTile t (element_corner t row col) }
    ensures one { (t : Tile) (p : Place) → IsCorner (tile_height t) p → IsInTile t p → HasOneElement t p }
{}

/// Where a child begins at an element of its parent (`spot_of` tells which), each of the child's elements
/// of an even row and column stands at the corner of one of the parent's, and with the three to its
/// east and north it has the four finer cells of the parent's cell.
pub fn child_elements_are_finer_cells()
    ensures { (child parent : Tile) (row col : ℕ) → IsParent child parent →
        element_corner parent row col ≡ element_corner child 0 0 → row + tile_side child / 2 ≤ tile_side parent →
        IsRefined child parent row col }
{}

/// The stated order tells tiles apart; a tile comes before its parent; and of two tiles in an ascending
/// list the one that comes before the other stands before it.
pub fn tiles_are_ordered()
    ensures itself { (t : Tile) → tile_cmp t t ≡ Equal }
    ensures same { (s t : Tile) → tile_cmp s t ≡ Equal → s ≡ t }
    ensures finer_first { (child parent : Tile) → IsParent child parent → tile_cmp child parent ≡ Less }
    ensures ascending { (tiles : List Tile) (i k : ℕ) (s t : Tile) → AllPairs (λ a b. tile_cmp a b ≡ Less) tiles →
        slice_get tiles i ≡ Some s → slice_get tiles k ≡ Some t → tile_cmp s t ≡ Less → i < k }
{}

/// A geocell has one tile along each side below level 0, and from there on 2 to the power of the level.
pub fn tiles_double_with_each_level()
    ensures coarse { (level : ℤ) → level <ℤ pos 0 → tiles_of (height_of level) ≡ 1 }
    ensures fine { (level : ℕ) → level ≤ 23 → tiles_of (height_of (pos level)) ≡ 2 ^ level }
{}
