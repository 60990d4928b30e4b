//! The version that has the newest file of a tile.
ghost use Rattle.std.specs.Prelude.{◌≡◌, ◌≤◌, IfSome, Any, true, false};
ghost use Rattle.cdb_manifest.specs.Entries.{Ascending};
ghost use Rattle.cdb_chain.specs.LookUps.{is_listed};
ghost use Rattle.cdb_publish.specs.LookUps.{look_before, look};
ghost use Rattle.cdb_publish.specs.inside.Older.{IsKept, NoneAtLevel};
ghost use Rattle.cdb_model.specs.declared.limits.TheConstants.{MOST_VERSIONS};

use crate::plan::Plan;
use cdb_chain::Chain;
use cdb_grid::Tile;
use cdb_source::SourceHead;

/// Whether a tile stands in a list.
pub(crate) fn is_listed(tiles: &[Tile], tile: &Tile) -> bool
    requires { Ascending tiles.now }
    ensures { result ≡ is_listed tiles.now tile.now }
{
    match tiles.binary_search(tile) {
        Ok(_) => true,
        Err(_) => false,
    }
}

/// The newest version before the plan's that has the tile.
pub(crate) fn look_before(plan: &Plan, chain: &Chain, tile: &Tile) -> Option<u32>
    ensures named { result ≡ look_before plan.now chain.now.records tile.now }
    ensures least { IfSome result (λ v. 1 ≤ v) }
    ensures most { IfSome result (λ v. v ≤ MOST_VERSIONS) }
{
    chain.find(plan.record.version - 1, tile)
}

/// The newest version up to the plan's that has the tile.
pub(crate) fn look(plan: &Plan, chain: &Chain, tile: &Tile) -> Option<u32>
    ensures named { result ≡ look plan.now chain.now.records tile.now }
    ensures least { IfSome result (λ v. 1 ≤ v) }
    ensures most { IfSome result (λ v. v ≤ MOST_VERSIONS) }
{
    if is_listed(plan.record.tiles.as_slice(), tile) {
        return Some(plan.record.version);
    }
    look_before(plan, chain, tile)
}

/// Whether one of these sources has exactly the level of a tile.
pub(crate) fn has_level(heads: &[SourceHead], tile: &Tile) -> bool
    ensures { result ≡ false → NoneAtLevel heads.now tile.now }
{
    for head in heads {
        if head.level.number == tile.level.number {
            return true;
        }
    }
    false
}

/// Whether a tile has a file, and the plan doesn't write it anew.
fn is_kept(plan: &Plan, chain: &Chain, tile: &Tile) -> bool
    ensures { result ≡ true → IsKept plan.now chain.now.records tile.now }
{
    if is_listed(plan.record.tiles.as_slice(), tile) {
        return false;
    }
    look_before(plan, chain, tile).is_some()
}

/// Whether one of these tiles has a file that the plan doesn't write anew.
pub(crate) fn keeps_some(plan: &Plan, chain: &Chain, tiles: &[Tile]) -> bool
    ensures { result ≡ true → Any (IsKept plan.now chain.now.records) tiles.now }
{
    for tile in tiles {
        if is_kept(plan, chain, tile) {
            return true;
        }
    }
    false
}
