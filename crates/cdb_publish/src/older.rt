//! The rest of a tile from the tile of the same name in an earlier version.
ghost use Rattle.std.specs.Prelude.{◌≡◌, ◌+◌, ◌*◌, ◌≤◌, ◌++◌, true, false, List, length, OnOk, IfOk, IfErr};
ghost use Rattle.std.specs.List.{flat_map};
ghost use Rattle.cdb_grid.specs.Tiles.{tile_side};
ghost use Rattle.cdb_source.specs.declared.source.Source as given;
ghost use Rattle.cdb_files.specs.Moments.{Rests};
ghost use Rattle.cdb_cut.specs.Laws.{IsOwn};
ghost use Rattle.cdb_cut.specs.OneTile.{IsFrameOf, IsPaintedBy};
ghost use Rattle.cdb_publish.specs.Causes.{IsCaused};
ghost use Rattle.cdb_publish.specs.LookUps.{look_before, needs_of, child_needs};
ghost use Rattle.cdb_publish.specs.inside.LookUps.{IsNamed};
ghost use Rattle.cdb_publish.specs.inside.Older.{folded_needs, NoneAtLevel};
ghost use Rattle.cdb_publish.specs.Needs.{AreSized, TellsSizes, IsDamage};
ghost use Rattle.cdb_model.specs.declared.limits.TheConstants.{MOST_TILE_BYTES};

use crate::errors::StepError;
use crate::look_up::{has_level, keeps_some, look_before};
use crate::plan::Plan;
use crate::tile_read::{read_named, read_tile};
use cdb_chain::Chain;
use cdb_files::Disk;
use cdb_grid::Tile;
use cdb_tiff_write::{fill_file, tile_size};

/// Fills what has no value from the newest earlier tile, where there is one. `bytes` has room for the
/// largest tile.
pub(crate) fn fill_older<D: Disk>(
    plan: &Plan,
    chain: &Chain,
    tile: &Tile,
    bytes: &mut [u8],
    frame: &mut [i16],
    disk: &mut D,
) -> Result<(), StepError>
    requires bytes { MOST_TILE_BYTES ≤ length bytes.old }
    requires frame { length frame.old ≡ tile_side tile.now * tile_side tile.now }
    ensures filled { D.tells → (ss x : List given.Source) → IsOwn tile.now.family
        → IsNamed (D.state disk.old).present ss tile.now (look_before plan.now chain.now.records tile.now)
        → IsPaintedBy (ss ++ x) tile.now x frame.old → OnOk result (IsFrameOf (ss ++ x) tile.now frame.new) }
    ensures sizes { D.tells → TellsSizes (D.state disk.old).present (needs_of tile.now
        (look_before plan.now chain.now.records tile.now)) result }
    ensures damage { IfErr result IsDamage }
    ensures state { D.state disk.new ≡ D.state disk.old }
    ensures time { Rests (D.clock disk.old) (D.clock disk.new) (D.since disk.old) (D.since disk.new) }
    ensures cause { IsCaused (D.fault_count disk.old) (D.fault_count disk.new) result }
    ensures reads { D.read_count disk.new ≤ D.read_count disk.old + length (needs_of tile.now
        (look_before plan.now chain.now.records tile.now)) }
{
    let version = look_before(plan, chain, tile);
    let bytes = &mut bytes[..tile_size(tile)];
    match read_named(version, tile, bytes, disk) {
        Ok(true) => {
            fill_file(tile, bytes, frame);
            Ok(())
        }
        Ok(false) => Ok(()),
        Err(error) => Err(error),
    }
}

/// Reads the values of the newest earlier tile, where no source has exactly its level, and says whether it
/// did: not where there is none of its size. `bytes` has room for the largest tile.
pub(crate) fn read_older<D: Disk>(
    plan: &Plan,
    chain: &Chain,
    tile: &Tile,
    bytes: &mut [u8],
    older: &mut [i16],
    disk: &mut D,
) -> Result<bool, StepError>
    requires bytes { MOST_TILE_BYTES ≤ length bytes.old }
    requires older { length older.old ≡ tile_side tile.now * tile_side tile.now }
    ensures values { D.tells → (ss : List given.Source)
        → IsNamed (D.state disk.old).present ss tile.now (look_before plan.now chain.now.records tile.now)
        → IfOk result (λ found. found ≡ true → IsFrameOf ss tile.now older.new) }
    ensures level { IfOk result (λ found. found ≡ true → NoneAtLevel plan.now.record.heads tile.now) }
    ensures sizes { D.tells → IfOk result (λ found. found ≡ true
        → AreSized (D.state disk.old).present (needs_of tile.now (look_before plan.now chain.now.records tile.now))) }
    ensures error { IfErr result (λ e. e ≡ StepError.Fault) }
    ensures state { D.state disk.new ≡ D.state disk.old }
    ensures time { Rests (D.clock disk.old) (D.clock disk.new) (D.since disk.old) (D.since disk.new) }
    ensures cause { IsCaused (D.fault_count disk.old) (D.fault_count disk.new) result }
    ensures reads { D.read_count disk.new ≤ D.read_count disk.old + length (needs_of tile.now
        (look_before plan.now chain.now.records tile.now)) }
    ensures unread { IfOk result (λ found. found ≡ false → D.read_count disk.new ≤ D.read_count disk.old) }
{
    if has_level(plan.record.heads.as_slice(), tile) {
        return Ok(false);
    }
    let Some(version) = look_before(plan, chain, tile) else {
        return Ok(false);
    };
    match read_tile(version, tile, bytes, older, disk) {
        Ok(()) => Ok(true),
        Err(StepError::Damaged { .. }) => Ok(false),
        Err(StepError::Fault) => Err(StepError::Fault),
    }
}

/// The same, where a finer tile needn't be read then.
pub(crate) fn take_older<D: Disk>(
    plan: &Plan,
    chain: &Chain,
    tile: &Tile,
    children: &[Tile],
    bytes: &mut [u8],
    older: &mut [i16],
    disk: &mut D,
) -> Result<bool, StepError>
    requires bytes { MOST_TILE_BYTES ≤ length bytes.old }
    requires older { length older.old ≡ tile_side tile.now * tile_side tile.now }
    ensures values { D.tells → (ss : List given.Source)
        → IsNamed (D.state disk.old).present ss tile.now (look_before plan.now chain.now.records tile.now)
        → IfOk result (λ found. found ≡ true → IsFrameOf ss tile.now older.new) }
    ensures level { IfOk result (λ found. found ≡ true → NoneAtLevel plan.now.record.heads tile.now) }
    ensures error { IfErr result (λ e. e ≡ StepError.Fault) }
    ensures state { D.state disk.new ≡ D.state disk.old }
    ensures time { Rests (D.clock disk.old) (D.clock disk.new) (D.since disk.old) (D.since disk.new) }
    ensures cause { IsCaused (D.fault_count disk.old) (D.fault_count disk.new) result }
    ensures fewer { IfOk result (λ found. D.read_count disk.new
        + length (flat_map (folded_needs found plan.now chain.now.records) children.now)
        ≤ D.read_count disk.old + length (child_needs plan.now chain.now.records children.now)) }
    ensures reads { D.read_count disk.new ≤ D.read_count disk.old + length
        (child_needs plan.now chain.now.records children.now) }
{
    if !keeps_some(plan, chain, children) {
        return Ok(false);
    }
    match read_older(plan, chain, tile, bytes, older, disk) {
        Ok(found) => Ok(found),
        Err(error) => Err(error),
    }
}
