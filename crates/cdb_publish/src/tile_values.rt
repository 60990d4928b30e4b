//! The values of a tile, by its family.
ghost use Rattle.std.specs.Prelude.{◌≡◌, ◌+◌, ◌*◌, ◌≤◌, ◌++◌, List, length, OnOk, IfErr};
ghost use Rattle.cdb_grid.specs.Tiles.{tile_side};
ghost use Rattle.cdb_source.specs.declared.source.Source as given;
ghost use Rattle.cdb_files.specs.Moments.{Rests};
ghost use Rattle.cdb_cut.specs.Laws.{IsOwn, IsExtreme};
ghost use Rattle.cdb_cut.specs.OneTile.{IsFrameOf};
ghost use Rattle.cdb_publish.specs.Causes.{IsCaused};
ghost use Rattle.cdb_cut.specs.FinerTiles.{AreChildren, elevation_tile};
ghost use Rattle.cdb_publish.specs.TileFiles.{own_needs, extreme_needs, family_needs};
ghost use Rattle.cdb_publish.specs.inside.TileFiles.{HasFilesFor};
ghost use Rattle.cdb_publish.specs.Needs.{TellsSizes, IsDamage};
ghost use Rattle.cdb_publish.specs.Windows.{HasRoom};
ghost use Rattle.cdb_model.specs.declared.limits.TheConstants.{MOST_TILE_BYTES};

use crate::errors::StepError;
use crate::folding::fold_children;
use crate::older::{fill_older, read_older, take_older};
use crate::plan::Plan;
use crate::tile_read::read_tile;
use crate::windows::paint_sources;
use cdb_chain::Chain;
use cdb_cut::{clear, elevation_tile};
use cdb_files::Disk;
use cdb_grid::{Family, Tile};

/// Makes the values of a tile of elevations or of materials from all its finer tiles.
fn make_anew<D: Disk>(
    plan: &Plan,
    chain: &Chain,
    tile: &Tile,
    children: &[Tile],
    bytes: &mut [u8],
    scratch: &mut [i16],
    frame: &mut [i16],
    disk: &mut D,
) -> Result<(), StepError>
    requires own { IsOwn tile.now.family }
    requires children { AreChildren tile.now children.now }
    requires bytes { MOST_TILE_BYTES ≤ length bytes.old }
    requires room { HasRoom plan.now.record.heads tile.now (length scratch.old) }
    requires row_bytes { 2 * length scratch.old ≤ length bytes.old }
    requires frame { length frame.old ≡ tile_side tile.now * tile_side tile.now }
    ensures values { D.tells → (ss x : List given.Source)
        → HasFilesFor plan.now chain.now.records (D.state disk.old).present ss x tile.now children.now
        → OnOk result (IsFrameOf (ss ++ x) tile.now frame.new) }
    ensures sizes { D.tells → TellsSizes (D.state disk.old).present
        (own_needs plan.now chain.now.records tile.now children.now) result }
    ensures damage { IfErr result IsDamage }
    ensures state { D.state disk.new ≡ D.state disk.old }
    ensures time { Rests (D.clock disk.old) (D.clock disk.new) (D.since disk.old) (D.since disk.new) }
    ensures cause { IsCaused (D.fault_count disk.old) (D.fault_count disk.new) result }
    ensures reads { D.read_count disk.new ≤ D.read_count disk.old + length
        (own_needs plan.now chain.now.records tile.now children.now) }
{
    clear(tile, frame);
    match fold_children(plan, chain, tile, children, false, &[], bytes, frame, disk) {
        Ok(()) => {}
        Err(error) => return Err(error),
    }
    match paint_sources(plan, tile, bytes, scratch, frame, disk) {
        Ok(()) => {}
        Err(error) => return Err(error),
    }
    match fill_older(plan, chain, tile, bytes, frame, disk) {
        Ok(()) => Ok(()),
        Err(error) => Err(error),
    }
}

/// Makes the values of a tile of elevations or of materials. Where no source has exactly its level, the
/// parts of finer tiles that the publication doesn't touch are those of the earlier tile.
fn make_own<D: Disk>(
    plan: &Plan,
    chain: &Chain,
    tile: &Tile,
    children: &[Tile],
    bytes: &mut [u8],
    scratch: &mut [i16],
    frame: &mut [i16],
    disk: &mut D,
) -> Result<(), StepError>
    requires own { IsOwn tile.now.family }
    requires children { AreChildren tile.now children.now }
    requires bytes { MOST_TILE_BYTES ≤ length bytes.old }
    requires room { HasRoom plan.now.record.heads tile.now (length scratch.old) }
    requires row_bytes { 2 * length scratch.old ≤ length bytes.old }
    requires frame { length frame.old ≡ tile_side tile.now * tile_side tile.now }
    ensures values { D.tells → (ss x : List given.Source)
        → HasFilesFor plan.now chain.now.records (D.state disk.old).present ss x tile.now children.now
        → OnOk result (IsFrameOf (ss ++ x) tile.now frame.new) }
    ensures sizes { D.tells → TellsSizes (D.state disk.old).present
        (own_needs plan.now chain.now.records tile.now children.now) result }
    ensures damage { IfErr result IsDamage }
    ensures state { D.state disk.new ≡ D.state disk.old }
    ensures time { Rests (D.clock disk.old) (D.clock disk.new) (D.since disk.old) (D.since disk.new) }
    ensures cause { IsCaused (D.fault_count disk.old) (D.fault_count disk.new) result }
    ensures reads { D.read_count disk.new ≤ D.read_count disk.old + length
        (own_needs plan.now chain.now.records tile.now children.now) }
{
    match read_older(plan, chain, tile, bytes, frame, disk) {
        Ok(true) => {}
        Ok(false) => {
            return make_anew(plan, chain, tile, children, bytes, scratch, frame, disk);
        }
        Err(error) => return Err(error),
    }
    match fold_children(plan, chain, tile, children, true, &[], bytes, frame, disk) {
        Ok(()) => Ok(()),
        Err(error) => Err(error),
    }
}

/// Makes the values of a tile of least or of greatest elevations.
fn make_extreme<D: Disk>(
    plan: &Plan,
    chain: &Chain,
    tile: &Tile,
    children: &[Tile],
    bytes: &mut [u8],
    scratch: &mut [i16],
    frame: &mut [i16],
    disk: &mut D,
) -> Result<(), StepError>
    requires extreme { IsExtreme tile.now.family }
    requires children { AreChildren tile.now children.now }
    requires bytes { MOST_TILE_BYTES ≤ length bytes.old }
    requires scratch { length frame.old ≤ length scratch.old }
    requires frame { length frame.old ≡ tile_side tile.now * tile_side tile.now }
    ensures values { D.tells → (ss x : List given.Source)
        → HasFilesFor plan.now chain.now.records (D.state disk.old).present ss x tile.now children.now
        → OnOk result (IsFrameOf (ss ++ x) tile.now frame.new) }
    ensures sizes { D.tells → TellsSizes (D.state disk.old).present
        (extreme_needs plan.now chain.now.records tile.now children.now) result }
    ensures damage { IfErr result IsDamage }
    ensures state { D.state disk.new ≡ D.state disk.old }
    ensures time { Rests (D.clock disk.old) (D.clock disk.new) (D.since disk.old) (D.since disk.new) }
    ensures cause { IsCaused (D.fault_count disk.old) (D.fault_count disk.new) result }
    ensures reads { D.read_count disk.new ≤ D.read_count disk.old + length
        (extreme_needs plan.now chain.now.records tile.now children.now) }
{
    let elevations = elevation_tile(tile);
    match read_tile(plan.record.version, &elevations, bytes, frame, disk) {
        Ok(()) => {}
        Err(error) => return Err(error),
    }
    let older = &mut scratch[..frame.len()];
    let from_older = match take_older(plan, chain, tile, children, bytes, older, disk) {
        Ok(from_older) => from_older,
        Err(error) => return Err(error),
    };
    match fold_children(
        plan, chain, tile, children, from_older, older, bytes, frame, disk,
    ) {
        Ok(()) => Ok(()),
        Err(error) => Err(error),
    }
}

/// Makes the values of a tile. `bytes` has room for the largest tile, `scratch` for the values of the
/// tile, and both for the rows of each source that the tile takes.
pub(crate) fn make_values<D: Disk>(
    plan: &Plan,
    chain: &Chain,
    tile: &Tile,
    children: &[Tile],
    bytes: &mut [u8],
    scratch: &mut [i16],
    frame: &mut [i16],
    disk: &mut D,
) -> Result<(), StepError>
    requires children { AreChildren tile.now children.now }
    requires bytes { MOST_TILE_BYTES ≤ length bytes.old }
    requires room { HasRoom plan.now.record.heads tile.now (length scratch.old) }
    requires scratch { length frame.old ≤ length scratch.old }
    requires row_bytes { 2 * length scratch.old ≤ length bytes.old }
    requires frame { length frame.old ≡ tile_side tile.now * tile_side tile.now }
    ensures values { D.tells → (ss x : List given.Source)
        → HasFilesFor plan.now chain.now.records (D.state disk.old).present ss x tile.now children.now
        → OnOk result (IsFrameOf (ss ++ x) tile.now frame.new) }
    ensures sizes { D.tells → TellsSizes (D.state disk.old).present
        (family_needs tile.now.family plan.now chain.now.records tile.now children.now) result }
    ensures damage { IfErr result IsDamage }
    ensures state { D.state disk.new ≡ D.state disk.old }
    ensures time { Rests (D.clock disk.old) (D.clock disk.new) (D.since disk.old) (D.since disk.new) }
    ensures cause { IsCaused (D.fault_count disk.old) (D.fault_count disk.new) result }
    ensures reads { D.read_count disk.new ≤ D.read_count disk.old + length
        (family_needs tile.now.family plan.now chain.now.records tile.now children.now) }
{
    match tile.family {
        Family::Elev | Family::Mat => {
            make_own(plan, chain, tile, children, bytes, scratch, frame, disk)
        }
        Family::Low | Family::High => {
            make_extreme(plan, chain, tile, children, bytes, scratch, frame, disk)
        }
    }
}
