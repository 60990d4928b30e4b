//! The finer tiles under a tile, folded in one after the other.
ghost use Rattle.std.specs.Prelude.{◌≡◌, ℕ, ◌+◌, ◌*◌, ◌/◌, ◌%◌, ◌≤◌, ◌++◌, ◌∷◌, [], List, ℤ, Option, All, length};
ghost use Rattle.std.specs.Prelude.{◌==◌, ◌||◌, IsTrue, true, false};
ghost use Rattle.std.specs.Prelude.{OnOk, IfErr};
ghost use Rattle.std.specs.List.{flat_map};
ghost use Rattle.cdb_grid.specs.Children.{IsParent};
ghost use Rattle.cdb_grid.specs.Frames.{IsPartChanged, four_under};
ghost use Rattle.cdb_grid.specs.Tiles.{tile_side};
ghost use Rattle.cdb_grid.specs.declared.tile.Tile as grid;
ghost use Rattle.cdb_source.specs.declared.source.Source as given;
ghost use Rattle.cdb_files.specs.Moments.{Rests};
ghost use Rattle.cdb_cut.specs.Laws.{IsExtreme};
ghost use Rattle.cdb_cut.specs.OneTile.{four_rule, IsFolded, IsWholeFolded};
ghost use Rattle.cdb_publish.specs.Causes.{IsCaused};
ghost use Rattle.cdb_cut.specs.FinerTiles.{AreChildren, IsPlain};
ghost use Rattle.cdb_tiff_write.specs.Samples.{frame_in};
ghost use Rattle.cdb_chain.specs.LookUps.{is_listed};
ghost use Rattle.cdb_publish.specs.LookUps.{look, look_before, needs_of, child_needs};
ghost use Rattle.cdb_publish.specs.inside.LookUps.{IsNamed};
ghost use Rattle.cdb_publish.specs.inside.Older.{folded_needs, StaysOver};
ghost use Rattle.cdb_publish.specs.Needs.{TellsSizes, IsDamage};
ghost use Rattle.cdb_model.specs.declared.limits.TheConstants.{MOST_TILE_BYTES, TILE_HEAD_BYTES};

use crate::errors::StepError;
use crate::look_up::{is_listed, look, look_before};
use crate::plan::Plan;
use crate::tile_read::{check_named, read_named};
use cdb_chain::Chain;
use cdb_cut::copy_part;
use cdb_elev::EvenPosts;
use cdb_files::Disk;
use cdb_grid::{Family, Spot, Tile, side, spot_of};
use cdb_material::MostFrequent;
use cdb_minmax::{Greatest, Least};
use cdb_tiff_write::{bits, fold_file, tile_size};

/// Folds the file of a finer tile into the part of a frame that it stands under, by the rule of its
/// family. `side` is the number of its elements along one side, and `bits` those of an element.
fn fold(
    family: Family,
    bytes: &[u8],
    side: u32,
    bits: u8,
    spot: Spot,
    frame: &mut [i16],
    frame_side: u32,
)
    requires bits { IsTrue (bits == 8 || bits == 16) }
    requires even { side % 2 ≡ 0 }
    requires side { side ≤ 1024 }
    requires bytes { length bytes.now ≡ TILE_HEAD_BYTES + side * side * (bits / 8) }
    requires frame { length frame.old ≡ frame_side * frame_side }
    requires row_fits { spot.row + side / 2 ≤ frame_side }
    requires col_fits { spot.col + side / 2 ≤ frame_side }
    ensures { IsPartChanged (four_under (four_rule family) (frame_in bits bytes.now side) side)
        spot.row spot.col (side / 2) (side / 2) frame_side frame.old frame.new }
{
    match family {
        Family::Elev => fold_file(&EvenPosts, bytes, side, bits, spot, frame, frame_side),
        Family::Low => fold_file(&Least, bytes, side, bits, spot, frame, frame_side),
        Family::High => fold_file(&Greatest, bytes, side, bits, spot, frame, frame_side),
        Family::Mat => fold_file(&MostFrequent, bytes, side, bits, spot, frame, frame_side),
    }
}

/// Folds one finer tile in, where it is named. `bytes` has room for the largest tile.
fn fold_child<D: Disk>(
    plan: &Plan,
    chain: &Chain,
    tile: &Tile,
    child: &Tile,
    bytes: &mut [u8],
    frame: &mut [i16],
    disk: &mut D,
) -> Result<(), StepError>
    requires parent { IsParent child.now tile.now }
    requires bytes { MOST_TILE_BYTES ≤ length bytes.old }
    requires frame { length frame.old ≡ tile_side tile.now * tile_side tile.now }
    ensures folded { D.tells → (ss : List given.Source) (start : ℕ → ℕ → Option ℤ) (done : List grid.Tile)
        → IsNamed (D.state disk.old).present ss child.now (look plan.now chain.now.records child.now)
        → IsPlain tile.now start → IsFolded ss tile.now start done frame.old
        → OnOk result (IsFolded ss tile.now start (done ++ child.now ∷ []) frame.new) }
    ensures sizes { D.tells → TellsSizes (D.state disk.old).present (needs_of child.now
        (look plan.now chain.now.records child.now)) result }
    ensures damage { IfErr result IsDamage }
    ensures state { D.state disk.new ≡ D.state disk.old }
    ensures time { Rests (D.clock disk.old) (D.clock disk.new) (D.since disk.old) (D.since disk.new) }
    ensures cause { IsCaused (D.fault_count disk.old) (D.fault_count disk.new) result }
    ensures reads { D.read_count disk.new ≤ D.read_count disk.old + length (needs_of child.now
        (look plan.now chain.now.records child.now)) }
{
    let version = look(plan, chain, child);
    let spot = spot_of(child);
    let child_side = side(child.level);
    let bits = bits(child.family);
    let bytes = &mut bytes[..tile_size(child)];
    match read_named(version, child, bytes, disk) {
        Ok(true) => {
            fold(
                tile.family,
                bytes,
                child_side,
                bits,
                spot,
                frame,
                side(tile.level),
            );
            Ok(())
        }
        Ok(false) => Ok(()),
        Err(error) => Err(error),
    }
}

/// Leaves the part of a finer tile as the earlier tile has it. Elevations and materials begin with it; for
/// least and greatest elevations it is copied from `older`.
fn keep_child<D: Disk>(
    plan: &Plan,
    chain: &Chain,
    tile: &Tile,
    child: &Tile,
    older: &[i16],
    frame: &mut [i16],
    disk: &mut D,
) -> Result<(), StepError>
    requires parent { IsParent child.now tile.now }
    requires older { IsExtreme tile.now.family → length older.now ≡ tile_side tile.now * tile_side tile.now }
    requires frame { length frame.old ≡ tile_side tile.now * tile_side tile.now }
    ensures folded { (ss : List given.Source) (start : ℕ → ℕ → Option ℤ) (done : List grid.Tile)
        → StaysOver ss tile.now start older.now child.now → IsFolded ss tile.now start done frame.old
        → OnOk result (IsFolded ss tile.now start (done ++ child.now ∷ []) frame.new) }
    ensures sizes { D.tells → TellsSizes (D.state disk.old).present (needs_of child.now
        (look_before plan.now chain.now.records child.now)) result }
    ensures damage { IfErr result IsDamage }
    ensures state { D.state disk.new ≡ D.state disk.old }
    ensures time { Rests (D.clock disk.old) (D.clock disk.new) (D.since disk.old) (D.since disk.new) }
    ensures cause { IsCaused (D.fault_count disk.old) (D.fault_count disk.new) result }
    ensures reads { D.read_count disk.new ≡ D.read_count disk.old }
{
    match check_named(look_before(plan, chain, child), child, disk) {
        Ok(()) => {}
        Err(error) => return Err(error),
    }
    let spot = spot_of(child);
    match tile.family {
        Family::Elev | Family::Mat => {}
        Family::Low | Family::High => {
            let half = side(child.level) / 2;
            copy_part(older, spot, half, frame, side(tile.level));
        }
    }
    Ok(())
}

/// Takes one finer tile: it is folded in, but where parts are taken from the earlier tile, one that the
/// publication doesn't touch is left as it is there.
fn take_child<D: Disk>(
    plan: &Plan,
    chain: &Chain,
    tile: &Tile,
    child: &Tile,
    from_older: bool,
    older: &[i16],
    bytes: &mut [u8],
    frame: &mut [i16],
    disk: &mut D,
) -> Result<(), StepError>
    requires parent { IsParent child.now tile.now }
    requires older { from_older ≡ true → IsExtreme tile.now.family
        → length older.now ≡ tile_side tile.now * tile_side tile.now }
    requires bytes { MOST_TILE_BYTES ≤ length bytes.old }
    requires frame { length frame.old ≡ tile_side tile.now * tile_side tile.now }
    ensures folded { D.tells → (ss : List given.Source) (start : ℕ → ℕ → Option ℤ) (done : List grid.Tile)
        → IsNamed (D.state disk.old).present ss child.now (look plan.now chain.now.records child.now)
        → (from_older ≡ true → is_listed plan.now.record.tiles child.now ≡ false
        → StaysOver ss tile.now start older.now child.now)
        → IsPlain tile.now start → IsFolded ss tile.now start done frame.old
        → OnOk result (IsFolded ss tile.now start (done ++ child.now ∷ []) frame.new) }
    ensures sizes { D.tells → TellsSizes (D.state disk.old).present (needs_of child.now
        (look plan.now chain.now.records child.now)) result }
    ensures damage { IfErr result IsDamage }
    ensures state { D.state disk.new ≡ D.state disk.old }
    ensures time { Rests (D.clock disk.old) (D.clock disk.new) (D.since disk.old) (D.since disk.new) }
    ensures cause { IsCaused (D.fault_count disk.old) (D.fault_count disk.new) result }
    ensures reads { D.read_count disk.new ≤ D.read_count disk.old + length
        (folded_needs from_older plan.now chain.now.records child.now) }
{
    if from_older && !is_listed(plan.record.tiles.as_slice(), child) {
        return keep_child(plan, chain, tile, child, older, frame, disk);
    }
    fold_child(plan, chain, tile, child, bytes, frame, disk)
}

/// Takes all finer tiles, in their order. Where parts are taken from the earlier tile, a frame of
/// elevations or of materials begins with it, and `older` has its values for one of least or greatest
/// elevations.
pub(crate) fn fold_children<D: Disk>(
    plan: &Plan,
    chain: &Chain,
    tile: &Tile,
    children: &[Tile],
    from_older: bool,
    older: &[i16],
    bytes: &mut [u8],
    frame: &mut [i16],
    disk: &mut D,
) -> Result<(), StepError>
    requires children { AreChildren tile.now children.now }
    requires older { from_older ≡ true → IsExtreme tile.now.family
        → length older.now ≡ tile_side tile.now * tile_side tile.now }
    requires bytes { MOST_TILE_BYTES ≤ length bytes.old }
    requires frame { length frame.old ≡ tile_side tile.now * tile_side tile.now }
    ensures folded { D.tells → (ss : List given.Source) (start : ℕ → ℕ → Option ℤ)
        → All (λ c. IsNamed (D.state disk.old).present ss c (look plan.now chain.now.records c)) children.now
        → (from_older ≡ true → (c : grid.Tile) → is_listed plan.now.record.tiles c ≡ false
        → StaysOver ss tile.now start older.now c)
        → IsPlain tile.now start → IsFolded ss tile.now start [] frame.old
        → OnOk result (IsWholeFolded ss tile.now start frame.new) }
    ensures sizes { D.tells → TellsSizes (D.state disk.old).present
        (child_needs plan.now chain.now.records children.now) result }
    ensures damage { IfErr result IsDamage }
    ensures state { D.state disk.new ≡ D.state disk.old }
    ensures time { Rests (D.clock disk.old) (D.clock disk.new) (D.since disk.old) (D.since disk.new) }
    ensures cause { IsCaused (D.fault_count disk.old) (D.fault_count disk.new) result }
    ensures reads { D.read_count disk.new ≤ D.read_count disk.old + length
        (flat_map (folded_needs from_older plan.now chain.now.records) children.now) }
{
    for child in children {
        match take_child(
            plan, chain, tile, child, from_older, older, bytes, frame, disk,
        ) {
            Ok(()) => {}
            Err(error) => return Err(error),
        }
    }
    Ok(())
}
