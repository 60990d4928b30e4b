//! The file of a tile of a publication.
ghost use Rattle.std.specs.Prelude.{◌≡◌, ◌+◌, ◌*◌, ◌<◌, ◌≤◌, ◌++◌, ◌∷◌, [], List, length, take, IfOk, IfErr};
ghost use Rattle.std.specs.Prelude.{slice_get, Some};
ghost use Rattle.cdb_grid.specs.declared.tile.Tile as grid;
ghost use Rattle.cdb_source.specs.declared.source.Source as given;
ghost use Rattle.cdb_model.specs.Publications.{sources_of};
ghost use Rattle.cdb_model.specs.TileFile.{tile_bytes};
ghost use Rattle.cdb_files.specs.Moments.{Rests};
ghost use Rattle.cdb_crash.specs.Plan.{IsMidAfter};
ghost use Rattle.cdb_publish.specs.Causes.{IsCaused};
ghost use Rattle.cdb_chain.specs.Publications.{AreRecords};
ghost use Rattle.cdb_publish.specs.Fitting.{Plans};
ghost use Rattle.cdb_cut.specs.FinerTiles.{AreChildren};
ghost use Rattle.cdb_publish.specs.TileFiles.{family_needs, TileNeeds};
ghost use Rattle.cdb_publish.specs.Needs.{TellsSizes, IsDamage};
ghost use Rattle.cdb_publish.specs.Windows.{HasRoom};
ghost use Rattle.cdb_model.specs.declared.limits.TheConstants.{MOST_TILE_BYTES, MOST_TILE_VALUES};

use crate::errors::StepError;
use crate::plan::Plan;
use crate::tile_values::make_values;
use cdb_chain::Chain;
use cdb_files::Disk;
use cdb_grid::{children, side};
use cdb_tiff_write::{put_file, tile_size};

/// Makes the file of the tile of this number at the front of `bytes`, and answers its length. `bytes`,
/// `scratch` and `frame` have room for the largest tile, and `bytes` and `scratch` for the rows of each
/// source that the tile takes.
pub(crate) fn make_tile<D: Disk>(
    plan: &Plan,
    number: usize,
    chain: &Chain,
    bytes: &mut [u8],
    scratch: &mut [i16],
    frame: &mut [i16],
    disk: &mut D,
) -> Result<usize, StepError>
    requires number { number < length plan.now.record.tiles }
    requires bytes { MOST_TILE_BYTES ≤ length bytes.old }
    requires frame { MOST_TILE_VALUES ≤ length frame.old }
    requires scratch { MOST_TILE_VALUES ≤ length scratch.old }
    requires room { (t : grid.Tile) → slice_get plan.now.record.tiles number ≡ Some t
        → HasRoom plan.now.record.heads t (length scratch.old) }
    requires row_bytes { 2 * length scratch.old ≤ length bytes.old }
    ensures bytes { D.tells → (P : List (List given.Source)) (x : List given.Source) → Plans plan.now P x
        → AreRecords chain.now.records P
        → IsMidAfter P x plan.now.record.tiles (length x + number) (D.state disk.old)
        → (t : grid.Tile) → slice_get plan.now.record.tiles number ≡ Some t
        → IfOk result (λ len. take len bytes.new ≡ tile_bytes (sources_of (P ++ x ∷ [])) t) }
    ensures len { IfOk result (λ len. len ≤ length bytes.new) }
    ensures needs { (t : grid.Tile) → slice_get plan.now.record.tiles number ≡ Some t
        → TileNeeds plan.now chain.now.records t
        (λ needs. (D.tells → TellsSizes (D.state disk.old).present needs result)
        × (D.read_count disk.new ≤ D.read_count disk.old + length needs)) }
    ensures damage { IfErr result IsDamage }
    ensures undamaged { D.tells → (P : List (List given.Source)) (x : List given.Source) → Plans plan.now P x
        → AreRecords chain.now.records P
        → IsMidAfter P x plan.now.record.tiles (length x + number) (D.state disk.old)
        → IfErr result (λ e. e ≡ StepError.Fault) }
    ensures state { D.state disk.new ≡ D.state disk.old }
    ensures time { Rests (D.clock disk.old) (D.clock disk.new) (D.since disk.old) (D.since disk.new) }
    ensures cause { IsCaused (D.fault_count disk.old) (D.fault_count disk.new) result }
{
    let tile = &plan.record.tiles.as_slice()[number];
    let children = children(tile);
    let list = children.as_slice();
    let side = side(tile.level) as usize;
    let size = tile_size(tile);
    let frame = &mut frame[..side * side];
    match make_values(plan, chain, tile, list, bytes, scratch, frame, disk) {
        Ok(()) => {}
        Err(error) => return Err(error),
    }
    put_file(tile, frame, &mut bytes[..size]);
    Ok(size)
}
