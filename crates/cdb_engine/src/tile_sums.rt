//! The tiles of the newest version are asked for, and their values are summed.
ghost use Rattle.std.specs.Prelude.{◌≡◌, ◌≢◌, ◌≤◌, pos, negsuc, ◌≤ℤ◌, List, length, ℕ, [], ◌∷◌, ◌*◌, All, IfOk, IfErr};
ghost use Rattle.std.specs.Prelude.{Err};
ghost use Rattle.cdb_source.specs.declared.source.Source as sources;
ghost use Rattle.cdb_source.specs.declared.limits.TheConstants.{MOST_LOAD};
ghost use Rattle.cdb_model.specs.TileFile.{tile_bytes};
ghost use Rattle.cdb_generate.specs.Sums.{tile_sum, tiles_sum};
ghost use Rattle.cdb_model.specs.Causes.{Rose};
ghost use Rattle.cdb_model.specs.KnownStore.{KnownState};
ghost use Rattle.cdb_model.specs.Publications.{sources_of, sources_up_to, heads_of};
ghost use Rattle.cdb_model.specs.Stores.{Which, store_kind, known};
ghost use Rattle.cdb_model.specs.Transitions.{StateIn};
ghost use Rattle.cdb_source.specs.Reached.{Reached};
ghost use Rattle.cdb_tiff_write.specs.Rasters.{tile_size};
ghost use Rattle.cdb_engine.specs.Stays.{Stays};
ghost use Rattle.cdb_engine.specs.Tracks.{Origin};
ghost use Rattle.cdb_engine.specs.OtherSizes.{TileFindsOther, FillFindsOther};
ghost use Rattle.cdb_engine.specs.Populating.{IsAtRest};
ghost use Rattle.cdb_engine.specs.inside.Populating.{asked_by, LeavesState, IsOpenAt, Sums};
ghost use Rattle.cdb_model.specs.declared.limits.TheConstants.{MOST_TILE_VALUES};

use crate::engine::Engine;
use crate::errors::PopulateError;
use cdb_files::Disk;
use cdb_generate::sum_posts;
use cdb_grid::{Tile, side};
use cdb_sessions::{Reply, TileError};
use cdb_source::kind_of;
use cdb_tiff_write::{bits, posts_of, tile_size};

/// The sum of the values in the file of a tile, and 0 for bytes of another length. The values are read
/// into `frame`.
fn sum_of_file(bytes: &[u8], tile: &Tile, frame: &mut [i16]) -> i64
    requires frame { length frame.old ≡ MOST_TILE_VALUES }
    ensures sum { (ss : List sources.Source) → bytes.now ≡ tile_bytes ss tile.now → result ≡ tile_sum ss tile.now }
    ensures none { length bytes.now ≢ tile_size tile.now → result ≡ pos 0 }
    ensures least { negsuc 34359738367 ≤ℤ result }
    ensures most { result ≤ℤ pos 34359738368 }
    ensures frame { length frame.new ≡ length frame.old }
{
    if bytes.len() != tile_size(tile) {
        return 0;
    }
    let side = side(tile.level);
    let posts = &mut frame[..side as usize * side as usize];
    posts_of(bytes, side, bits(tile.family), posts);
    sum_posts(kind_of(tile.family), posts)
}

/// Whether a request for a tile was answered.
fn tile_error(answer: Result<Reply, TileError>) -> Result<(), PopulateError>
    ensures asked { result ≡ asked_by answer }
    ensures fault { result ≡ Err PopulateError.Fault → answer ≡ Err TileError.Fault }
    ensures other { IfErr answer TileFindsOther → IfErr result FillFindsOther }
{
    match answer {
        Ok(_) => Ok(()),
        Err(TileError::Unknown) => Ok(()),
        Err(TileError::Fault) => Err(PopulateError::Fault),
        Err(TileError::Damaged { expected, found }) => {
            Err(PopulateError::Damaged { expected, found })
        }
    }
}

/// The sum of the values of a tile in a session; a tile without a file has none.
fn sum_tile<D: Disk>(
    engine: &mut Engine,
    id: u32,
    tile: &Tile,
    disk: &mut D,
    frame: &mut [i16],
) -> Result<i64, PopulateError>
    requires frame { length frame.old ≡ MOST_TILE_VALUES }
    ensures asks { (w : Which) (origin : Origin) (s : StateIn (store_kind w))
        → Stays D.tells D.clock D.fault_count D.since D.state origin disk.old engine.old w s
        → LeavesState w result (Stays D.tells D.clock D.fault_count D.since D.state origin disk.new engine.new w s) }
    ensures sum { (origin : Origin) (s : KnownState) (version : ℕ)
        → Stays D.tells D.clock D.fault_count D.since D.state origin disk.old engine.old known s
        → IsOpenAt s id version (tile.now ∷ [])
        → IfOk result (λ sum. sum ≡ tile_sum (sources_up_to version s.list) tile.now) }
    ensures other { IfErr result FillFindsOther }
    ensures least { IfOk result (λ sum. negsuc 34359738367 ≤ℤ sum) }
    ensures most { IfOk result (λ sum. sum ≤ℤ pos 34359738368) }
    ensures frame { length frame.new ≡ length frame.old }
    ensures later { D.fault_count disk.old ≤ D.fault_count disk.new }
    ensures cause { result ≡ Err PopulateError.Fault → Rose (D.fault_count disk.old) (D.fault_count disk.new) }
{
    match tile_error(engine.tile(id, tile, disk)) {
        Ok(()) => Ok(sum_of_file(engine.reply(), tile, frame)),
        Err(error) => Err(error),
    }
}

/// The sum of the values of tiles in a session.
fn sum_tiles<D: Disk>(
    engine: &mut Engine,
    id: u32,
    tiles: &[Tile],
    disk: &mut D,
    frame: &mut [i16],
) -> Result<i64, PopulateError>
    requires frame { length frame.old ≡ MOST_TILE_VALUES }
    requires few { length tiles.now ≤ MOST_LOAD }
    ensures asks { (w : Which) (origin : Origin) (s : StateIn (store_kind w))
        → Stays D.tells D.clock D.fault_count D.since D.state origin disk.old engine.old w s
        → LeavesState w result (Stays D.tells D.clock D.fault_count D.since D.state origin disk.new engine.new w s) }
    ensures sum { (origin : Origin) (s : KnownState) (version : ℕ)
        → Stays D.tells D.clock D.fault_count D.since D.state origin disk.old engine.old known s
        → IsOpenAt s id version tiles.now
        → IfOk result (λ sum. sum ≡ tiles_sum (sources_up_to version s.list) tiles.now) }
    ensures other { IfErr result FillFindsOther }
    ensures least { IfOk result (λ sum. negsuc 562949953421311 ≤ℤ sum) }
    ensures most { IfOk result (λ sum. sum ≤ℤ pos 562949953421312) }
    ensures frame { length frame.new ≡ length frame.old }
    ensures later { D.fault_count disk.old ≤ D.fault_count disk.new }
    ensures cause { result ≡ Err PopulateError.Fault → Rose (D.fault_count disk.old) (D.fault_count disk.new) }
{
    let mut sum = 0;
    for tile in tiles {
        match sum_tile(engine, id, tile, disk, frame) {
            Ok(more) => sum += more,
            Err(error) => return Err(error),
        }
    }
    Ok(sum)
}

/// The sum of the values of tiles at the newest version: a session is opened, each tile is asked for, and
/// the session is closed.
pub(crate) fn sum_newest<D: Disk>(
    engine: &mut Engine,
    tiles: &[Tile],
    disk: &mut D,
    frame: &mut [i16],
) -> Result<i64, PopulateError>
    requires frame { length frame.old ≡ MOST_TILE_VALUES }
    requires few { length tiles.now ≤ MOST_LOAD }
    ensures sums { (w : Which) (origin : Origin) (s : StateIn (store_kind w))
        → Stays D.tells D.clock D.fault_count D.since D.state origin disk.old engine.old w s → IsAtRest (store_kind w) s
        → Sums w s.list result (Stays D.tells D.clock D.fault_count D.since D.state origin disk.new engine.new w) }
    ensures sum { (origin : Origin) (s : KnownState)
        → Stays D.tells D.clock D.fault_count D.since D.state origin disk.old engine.old known s
        → IsAtRest (store_kind known) s → All (λ t. Reached (heads_of (sources_of s.list)) t) tiles.now
        → IfOk result (λ sum. sum ≡ tiles_sum (sources_of s.list) tiles.now) }
    ensures other { IfErr result FillFindsOther }
    ensures least { IfOk result (λ sum. negsuc 562949953421311 ≤ℤ sum) }
    ensures most { IfOk result (λ sum. sum ≤ℤ pos 562949953421312) }
    ensures frame { length frame.new ≡ length frame.old }
    ensures later { D.fault_count disk.old ≤ D.fault_count disk.new }
    ensures cause { result ≡ Err PopulateError.Fault → Rose (D.fault_count disk.old) (D.fault_count disk.new) }
{
    let id = match engine.open_session() {
        Ok(opened) => opened.id,
        Err(_) => return Err(PopulateError::Memory),
    };
    let sum = match sum_tiles(engine, id, tiles, disk, frame) {
        Ok(sum) => sum,
        Err(error) => return Err(error),
    };
    let _closed = engine.close_session(id);
    Ok(sum)
}
