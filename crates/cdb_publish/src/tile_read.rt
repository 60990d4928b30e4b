//! The values of a tile from its file.
ghost use Rattle.std.specs.Prelude.{◌≡◌, ◌+◌, ◌*◌, ◌≤◌, ◌∷◌, [], List, Some, length, OnOk};
ghost use Rattle.std.specs.Prelude.{IfOk, IfErr, IfSome};
ghost use Rattle.cdb_grid.specs.Tiles.{tile_side};
ghost use Rattle.cdb_source.specs.declared.source.Source as given;
ghost use Rattle.cdb_model.specs.Names.{path};
ghost use Rattle.cdb_model.specs.TileFile.{tile_bytes};
ghost use Rattle.cdb_files.specs.Moments.{Rests};
ghost use Rattle.cdb_cut.specs.OneTile.{IsFrameOf};
ghost use Rattle.cdb_tiff_write.specs.Rasters.{tile_size};
ghost use Rattle.cdb_publish.specs.Causes.{IsCaused};
ghost use Rattle.cdb_publish.specs.LookUps.{needs_of};
ghost use Rattle.cdb_publish.specs.inside.LookUps.{IsNamed, IsReadFile};
ghost use Rattle.cdb_publish.specs.Needs.{TellsSizes, IsDamage};
ghost use Rattle.cdb_publish.specs.inside.Needs.{IsUnread};
ghost use Rattle.cdb_model.specs.declared.limits.TheConstants.{MOST_TILE_BYTES, MOST_VERSIONS};

use crate::errors::StepError;
use crate::reads::{check_size, read_sized};
use cdb_files::Disk;
use cdb_grid::{Tile, side};
use cdb_names::write_path;
use cdb_tiff_write::{bits, posts_of, tile_size};

/// Reads the file of a version's tile. `bytes` has the length of the file.
fn read_version<D: Disk>(
    version: u32,
    tile: &Tile,
    bytes: &mut [u8],
    disk: &mut D,
) -> Result<(), StepError>
    requires least { 1 ≤ version }
    requires most { version ≤ MOST_VERSIONS }
    requires bytes { length bytes.old ≡ tile_size tile.now }
    ensures read { D.tells → OnOk result ((D.state disk.old).present (path version tile.now) ≡ Some bytes.new) }
    ensures sizes { D.tells → TellsSizes (D.state disk.old).present
        (record { path = path version tile.now; size = tile_size tile.now } ∷ []) result }
    ensures damage { IfErr result IsDamage }
    ensures state { D.state disk.new ≡ D.state disk.old }
    ensures time { Rests (D.clock disk.old) (D.clock disk.new) (D.since disk.old) (D.since disk.new) }
    ensures cause { IsCaused (D.fault_count disk.old) (D.fault_count disk.new) result }
    ensures reads { D.read_count disk.new ≤ D.read_count disk.old + 1 }
    ensures unread { IfErr result (IsUnread (D.read_count disk.old) (D.read_count disk.new)) }
{
    let path = write_path(version, tile);
    read_sized(disk, &path, bytes)
}

/// Reads the values of a version's tile, the south row first. `bytes` has room for the largest tile.
pub(crate) fn read_tile<D: Disk>(
    version: u32,
    tile: &Tile,
    bytes: &mut [u8],
    frame: &mut [i16],
    disk: &mut D,
) -> Result<(), StepError>
    requires least { 1 ≤ version }
    requires most { version ≤ MOST_VERSIONS }
    requires bytes { MOST_TILE_BYTES ≤ length bytes.old }
    requires frame { length frame.old ≡ tile_side tile.now * tile_side tile.now }
    ensures frame { D.tells → (ss : List given.Source) → (D.state disk.old).present (path version tile.now) ≡ Some
        (tile_bytes ss tile.now) → OnOk result (IsFrameOf ss tile.now frame.new) }
    ensures sizes { D.tells → TellsSizes (D.state disk.old).present
        (record { path = path version tile.now; size = tile_size tile.now } ∷ []) result }
    ensures damage { IfErr result IsDamage }
    ensures state { D.state disk.new ≡ D.state disk.old }
    ensures time { Rests (D.clock disk.old) (D.clock disk.new) (D.since disk.old) (D.since disk.new) }
    ensures cause { IsCaused (D.fault_count disk.old) (D.fault_count disk.new) result }
    ensures reads { D.read_count disk.new ≤ D.read_count disk.old + 1 }
    ensures unread { IfErr result (IsUnread (D.read_count disk.old) (D.read_count disk.new)) }
{
    let bytes = &mut bytes[..tile_size(tile)];
    match read_version(version, tile, bytes, disk) {
        Ok(()) => {}
        Err(error) => return Err(error),
    }
    posts_of(bytes, side(tile.level), bits(tile.family), frame);
    Ok(())
}

/// Reads the file of the tile that a look-up named, and says whether it named one. `bytes` has the
/// length of the file.
pub(crate) fn read_named<D: Disk>(
    version: Option<u32>,
    tile: &Tile,
    bytes: &mut [u8],
    disk: &mut D,
) -> Result<bool, StepError>
    requires least { IfSome version (λ v. 1 ≤ v) }
    requires most { IfSome version (λ v. v ≤ MOST_VERSIONS) }
    requires bytes { length bytes.old ≡ tile_size tile.now }
    ensures read { D.tells → (ss : List given.Source) → IsNamed (D.state disk.old).present ss tile.now version
        → IfOk result (IsReadFile ss tile.now bytes.new) }
    ensures sizes { D.tells → TellsSizes (D.state disk.old).present (needs_of tile.now version) result }
    ensures damage { IfErr result IsDamage }
    ensures state { D.state disk.new ≡ D.state disk.old }
    ensures time { Rests (D.clock disk.old) (D.clock disk.new) (D.since disk.old) (D.since disk.new) }
    ensures cause { IsCaused (D.fault_count disk.old) (D.fault_count disk.new) result }
    ensures reads { D.read_count disk.new ≤ D.read_count disk.old + length (needs_of tile.now version) }
{
    let Some(version) = version else {
        return Ok(false);
    };
    match read_version(version, tile, bytes, disk) {
        Ok(()) => Ok(true),
        Err(error) => Err(error),
    }
}

/// Whether the file of the tile that a look-up named, where it named one, has its size.
pub(crate) fn check_named<D: Disk>(
    version: Option<u32>,
    tile: &Tile,
    disk: &mut D,
) -> Result<(), StepError>
    requires least { IfSome version (λ v. 1 ≤ v) }
    requires most { IfSome version (λ v. v ≤ MOST_VERSIONS) }
    ensures sizes { D.tells → TellsSizes (D.state disk.old).present (needs_of tile.now version) result }
    ensures damage { IfErr result IsDamage }
    ensures state { D.state disk.new ≡ D.state disk.old }
    ensures time { Rests (D.clock disk.old) (D.clock disk.new) (D.since disk.old) (D.since disk.new) }
    ensures cause { IsCaused (D.fault_count disk.old) (D.fault_count disk.new) result }
    ensures reads { D.read_count disk.new ≡ D.read_count disk.old }
{
    let Some(version) = version else {
        return Ok(());
    };
    let path = write_path(version, tile);
    check_size(disk, &path, tile_size(tile) as u64)
}
