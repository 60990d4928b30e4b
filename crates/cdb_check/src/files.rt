//! One file after another against what it must be.
ghost use Rattle.std.specs.Prelude.{◌≡◌, ◌↔◌, ◌*◌, ◌≤◌, Some, IsTrue, IfOk, IfErr, OnOk, List, length};
ghost use Rattle.cdb_grid.specs.Tiles.{tile_side};
ghost use Rattle.cdb_model.specs.Names as names;
ghost use Rattle.cdb_model.specs.TileFile.{tile_bytes};
ghost use Rattle.cdb_cut.specs.OneTile.{IsFrameOf};
ghost use Rattle.cdb_tiff_write.specs.Rasters.{tile_size};
ghost use Rattle.cdb_manifest.specs.Entries.{Ascending};
ghost use Rattle.cdb_check.specs.Expected.{SourceFile, a_record, a_tile, IsAsExpected, MayTouch, SpellAll};
ghost use Rattle.cdb_check.specs.inside.Expected.{source_file};
ghost use Rattle.cdb_check.specs.Kept.{AreKeptFrames};
ghost use Rattle.cdb_check.specs.Outcome.{OnlyReads, IsFaultCaused};
ghost use Rattle.cdb_check.specs.inside.Outcome.{Judges, GivesFile, DecodesTo, IsAbout, IsAt, Unread};
ghost use Rattle.cdb_check.specs.Rooms.{IsRoomy};
ghost use Rattle.cdb_check.specs.declared.outcome.CheckError.TheVariants as CheckError;
ghost use Rattle.cdb_model.specs.declared.limits.TheConstants.{MOST_TILE_BYTES, MOST_TILE_VALUES, MOST_VERSIONS};

use crate::compare::{has_bytes, same_head, same_tiles};
use crate::kept::Kept;
use crate::making::make_tile;
use crate::outcome::CheckError;
use crate::room::Room;
use cdb_files::{Disk, Path, ReadSize, read_whole};
use cdb_grid::{Tile, side};
use cdb_manifest::{Record, encode};
use cdb_names::{record_path, source_path, write_path};
use cdb_source::{DecodeError, MOST_LOAD, SOURCE_FRONT_BYTES, Source, SourceHead, decode};
use cdb_tiff_write::{put_file, tile_size};
use cdb_touch::{load, touched};
use std::alloc::Global;

/// Whether heads may be published together, and touch these tiles.
fn may_touch(alloc: Global, heads: &[SourceHead], tiles: &[Tile]) -> Result<bool, CheckError>
    requires { Ascending tiles.now }
    ensures may { IfOk result (λ may. IsTrue may ↔ MayTouch heads.now tiles.now) }
    ensures memory { IfErr result (λ e. e ≡ CheckError.Memory) }
{
    if load(heads) > MOST_LOAD {
        return Ok(false);
    }
    match touched(alloc, heads) {
        Ok(listed) => Ok(same_tiles(listed.as_slice(), tiles)),
        Err(_) => Err(CheckError::Memory),
    }
}

/// Looks whether a file has these bytes. It is read into the first bytes of `found`.
fn look_at<D: Disk>(
    disk: &mut D,
    path: &Path,
    expected: &[u8],
    found: &mut [u8],
) -> Result<(), CheckError>
    requires { length expected.now ≤ length found.old }
    ensures judged { D.tells → Judges ((D.state disk.old).present path.now.bytes ≡ Some expected.now)
        path.now.bytes result }
    ensures length { length found.new ≡ length found.old }
    ensures looks { OnlyReads D.clock D.since D.state D.fault_count disk.old disk.new }
    ensures cause { IsFaultCaused (D.fault_count disk.old) (D.fault_count disk.new) result }
{
    match has_bytes(disk, path, expected, found) {
        Ok(true) => Ok(()),
        Ok(false) => Err(CheckError::Differs { path: *path }),
        Err(_) => Err(CheckError::Fault),
    }
}

/// Looks at the record of a version.
pub(crate) fn check_record<D: Disk>(
    alloc: Global,
    record: &Record,
    room: &mut Room,
    disk: &mut D,
) -> Result<(), CheckError>
    requires ready { IsRoomy room.old }
    ensures judged { D.tells → Judges (IsAsExpected (D.state disk.old).present (a_record «record».now))
        (names.record_path «record».now.version) result }
    ensures ready { IsRoomy room.new }
    ensures looks { OnlyReads D.clock D.since D.state D.fault_count disk.old disk.new }
    ensures cause { IsFaultCaused (D.fault_count disk.old) (D.fault_count disk.new) result }
{
    let path = record_path(record.version);
    let Ok(bytes) = encode(alloc, record) else {
        return Err(CheckError::Memory);
    };
    match look_at(disk, &path, bytes.as_slice(), room.found.as_mut_slice()) {
        Ok(()) => (),
        Err(error) => return Err(error),
    }
    match may_touch(alloc, record.heads.as_slice(), record.tiles.as_slice()) {
        Ok(true) => Ok(()),
        Ok(false) => Err(CheckError::Differs { path }),
        Err(error) => Err(error),
    }
}

/// The source that a file gives, where it has the head that it must have.
fn source_of(
    alloc: Global,
    bytes: &[u8],
    head: &SourceHead,
    path: Path,
) -> Result<Source, CheckError>
    ensures gives { DecodesTo bytes.now head.now result }
    ensures path { IfErr result (IsAbout path.bytes) }
{
    match decode(alloc, bytes) {
        Ok(source) => {
            if same_head(&source.head, head) {
                Ok(source)
            } else {
                Err(CheckError::Differs { path })
            }
        }
        Err(DecodeError::Memory) => Err(CheckError::Memory),
        Err(DecodeError::Bad { place: _ }) => Err(CheckError::Differs { path }),
    }
}

/// The bytes of a file that must have this length.
fn read_sized<D: Disk>(
    alloc: Global,
    path: &Path,
    size: usize,
    disk: &mut D,
) -> Result<Vec<u8>, CheckError>
    ensures read { D.tells → IfOk result (λ bytes. (D.state disk.old).present path.now.bytes ≡ Some bytes.items) }
    ensures unread { D.tells → IfErr result (Unread ((D.state disk.old).present path.now.bytes) size) }
    ensures path { IfErr result (IsAt path.now.bytes) }
    ensures looks { OnlyReads D.clock D.since D.state D.fault_count disk.old disk.new }
    ensures cause { IsFaultCaused (D.fault_count disk.old) (D.fault_count disk.new) result }
{
    let Ok(mut bytes) = vec![in alloc; 0; size] else {
        return Err(CheckError::Memory);
    };
    match read_whole(disk, path, bytes.as_mut_slice()) {
        Ok(ReadSize::Read) => Ok(bytes),
        Ok(ReadSize::Other(_)) => Err(CheckError::Differs { path: *path }),
        Err(_) => Err(CheckError::Fault),
    }
}

/// Looks at the file of a source, and gives the source.
pub(crate) fn check_source<D: Disk>(
    alloc: Global,
    version: u32,
    number: u32,
    head: &SourceHead,
    disk: &mut D,
) -> Result<Source, CheckError>
    requires version_least { 1 ≤ version }
    requires version_most { version ≤ MOST_VERSIONS }
    requires number_least { 1 ≤ number }
    requires number_most { number ≤ 64 }
    ensures gives { D.tells → GivesFile (D.state disk.old).present (source_file version number head.now) result }
    ensures path { IfErr result (IsAt (names.source_path version number)) }
    ensures looks { OnlyReads D.clock D.since D.state D.fault_count disk.old disk.new }
    ensures cause { IsFaultCaused (D.fault_count disk.old) (D.fault_count disk.new) result }
{
    let path = source_path(version, number);
    let size = SOURCE_FRONT_BYTES + 2 * (head.rows as usize * head.cols as usize);
    match read_sized(alloc, &path, size, disk) {
        Ok(bytes) => source_of(alloc, bytes.as_slice(), head, path),
        Err(error) => Err(error),
    }
}

/// Makes the values and the file of a tile from sources, oldest first.
fn make_file(
    sources: &[Source],
    kept: &[Kept],
    tile: &Tile,
    spare: &mut [i16],
    frame: &mut [i16],
    bytes: &mut [u8],
)
    requires kept { AreKeptFrames sources.now kept.now }
    requires frame { length frame.old ≡ tile_side tile.now * tile_side tile.now }
    requires bytes { length bytes.old ≡ tile_size tile.now }
    ensures made { IsFrameOf sources.now tile.now frame.new }
    ensures bytes { bytes.new ≡ tile_bytes sources.now tile.now }
{
    make_tile(sources, kept, tile, spare, frame);
    put_file(tile, frame, bytes);
}

/// Looks at the file of a tile of a version, and keeps the tile for coarser ones. It is made in the first
/// numbers of `frame` and `bytes`, and the file is read into the first bytes of `found`.
fn check_built<D: Disk>(
    alloc: Global,
    version: u32,
    tile: &Tile,
    sources: &[Source],
    kept: &mut Vec<Kept>,
    spare: &mut [i16],
    frame: &mut [i16],
    bytes: &mut [u8],
    found: &mut [u8],
    disk: &mut D,
) -> Result<(), CheckError>
    requires version_least { 1 ≤ version }
    requires version_most { version ≤ MOST_VERSIONS }
    requires kept { AreKeptFrames sources.now kept.old.items }
    requires frame { MOST_TILE_VALUES ≤ length frame.old }
    requires bytes { MOST_TILE_BYTES ≤ length bytes.old }
    requires found { MOST_TILE_BYTES ≤ length found.old }
    ensures judged { D.tells → (files : List SourceFile) → SpellAll (D.state disk.old).present files sources.now
        → Judges (IsAsExpected (D.state disk.old).present (a_tile files version tile.now))
        (names.path version tile.now) result }
    ensures kept { OnOk result (AreKeptFrames sources.now kept.new.items) }
    ensures frame { length frame.new ≡ length frame.old }
    ensures bytes { length bytes.new ≡ length bytes.old }
    ensures found { length found.new ≡ length found.old }
    ensures looks { OnlyReads D.clock D.since D.state D.fault_count disk.old disk.new }
    ensures cause { IsFaultCaused (D.fault_count disk.old) (D.fault_count disk.new) result }
{
    let path = write_path(version, tile);
    let side = side(tile.level) as usize;
    let frame = &mut frame[..side * side];
    let bytes = &mut bytes[..tile_size(tile)];
    make_file(sources, kept.as_slice(), tile, spare, frame, bytes);
    match Kept::keep(alloc, kept, tile, frame) {
        Ok(()) => (),
        Err(_) => return Err(CheckError::Memory),
    }
    look_at(disk, &path, bytes, found)
}

/// Looks at the file of a tile of a version.
pub(crate) fn check_tile<D: Disk>(
    alloc: Global,
    version: u32,
    tile: &Tile,
    sources: &[Source],
    kept: &mut Vec<Kept>,
    room: &mut Room,
    disk: &mut D,
) -> Result<(), CheckError>
    requires version_least { 1 ≤ version }
    requires version_most { version ≤ MOST_VERSIONS }
    requires kept { AreKeptFrames sources.now kept.old.items }
    requires ready { IsRoomy room.old }
    ensures judged { D.tells → (files : List SourceFile) → SpellAll (D.state disk.old).present files sources.now
        → Judges (IsAsExpected (D.state disk.old).present (a_tile files version tile.now))
        (names.path version tile.now) result }
    ensures kept { OnOk result (AreKeptFrames sources.now kept.new.items) }
    ensures ready { IsRoomy room.new }
    ensures looks { OnlyReads D.clock D.since D.state D.fault_count disk.old disk.new }
    ensures cause { IsFaultCaused (D.fault_count disk.old) (D.fault_count disk.new) result }
{
    check_built(
        alloc,
        version,
        tile,
        sources,
        kept,
        room.spare.as_mut_slice(),
        room.frame.as_mut_slice(),
        room.bytes.as_mut_slice(),
        room.found.as_mut_slice(),
        disk,
    )
}
