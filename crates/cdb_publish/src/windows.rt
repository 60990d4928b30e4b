//! The rows of new sources, painted where a tile has no value.
ghost use Rattle.std.specs.Prelude.{◌≡◌, ℕ, ◌+◌, ◌*◌, ◌<◌, ◌≤◌, ◌∷◌, [], List, length, slice_get, Some, OnOk, IfErr};
ghost use Rattle.std.specs.Prelude.{◌-◌};
ghost use Rattle.cdb_grid.specs.Tiles.{tile_side};
ghost use Rattle.cdb_source.specs.Texts.{source_text};
ghost use Rattle.cdb_source.specs.declared.head.SourceHead as heads;
ghost use Rattle.cdb_source.specs.declared.source.Source as given;
ghost use Rattle.cdb_model.specs.Publications.{heads_of};
ghost use Rattle.cdb_model.specs.Names.{source_path};
ghost use Rattle.cdb_files.specs.Moments.{Rests};
ghost use Rattle.cdb_cut.specs.OneTile.{IsPaintedBy};
ghost use Rattle.cdb_cut.specs.Window.{rows_of};
ghost use Rattle.cdb_publish.specs.Causes.{IsCaused};
ghost use Rattle.cdb_publish.specs.Needs.{TellsSizes, IsDamage};
ghost use Rattle.cdb_publish.specs.Windows.{source_size, window_need, window_needs, HasRoomFor, HasRoom};
ghost use Rattle.cdb_publish.specs.inside.Windows.{HasSources};
ghost use Rattle.cdb_model.specs.declared.limits.TheConstants.{MOST_VERSIONS};

use crate::errors::StepError;
use crate::plan::Plan;
use crate::reads::read_part;
use cdb_cut::{Rows, paint, window};
use cdb_files::Disk;
use cdb_grid::Tile;
use cdb_names::source_path;
use cdb_source::{SOURCE_FRONT_BYTES, SourceHead, decode_posts};

/// Reads rows of a version's source from its file.
fn read_rows<D: Disk>(
    version: u32,
    number: u32,
    head: &SourceHead,
    rows: Rows,
    bytes: &mut [u8],
    posts: &mut [i16],
    disk: &mut D,
) -> Result<(), StepError>
    requires least { 1 ≤ version }
    requires most { version ≤ MOST_VERSIONS }
    requires from_one { 1 ≤ number }
    requires to_last { number ≤ 64 }
    requires within { rows.first + rows.count ≤ head.now.rows }
    requires posts { length posts.old ≡ rows.count * head.now.cols }
    requires bytes { length bytes.old ≡ 2 * length posts.old }
    ensures posts { D.tells → (s : given.Source) → s.head ≡ head.now
        → (D.state disk.old).present (source_path version number) ≡ Some (source_text s)
        → OnOk result (posts.new ≡ rows_of s rows.first rows.count) }
    ensures sizes { D.tells → TellsSizes (D.state disk.old).present
        (record { path = source_path version number; size = source_size head.now } ∷ []) result }
    ensures damage { IfErr result IsDamage }
    ensures state { D.state disk.new ≡ D.state disk.old }
    ensures time { Rests (D.clock disk.old) (D.clock disk.new) (D.since disk.old) (D.since disk.new) }
    ensures cause { IsCaused (D.fault_count disk.old) (D.fault_count disk.new) result }
    ensures reads { D.read_count disk.new ≤ D.read_count disk.old + 1 }
{
    let path = source_path(version, number);
    let cols = head.cols as u64;
    let size = SOURCE_FRONT_BYTES as u64 + 2 * (head.rows as u64 * cols);
    let at = SOURCE_FRONT_BYTES as u64 + 2 * (rows.first as u64 * cols);
    match read_part(disk, &path, size, at, bytes) {
        Ok(()) => {}
        Err(error) => return Err(error),
    }
    decode_posts(head.kind, bytes, posts);
    Ok(())
}

/// Paints the new source of this number, which counts from 0, where its level is exactly the tile's.
fn paint_source<D: Disk>(
    plan: &Plan,
    number: usize,
    tile: &Tile,
    bytes: &mut [u8],
    posts: &mut [i16],
    frame: &mut [i16],
    disk: &mut D,
) -> Result<(), StepError>
    requires number { number < length plan.now.record.heads }
    requires room { (head : heads.SourceHead) → slice_get plan.now.record.heads number ≡ Some head
        → HasRoomFor head tile.now (length posts.old) }
    requires bytes { 2 * length posts.old ≤ length bytes.old }
    requires frame { length frame.old ≡ tile_side tile.now * tile_side tile.now }
    ensures painted { D.tells → (s : given.Source) → slice_get plan.now.record.heads number ≡ Some s.head
        → (D.state disk.old).present (source_path plan.now.record.version (number + 1)) ≡ Some (source_text s)
        → (ss own : List given.Source) → IsPaintedBy ss tile.now own frame.old
        → OnOk result (IsPaintedBy ss tile.now (s ∷ own) frame.new) }
    ensures sizes { D.tells → (head : heads.SourceHead) → slice_get plan.now.record.heads number ≡ Some head
        → TellsSizes (D.state disk.old).present (window_need plan.now.record.version
        (number + 1) head tile.now) result }
    ensures damage { IfErr result IsDamage }
    ensures state { D.state disk.new ≡ D.state disk.old }
    ensures time { Rests (D.clock disk.old) (D.clock disk.new) (D.since disk.old) (D.since disk.new) }
    ensures cause { IsCaused (D.fault_count disk.old) (D.fault_count disk.new) result }
    ensures reads { (head : heads.SourceHead) → slice_get plan.now.record.heads number ≡ Some head
        → D.read_count disk.new ≤ D.read_count disk.old + length (window_need plan.now.record.version
        (number + 1) head tile.now) }
{
    let head = &plan.record.heads.as_slice()[number];
    if head.level.number != tile.level.number {
        return Ok(());
    }
    let Some(rows) = window(head, tile) else {
        return Ok(());
    };
    let count = rows.count as usize * head.cols as usize;
    let posts = &mut posts[..count];
    match read_rows(
        plan.record.version,
        number as u32 + 1,
        head,
        rows,
        &mut bytes[..2 * count],
        posts,
        disk,
    ) {
        Ok(()) => {}
        Err(error) => return Err(error),
    }
    paint(head, rows, posts, tile, frame);
    Ok(())
}

/// Paints the new sources of exactly the tile's level, newest first, where there is no value.
pub(crate) fn paint_sources<D: Disk>(
    plan: &Plan,
    tile: &Tile,
    bytes: &mut [u8],
    posts: &mut [i16],
    frame: &mut [i16],
    disk: &mut D,
) -> Result<(), StepError>
    requires room { HasRoom plan.now.record.heads tile.now (length posts.old) }
    requires bytes { 2 * length posts.old ≤ length bytes.old }
    requires frame { length frame.old ≡ tile_side tile.now * tile_side tile.now }
    ensures painted { D.tells → (ss x : List given.Source) → plan.now.record.heads ≡ heads_of x
        → HasSources (D.state disk.old).present plan.now.record.version x
        → IsPaintedBy ss tile.now [] frame.old → OnOk result (IsPaintedBy ss tile.now x frame.new) }
    ensures sizes { D.tells → TellsSizes (D.state disk.old).present
        (window_needs plan.now.record.version 1 plan.now.record.heads tile.now) result }
    ensures damage { IfErr result IsDamage }
    ensures state { D.state disk.new ≡ D.state disk.old }
    ensures time { Rests (D.clock disk.old) (D.clock disk.new) (D.since disk.old) (D.since disk.new) }
    ensures cause { IsCaused (D.fault_count disk.old) (D.fault_count disk.new) result }
    ensures reads { D.read_count disk.new ≤ D.read_count disk.old + length
        (window_needs plan.now.record.version 1 plan.now.record.heads tile.now) }
{
    let count = plan.record.heads.as_slice().len();
    for done in 0..count {
        match paint_source(plan, count - 1 - done, tile, bytes, posts, frame, disk) {
            Ok(()) => {}
            Err(error) => return Err(error),
        }
    }
    Ok(())
}
