ghost use Rattle.std.specs.Prelude.{◌≡◌, [], None, Some, IfOk, OnOk};
ghost use Rattle.cdb_model.specs.Maps.{Text, put};
ghost use Rattle.cdb_files.specs.Disk.{with_piece};
ghost use Rattle.cdb_memfiles.specs.Files.{bytes_of};
ghost use Rattle.cdb_memfiles.specs.Standing.{never_named, shown, shown_by, kept_in, synced_first};

use crate::standing::{First, Standing};
use cdb_files::{Path, folder_above};
use std::alloc::{AllocError, Global};
use std::collections::BTreeMap;

/// Each path that a call has named.
pub type Standings = BTreeMap<Path, Standing>;

/// What stands at the path, which is taken out of the table.
fn take(table: &mut Standings, path: &Path) -> Standing
    ensures value { shown_by result ≡ shown table.old path.now.bytes }
    ensures rest { shown table.new ≡ put (shown table.old) path.now.bytes never_named }
{
    match table.remove(path) {
        Some(standing) => standing,
        None => Standing {
            now: None,
            first: First::Absent,
        },
    }
}

fn store(table: &mut Standings, path: &Path, standing: Standing) -> Result<(), AllocError>
    ensures { OnOk result (shown table.new ≡ put (shown table.old) path.now.bytes (shown_by standing)) }
{
    match table.insert(*path, standing) {
        Ok(_) => Ok(()),
        Err(_) => Err(AllocError),
    }
}

/// The path is empty, and anything may be left.
pub fn create(table: &mut Standings, alloc: Global, path: &Path) -> Result<(), AllocError>
    ensures { OnOk result (shown table.new ≡ put (shown table.old) path.now.bytes (Some [], None)) }
{
    let standing = Standing {
        now: Some(Vec::new(alloc)),
        first: First::Anything,
    };
    store(table, path, standing)?;
    Ok(())
}

/// The bytes with a piece at their end.
fn longer(file: Option<Vec<u8>>, piece: &[u8]) -> Result<Option<Vec<u8>>, AllocError>
    ensures { IfOk result (λ longer. bytes_of longer ≡ with_piece piece.now (bytes_of file)) }
{
    let Some(mut bytes) = file else {
        return Ok(None);
    };
    bytes.extend_from_slice(piece)?;
    Ok(Some(bytes))
}

/// The piece is added, and anything may be left.
pub fn append(table: &mut Standings, path: &Path, piece: &[u8]) -> Result<(), AllocError>
    ensures { OnOk result
        (shown table.new
        ≡ put (shown table.old) path.now.bytes (with_piece piece.now (shown table.old path.now.bytes).0, None)) }
{
    let Standing { now, first: _ } = take(table, path);
    let standing = Standing {
        now: longer(now, piece)?,
        first: First::Anything,
    };
    store(table, path, standing)?;
    Ok(())
}

/// The file is synced.
pub fn sync_file(table: &mut Standings, path: &Path) -> Result<(), AllocError>
    ensures { OnOk result
        (shown table.new
        ≡ put (shown table.old)
        path.now.bytes ((shown table.old path.now.bytes).0, synced_first (shown table.old path.now.bytes).1)) }
{
    let mut standing = take(table, path);
    standing.sync();
    store(table, path, standing)?;
    Ok(())
}

/// The path is absent, and this may be left beside the rest.
pub fn remove(table: &mut Standings, path: &Path) -> Result<(), AllocError>
    ensures { OnOk result
        (shown table.new ≡ put (shown table.old) path.now.bytes (None, (shown table.old path.now.bytes).1)) }
{
    let standing = take(table, path);
    store(table, path, standing.replace(None))?;
    Ok(())
}

/// `to` has the bytes of `from`, where a crash may leave nothing.
pub fn rename(table: &mut Standings, from: &Path, to: &Path) -> Result<(), AllocError>
    ensures { OnOk result
        (shown table.new
        ≡ put (put (shown table.old)
        to.now.bytes (
          (shown table.old from.now.bytes).0,
          (put (shown table.old) from.now.bytes never_named to.now.bytes).1,
        )) from.now.bytes never_named) }
{
    let Standing { now, first: _ } = take(table, from);
    let standing = take(table, to);
    store(table, to, standing.replace(now))?;
    take(table, from);
    Ok(())
}

/// A file that a crash left, and nothing else.
pub fn restore(table: &mut Standings, path: &Path, bytes: Vec<u8>) -> Result<(), AllocError>
    ensures { OnOk result
        (shown table.new ≡ put (shown table.old) path.now.bytes (Some bytes.items, Some (Some bytes.items))) }
{
    let standing = Standing {
        now: Some(bytes),
        first: First::Present,
    };
    store(table, path, standing)?;
    Ok(())
}

/// The path, where its folder is synced.
fn keep_in(folder: &Path, path: &Path, standing: &mut Standing)
    ensures { shown_by standing.new ≡ kept_in folder.now.bytes path.now.bytes (shown_by standing.old) }
{
    if folder_above(path) == *folder {
        standing.keep();
    }
}

/// Each path directly in the folder is synced.
pub fn sync_dir(table: &mut Standings, folder: &Path)
    ensures { (q : Text) → shown table.new q ≡ kept_in folder.now.bytes q (shown table.old q) }
{
    table.retain(|path, standing| {
        keep_in(folder, path, standing);
        true
    });
}
