//! The folders of a publication.
ghost use Rattle.std.specs.Prelude.{◌≡◌, ◌+◌, ◌≤◌, map, length, OnOk, IfOk};
ghost use Rattle.cdb_model.specs.Maps.{folder_above};
ghost use Rattle.cdb_crash.specs.Plan.{each_once};
ghost use Rattle.cdb_publish.specs.inside.Planning.{paths_in, once_more};

use cdb_files::{Path, folder_above};
use cdb_manifest::Record;
use cdb_names::{source_path, write_path};
use indexmap::IndexSet;
use std::alloc::{AllocError, Global};

/// Adds the folder where it isn't among them.
fn push_once(folders: &mut IndexSet<Path>, folder: Path) -> Result<(), AllocError>
    ensures ok { OnOk result (map (λ f. f.bytes) folders.new.keys ≡ once_more (map
        (λ f. f.bytes) folders.old.keys) folder.bytes) }
    ensures few { length folders.new.keys ≤ length folders.old.keys + 1 }
{
    match folders.insert(folder) {
        Ok(_) => Ok(()),
        Err(_) => Err(AllocError),
    }
}

/// The folders of the sources and tiles of a record, each once, in the order of first use.
pub(crate) fn list_folders(alloc: Global, item: &Record) -> Result<IndexSet<Path>, AllocError>
    ensures folders { IfOk result (λ folders. map (λ f. f.bytes) folders.keys
        ≡ each_once (map folder_above (paths_in item.now.version (length item.now.heads) item.now.tiles))) }
    ensures few { IfOk result (λ folders. length folders.keys ≤ length item.now.heads + length item.now.tiles) }
{
    let mut folders = IndexSet::new(alloc);
    for k in 0..item.heads.as_slice().len() {
        push_once(
            &mut folders,
            folder_above(&source_path(item.version, k as u32 + 1)),
        )?;
    }
    for tile in item.tiles.as_slice() {
        push_once(&mut folders, folder_above(&write_path(item.version, tile)))?;
    }
    Ok(folders)
}
