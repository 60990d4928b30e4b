//! A file of the shelf, read in one piece.
ghost use Rattle.std.specs.Prelude.{◌≡◌, ◌≤◌, IfOk, IfErr};
ghost use Rattle.cdb_model.specs.Causes.{Rose};
ghost use Rattle.cdb_engine.specs.Loading.{ReadsAll, ReadsNot};

use crate::errors::LoadError;
use cdb_files::{Path, Shelf};
use std::alloc::Global;

/// How many bytes a file has at most.
const FILE_BYTES: u64 = 67_108_864;

/// The bytes of a file.
pub fn read_file<H: Shelf>(alloc: Global, path: &Path, shelf: &mut H) -> Result<Vec<u8>, LoadError>
    ensures reads { IfOk result (λ bytes. ReadsAll H.tells (H.files shelf.old path.now.bytes) bytes.items) }
    ensures unread { IfErr result (ReadsNot H.tells (H.files shelf.old path.now.bytes)) }
    ensures files { H.files shelf.new ≡ H.files shelf.old }
    ensures later { H.fault_count shelf.old ≤ H.fault_count shelf.new }
    ensures failed { result ≡ Err LoadError.Shelf → Rose (H.fault_count shelf.old) (H.fault_count shelf.new) }
{
    let size = match shelf.size(path) {
        Ok(Some(size)) => size,
        Ok(None) => return Err(LoadError::Absent),
        Err(_) => return Err(LoadError::Shelf),
    };
    if size > FILE_BYTES {
        return Err(LoadError::Big { size });
    }
    let Ok(mut bytes) = vec![in alloc; 0; size as usize] else {
        return Err(LoadError::Memory);
    };
    match shelf.read_at(path, 0, bytes.as_mut_slice()) {
        Ok(()) => Ok(bytes),
        Err(_) => Err(LoadError::Shelf),
    }
}
