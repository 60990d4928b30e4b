ghost use Rattle.std.specs.Prelude.{◌≤◌};

use cdb_model::{MOST_TILE_BYTES, MOST_TILE_VALUES};
use std::alloc::{AllocError, Global};

/// The memory in which tiles are built and files are read: enough for the largest tile.
#[derive(Drop)]
pub struct Room {
    /// The values of a tile, the south row first.
    pub(crate) frame: Vec<i16>,
    /// The values of finer tiles under it, one level after the other.
    pub(crate) spare: Vec<i16>,
    /// The bytes that a tile's file must have.
    pub(crate) bytes: Vec<u8>,
    /// The bytes that a file has.
    pub(crate) found: Vec<u8>,
}

/// The numbers of so many of the largest tiles.
fn spare_for(alloc: Global, finer: usize) -> Result<Vec<i16>, AllocError>
    requires { finer ≤ 27 }
{
    vec![in alloc; 0; finer * MOST_TILE_VALUES]
}

impl Room {
    ghost use Rattle.std.specs.Prelude.{IfOk};
    ghost use Rattle.cdb_check.specs.Rooms.{IsRoomy};

    /// Takes the memory, with room for so many finer tiles.
    pub(crate) fn new(alloc: Global, finer: usize) -> Result<Room, AllocError>
        requires { finer ≤ 27 }
        ensures { IfOk result IsRoomy }
    {
        let frame = vec![in alloc; 0; MOST_TILE_VALUES]?;
        let spare = spare_for(alloc, finer)?;
        let bytes = vec![in alloc; 0; MOST_TILE_BYTES]?;
        let found = vec![in alloc; 0; MOST_TILE_BYTES]?;
        Ok(Room {
            frame,
            spare,
            bytes,
            found,
        })
    }
}
