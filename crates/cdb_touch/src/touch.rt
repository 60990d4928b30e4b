//! The tiles that the sources of a publication touch.
ghost use Rattle.std.specs.Prelude.{◌≡◌, ℕ, ◌↔◌, ◌<◌, Contains, IfOk, IfErr};
ghost use Rattle.cdb_grid.specs.declared.tile.Tile.{Tile};
ghost use Rattle.cdb_source.specs.Reached.{Reached, ListsOnce, IsLoad};
ghost use Rattle.cdb_touch.specs.Touched.{IsAscending, TellsLoad};

use crate::gather::push_touched;
use crate::loads::load;
use cdb_grid::Tile;
use cdb_source::{MOST_LOAD, SourceHead};
use std::alloc::Global;
use thiserror::Error;

/// Why a publication has no list of touched tiles.
#[derive(Clone, Copy, Debug, PartialEq, Eq, Error)]
pub enum TouchError {
    /// Memory ran out.
    #[error("memory was refused")]
    Memory,
    /// The load of the sources, `count`, is above 16,384.
    #[error("the load is {count}, above 16,384")]
    Large { count: u128 },
}

/// Puts tiles into the stated order, each once.
fn sort_once(tiles: &mut Vec<Tile>)
    ensures same { (t : Tile) → Contains tiles.new.items t ↔ Contains tiles.old.items t }
    ensures order { IsAscending tiles.new.items }
{
    tiles.sort_unstable();
    tiles.dedup();
}

/// The tiles that the sources reach, in the stated order, each once. `Large` exactly where the load
/// of the sources is above 16,384. Its time grows with the number of tiles touched.
pub fn touched(alloc: Global, heads: &[SourceHead]) -> Result<Vec<Tile>, TouchError>
    ensures listed { IfOk result (λ tiles. ListsOnce (Reached heads.now) tiles.items) }
    ensures order { IfOk result (λ tiles. IsAscending tiles.items) }
    ensures large { (load : ℕ) → IsLoad heads.now load → (result ≡ Err (TouchError.Large load)) ↔ (MOST_LOAD < load) }
    ensures told { IfErr result (TellsLoad heads.now) }
{
    let count = load(heads);
    if count > MOST_LOAD {
        return Err(TouchError::Large { count });
    }
    let mut tiles = Vec::new(alloc);
    push_touched(&mut tiles, heads).map_err(|_| TouchError::Memory)?;
    sort_once(&mut tiles);
    Ok(tiles)
}
