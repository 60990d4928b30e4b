//! The sources of a publication that is drawn, and the tiles that they touch.
ghost use Rattle.std.specs.Prelude.{◌≡◌, ◌≤◌, ◌+◌, ℕ, ◌++◌, None, IfOk, IfErr, OnOk, length};
ghost use Rattle.cdb_source.specs.Reached.{IsTouched};
ghost use Rattle.cdb_model.specs.Publications.{heads_of};
ghost use Rattle.cdb_generate.specs.Generator.{PublicationDrawn};

use crate::engine::Engine;
use crate::errors::PopulateError;
use crate::room::heads;
use cdb_grid::Tile;
use cdb_source::{MOST_LOAD, Source};
use cdb_touch::{load, touched};
use std::alloc::{AllocError, Global};

/// The tiles that the sources of a publication that is drawn touch.
pub(crate) fn touched_tiles(alloc: Global, sources: &[Source]) -> Result<Vec<Tile>, AllocError>
    requires drawn { (x : ℕ) × PublicationDrawn x sources.now }
    ensures touched { IfOk result (λ tiles. IsTouched (heads_of sources.now) tiles.items) }
    ensures few { IfOk result (λ tiles. length tiles.items ≤ MOST_LOAD) }
{
    let heads = heads(alloc, sources)?;
    let load = load(heads.as_slice());
    prove!(load <= MOST_LOAD);
    match touched(alloc, heads.as_slice()) {
        Ok(tiles) => Ok(tiles),
        Err(_) => Err(AllocError),
    }
}

/// Hands sources to an engine.
pub(crate) fn submit_all(engine: &mut Engine, sources: Vec<Source>) -> Result<(), PopulateError>
    requires running { engine.old.halted ≡ None }
    requires idle { engine.old.work ≡ None }
    requires room { length engine.old.pending + length sources.items ≤ 64 }
    ensures next { OnOk result (engine.new ≡ record engine.old { pending = engine.old.pending ++ sources.items }) }
    ensures same { engine.new ≡ record engine.old { pending = engine.new.pending } }
    ensures memory { IfErr result (λ error. error ≡ PopulateError.Memory) }
{
    let mut sources = sources;
    while !sources.is_empty() {
        let source = sources.remove(0);
        if engine.submit(source).is_err() {
            return Err(PopulateError::Memory);
        }
    }
    Ok(())
}
