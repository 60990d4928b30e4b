//! What a publication is to write.
ghost use Rattle.std.specs.Prelude.{◌≡◌, ℕ, ◌+◌, ◌≤◌, ◌<◌, List, length, IfOk, IfErr};
ghost use Rattle.cdb_source.specs.declared.source.Source as given;
ghost use Rattle.cdb_model.specs.Publications.{heads_of};
ghost use Rattle.cdb_model.specs.Stands.{ArePublications};
ghost use Rattle.cdb_chain.specs.Publications.{AreRecords};
ghost use Rattle.cdb_publish.specs.Fitting.{Plans};
ghost use Rattle.cdb_publish.specs.Planning.{RefusesPlan, IsAccepted, IsLight};
ghost use Rattle.cdb_publish.specs.inside.Planning.{IsTooHeavy};
ghost use Rattle.cdb_source.specs.Reached.{IsTouched};

use crate::errors::PlanError;
use crate::folders::list_folders;
use crate::plan::Plan;
use cdb_chain::Chain;
use cdb_grid::Tile;
use cdb_manifest::{Heads, Record, Tiles, encode};
use cdb_model::MOST_VERSIONS;
use cdb_source::{MOST_LOAD, Source, SourceHead};
use cdb_touch::{TouchError, load, touched};
use std::alloc::{AllocError, Global};

/// The most tile entries of all records of a store together.
const ENTRY_LIMIT: u32 = 1_000_000;

/// The heads of sources, in their order.
fn heads(alloc: Global, sources: &[Source]) -> Result<Vec<SourceHead>, AllocError>
    ensures { IfOk result (λ heads. heads.items ≡ heads_of sources.now) }
{
    sources.iter().map(|source| source.head).collect(alloc)
}

/// The tiles that the sources touch, where their load is within its limit.
fn touch(alloc: Global, heads: &[SourceHead]) -> Result<Vec<Tile>, PlanError>
    ensures touched { IfOk result (λ tiles. IsTouched heads.now tiles.items) }
    ensures few { IfOk result (λ tiles. length tiles.items ≤ MOST_LOAD) }
    ensures light { IfOk result (λ tiles. IsLight heads.now) }
    ensures refused { IfErr result (IsTooHeavy heads.now) }
{
    let tiles = match touched(alloc, heads) {
        Ok(tiles) => tiles,
        Err(TouchError::Memory) => return Err(PlanError::Memory),
        Err(TouchError::Large { count }) => return Err(PlanError::Large { count }),
    };
    prove!(load(heads) <= MOST_LOAD);
    Ok(tiles)
}

/// The plan of a publication of these sources.
pub(crate) fn outline(alloc: Global, chain: &Chain, sources: &[Source]) -> Result<Plan, PlanError>
    requires some { 1 ≤ length sources.now }
    requires most { length sources.now ≤ 64 }
    ensures plans { (P : List (List given.Source)) → ArePublications P → AreRecords chain.now.records P
        → IfOk result (λ p. Plans p P sources.now) }
    ensures version { IfOk result (λ p. p.record.version ≡ length chain.now.records + 1) }
    ensures few { IfOk result (λ p. length p.folders.keys ≤ length p.record.heads + length p.record.tiles) }
    ensures heads { IfOk result (λ p. p.record.heads ≡ heads_of sources.now) }
    ensures touched { IfOk result (λ p. IsTouched (heads_of sources.now) p.record.tiles) }
    ensures accepted { IfOk result (λ p. IsAccepted chain.now.records (heads_of sources.now)) }
    ensures refused { IfErr result (RefusesPlan chain.now.records (heads_of sources.now)) }
{
    let heads = heads(alloc, sources)?;
    let tiles = match touch(alloc, heads.as_slice()) {
        Ok(tiles) => tiles,
        Err(error) => return Err(error),
    };
    let newest = chain.newest();
    let count = chain.entries() + tiles.len() as u32;
    if count > ENTRY_LIMIT {
        return Err(PlanError::Entries { count });
    }
    if newest == MOST_VERSIONS {
        return Err(PlanError::Versions);
    }
    let record = Record {
        version: newest + 1,
        heads: Heads::from(heads),
        tiles: Tiles::from(tiles),
    };
    let bytes = encode(alloc, &record)?;
    let folders = list_folders(alloc, &record)?;
    Ok(Plan {
        record,
        bytes,
        folders,
    })
}
