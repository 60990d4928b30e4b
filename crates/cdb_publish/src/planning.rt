//! A publication is begun.
ghost use Rattle.std.specs.Prelude.{◌≡◌, ℕ, ◌+◌, ◌*◌, ◌≤◌, List, length, reverse, IfOk, IfErr};
ghost use Rattle.cdb_source.specs.Reached.{IsLoad};
ghost use Rattle.cdb_source.specs.declared.source.Source as given;
ghost use Rattle.cdb_model.specs.Publications.{heads_of};
ghost use Rattle.cdb_model.specs.Stands.{Stands};
ghost use Rattle.cdb_crash.specs.Crash.{IsClean};
ghost use Rattle.cdb_chain.specs.Publications.{AreRecords};
ghost use Rattle.cdb_publish.specs.Planning.{RefusesPlan, IsAccepted};
ghost use Rattle.cdb_publish.specs.Ready.{IsReady};

use crate::errors::PlanError;
use crate::frames::Frames;
use crate::outline::outline;
use crate::plan::Plan;
use crate::publication::Publication;
use crate::room::largest_window;
use crate::work::Work;
use cdb_chain::Chain;
use cdb_files::Disk;
use cdb_model::{MOST_TILE_VALUES, TILE_HEAD_BYTES};
use cdb_source::Source;
use std::alloc::{AllocError, Global};

/// A publication that wasn't begun, with its sources.
#[derive(Debug, Drop)]
pub struct PlanRefused {
    pub error: PlanError,
    pub sources: Vec<Source>,
}

/// The memory for the steps of a plan: as many posts as the largest tile has, or the most rows of a source
/// that one of its tiles takes, and the bytes of either.
fn frames(alloc: Global, plan: &Plan) -> Result<Frames, AllocError>
    ensures { IfOk result (IsReady plan.now) }
{
    let window = largest_window(plan.record.heads.as_slice(), plan.record.tiles.as_slice());
    let room = window.max(MOST_TILE_VALUES);
    let bytes = vec![in alloc; 0; 2 * room + TILE_HEAD_BYTES]?;
    let posts = vec![in alloc; 0; MOST_TILE_VALUES]?;
    let scratch = vec![in alloc; 0; room]?;
    Ok(Frames {
        bytes,
        posts,
        scratch,
    })
}

/// The sources, the last one first.
fn last_first(mut sources: Vec<Source>) -> Vec<Source>
    ensures { result.items ≡ reverse sources.items }
{
    sources.as_mut_slice().reverse();
    sources
}

impl Publication {
    ghost use Rattle.cdb_publish.specs.Going.{Underway, IsBegun};

    /// Begins a publication of these sources, of which there are 1 to 64. It takes all the memory that its
    /// steps need, and makes no call of the disk, which is named for the sake of what is promised of the
    /// first step. `Large` exactly where the load of the sources is above 16,384; else `Entries` exactly
    /// where the entries of the chain and the touched tiles together are above 1,000,000; else `Versions`
    /// exactly where there are 4,096 versions. A refusal hands the sources back.
    pub fn plan<D: Disk>(
        alloc: Global,
        chain: &Chain,
        sources: Vec<Source>,
        disk: &mut D,
    ) -> Result<Publication, PlanRefused>
        requires some { 1 ≤ length sources.items }
        requires most { length sources.items ≤ 64 }
        ensures underway { D.tells → (P : List (List given.Source)) → AreRecords chain.now.records P
            → IsClean Stands P (D.state disk.old)
            → IfOk result (λ q. Underway q P sources.items 0 chain.now.records (D.state disk.new)) }
        ensures accepted { IfOk result (λ q. IsAccepted chain.now.records (heads_of sources.items)) }
        ensures begun { IfOk result (λ q. IsBegun q (heads_of sources.items)) }
        ensures few { (load : ℕ) → IsLoad (heads_of sources.items) load → IfOk result (λ q. q.files ≤ load) }
        ensures version { IfOk result (λ q. q.version ≡ length chain.now.records + 1) }
        ensures refused { IfErr result (λ r. RefusesPlan chain.now.records (heads_of sources.items) r.error) }
        ensures back { IfErr result (λ r. r.sources.items ≡ sources.items) }
        ensures disk { disk.new ≡ disk.old }
    {
        let plan = match outline(alloc, chain, sources.as_slice()) {
            Ok(plan) => plan,
            Err(error) => return Err(PlanRefused { error, sources }),
        };
        let Ok(frames) = frames(alloc, &plan) else {
            return Err(PlanRefused {
                error: PlanError::Memory,
                sources,
            });
        };
        Ok(Publication::of_work(Work {
            plan,
            sources: last_first(sources),
            done: 0,
            frames,
        }))
    }
}
