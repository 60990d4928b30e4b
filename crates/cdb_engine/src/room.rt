//! Room for the record of a publication.
ghost use Rattle.std.specs.Prelude.{◌≡◌, ◌≤◌, ◌<◌, ℕ, IfOk, OnOk};
ghost use Rattle.cdb_source.specs.Reached.{IsLoad};
ghost use Rattle.cdb_model.specs.Publications.{heads_of};
ghost use Rattle.cdb_source.specs.declared.limits.TheConstants.{MOST_LOAD};

use cdb_chain::Chain;
use cdb_source::{MOST_LOAD, Source, SourceHead};
use cdb_touch::load;
use std::alloc::{AllocError, Global};

/// The heads of sources, in their order.
pub(crate) fn heads(alloc: Global, sources: &[Source]) -> Result<Vec<SourceHead>, AllocError>
    ensures { IfOk result (λ heads. heads.items ≡ heads_of sources.now) }
{
    sources.iter().map(|source| source.head).collect(alloc)
}

/// Makes room in a chain for the record of a publication of these sources, where their load isn't
/// above 16,384: a publication has no more tiles than that.
pub(crate) fn make_room(
    alloc: Global,
    chain: &mut Chain,
    sources: &[Source],
) -> Result<(), AllocError>
    ensures records { chain.new.records ≡ chain.old.records }
    ensures room { (load : ℕ) → IsLoad (heads_of sources.now) load → load ≤ MOST_LOAD
        → OnOk result (load < chain.new.spare) }
{
    let heads = heads(alloc, sources)?;
    let load = load(heads.as_slice());
    if load <= MOST_LOAD {
        chain.reserve(load as u32)?;
    }
    Ok(())
}
