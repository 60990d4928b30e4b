//! Laws of look-ups. Each function does nothing; its contract is the law.
ghost use Rattle.cdb_chain.specs.LookUps.{LookUpsAreOne};
ghost use Rattle.cdb_chain.specs.Publications.{LookUpsMeetSources, LookUpsNameFiles};

/// The answer of a look-up is a function of the records.
#[tactic(auto, using(crate::proofs::LookLaws::found_is))]
pub fn look_ups_are_one()
    ensures { LookUpsAreOne }
{}

/// Over the records of a list of publications, a look-up finds no version exactly where no source of
/// the publications up to the given version reaches the tile.
#[tactic(auto, using(crate::proofs::ReachedLaws::meets_sources))]
pub fn look_ups_meet_sources()
    ensures { LookUpsMeetSources }
{}

/// Where each version of a list has its files, the file of the version that a look-up finds has the
/// bytes that the sources of all publications up to the given version give.
pub fn look_ups_name_files()
    ensures { LookUpsNameFiles }
{}
