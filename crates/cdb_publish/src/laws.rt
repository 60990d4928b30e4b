//! Laws, each the contract of a function that does nothing.
ghost use Rattle.cdb_publish.specs.Laws.{RowsReach, StepsAreCounted};

/// The steps that are made and those that are left are all steps of the publication: its sources, the
/// tiles that it touches, the folders of both, its record and the head.
pub fn steps_are_counted()
    ensures { StepsAreCounted }
{}

/// A source of which a tile takes rows is of exactly its level, and reaches it: so the pairs that the bound
/// on reads counts are no more than those of a touched tile with a new source of its level that reaches it.
pub fn rows_reach()
    ensures { RowsReach }
{}
