//! Laws of the generator, each the contract of a function that does nothing.
ghost use Rattle.cdb_generate.specs.Laws.{DrawnFits, DrawnInOrder, FromOne, OneSummary, SumsInOrder};

/// The first draw from the start 1.
pub fn first_draw_from_one()
    ensures { FromOne }
{}

/// A publication that is drawn has one to three sources, and a load of at most 3,600, so that none is
/// refused as too large.
pub fn drawn_publications_fit()
    ensures { DrawnFits }
{}

/// Publications are drawn one after another, and with each the files and the sum of their tiles grow by
/// those of its own tiles.
pub fn publications_are_drawn_in_order()
    ensures { DrawnInOrder }
{}

/// The sum of tiles grows tile by tile.
pub fn sums_grow_in_order()
    ensures { SumsInOrder }
{}

/// The start and the number of publications fix the publications, and with the list that a store had
/// before, what is written of them.
pub fn one_start_gives_one_summary()
    ensures { OneSummary }
{}
