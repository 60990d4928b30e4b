//! Laws of what a check answers. Each function does nothing; its contract is the law.
ghost use Rattle.cdb_check.specs.Laws.{FindsOne, StoresAgree, AgreeingStoresAreKept};

/// All files are as expected, or one path is that of the first that isn't: never both, and one path. So
/// `check` answers `Ok` exactly where all are, and else the one path.
pub fn check_finds_one()
    ensures { FindsOne }
{}

/// Over a store that stands for a list of publications, with their records, all files are as expected.
/// So `check` tells no difference there, and counts the versions of the list and their files.
pub fn whole_stores_agree()
    ensures { StoresAgree }
{}

/// Records of versions from 1 on whose files are all as expected are those of publications, and each
/// version has its record, its sources and the tiles that they touch, with the bytes that all sources up
/// to it give. So where `check` answers `Ok`, these files are there.
pub fn agreeing_stores_are_kept()
    ensures { AgreeingStoresAreKept }
{}
