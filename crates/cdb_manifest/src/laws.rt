//! Laws of records and of what is told of other bytes. Each function does nothing; its contract is
//! the law.
ghost use Rattle.cdb_manifest.specs.Records.{PublicationsHaveRecords};
ghost use Rattle.cdb_manifest.specs.Lengths.{RecordsHaveLength, RecordsAreShort};
ghost use Rattle.cdb_manifest.specs.Places.{OneBadField, RecordsHaveNoBadPlace};

/// A version, the heads of a publication's sources and the tiles that they touch, in the stated
/// order, are a record. So `decode` takes its text.
pub fn publications_have_records()
    ensures { PublicationsHaveRecords }
{}

/// The first bad field of the same bytes begins at one place. So the place that `decode` tells is
/// the only one that it could tell.
pub fn one_bad_place()
    ensures { OneBadField }
{}

/// The text of a record has no bad field. So where `decode` tells a place, the bytes spell no
/// record.
pub fn records_have_no_bad_place()
    ensures { RecordsHaveNoBadPlace }
{}

/// A record has 20 bytes, 44 for each source and 16 for each tile, so at most 264,980.
pub fn records_have_length()
    ensures length { RecordsHaveLength }
    ensures most { RecordsAreShort }
{}
