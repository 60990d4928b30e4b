use cdb_files::Path;
use cdb_manifest::Record;
use indexmap::IndexSet;

/// What a publication is to write: its record, the record's bytes, and the folders of its sources
/// and tiles, each once, in the order of first use.
#[derive(Drop)]
pub struct Plan {
    pub(crate) record: Record,
    pub(crate) bytes: Vec<u8>,
    pub(crate) folders: IndexSet<Path>,
}
