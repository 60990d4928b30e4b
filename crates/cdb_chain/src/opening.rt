ghost use Rattle.std.specs.Prelude.{◌≡◌, ◌≤◌, ◌+◌, ◌++◌, ◌∷◌, [], List, Err, length, OnOk};
ghost use Rattle.cdb_model.specs.Causes.{Rose};
ghost use Rattle.cdb_model.specs.Names.{record_path};
ghost use Rattle.cdb_files.specs.Moments.{Rests};
ghost use Rattle.cdb_source.specs.declared.source.Source as given;
ghost use Rattle.cdb_model.specs.Stands.{Stands};
ghost use Rattle.cdb_chain.specs.Versions.{places_of};
ghost use Rattle.cdb_chain.specs.Publications.{OpensTo};
ghost use Rattle.cdb_chain.specs.Opening.{IsOpenedFrom};
ghost use Rattle.cdb_chain.specs.inside.Opening.{AreBytes, IsItem, IsRecordOf};
ghost use Rattle.cdb_model.specs.declared.limits.TheConstants.{MOST_VERSIONS};

use crate::chain::{Chain, push_places};
use crate::open_error::OpenError;
use crate::place::Place;
use cdb_files::Disk;
use cdb_manifest::{RECORD_BYTES, Record, RecordError, decode};
use cdb_names::record_path;
use std::alloc::{AllocError, Global};

/// The bytes of a version's record.
fn read_bytes<D: Disk>(alloc: Global, disk: &mut D, version: u32) -> Result<Vec<u8>, OpenError>
    requires from_one { 1 ≤ version }
    requires to_last { version ≤ MOST_VERSIONS }
    ensures bytes { AreBytes D.tells ((D.state disk.old).present (record_path version)) version result }
    ensures state { D.state disk.new ≡ D.state disk.old }
    ensures time { Rests (D.clock disk.old) (D.clock disk.new) (D.since disk.old) (D.since disk.new) }
    ensures later { D.fault_count disk.old ≤ D.fault_count disk.new }
    ensures failed { result ≡ Err OpenError.Fault → Rose (D.fault_count disk.old) (D.fault_count disk.new) }
{
    let path = record_path(version);
    let size = match disk.size(&path) {
        Ok(Some(size)) => size,
        Ok(None) => return Err(OpenError::NotAStore { version, place: 0 }),
        Err(_) => return Err(OpenError::Fault),
    };
    if size > u64::from(RECORD_BYTES) {
        return Err(OpenError::NotAStore {
            version,
            place: RECORD_BYTES,
        });
    }
    let Ok(mut bytes) = vec![in alloc; 0; size as usize] else {
        return Err(OpenError::Memory);
    };
    match disk.read_at(&path, 0, bytes.as_mut_slice()) {
        Ok(()) => Ok(bytes),
        Err(_) => Err(OpenError::Fault),
    }
}

/// The record that the bytes spell, where it is that of the version.
fn record_in(alloc: Global, bytes: &[u8], version: u32) -> Result<Record, OpenError>
    ensures { IsItem bytes.now version result }
{
    let item = match decode(alloc, bytes) {
        Ok(item) => item,
        Err(RecordError::Memory) => return Err(OpenError::Memory),
        Err(RecordError::Bad { place }) => return Err(OpenError::NotAStore { version, place }),
    };
    if item.version != version {
        return Err(OpenError::NotAStore { version, place: 8 });
    }
    Ok(item)
}

/// The record of a version.
fn read_record<D: Disk>(alloc: Global, disk: &mut D, version: u32) -> Result<Record, OpenError>
    requires from_one { 1 ≤ version }
    requires to_last { version ≤ MOST_VERSIONS }
    ensures item { IsRecordOf D.tells ((D.state disk.old).present (record_path version)) version result }
    ensures state { D.state disk.new ≡ D.state disk.old }
    ensures time { Rests (D.clock disk.old) (D.clock disk.new) (D.since disk.old) (D.since disk.new) }
    ensures later { D.fault_count disk.old ≤ D.fault_count disk.new }
    ensures failed { result ≡ Err OpenError.Fault → Rose (D.fault_count disk.old) (D.fault_count disk.new) }
{
    let bytes = read_bytes(alloc, disk, version)?;
    record_in(alloc, bytes.as_slice(), version)
}

/// Puts a record behind the others, and its tiles behind the index.
fn take_record(
    records: &mut Vec<Record>,
    index: &mut Vec<Place>,
    item: Record,
) -> Result<(), AllocError>
    ensures records { OnOk result (records.new.items ≡ records.old.items ++ item ∷ []) }
    ensures index { OnOk result (index.new.items ≡ index.old.items ++ places_of item.version item.tiles) }
{
    let tiles = item.tiles.as_slice();
    index.reserve(tiles.len())?;
    push_places(index, item.version, tiles);
    records.push(item)?;
    Ok(())
}

impl Chain {
    /// Reads the records of the versions from 1 to the newest. `NotAStore` exactly where one of them
    /// isn't there, is longer than the longest record, isn't of its form, or is of another version:
    /// the first such version, and the place of the first bad byte.
    pub fn open<D: Disk>(alloc: Global, disk: &mut D, newest: u32) -> Result<Chain, OpenError>
        requires { newest ≤ MOST_VERSIONS }
        ensures opened { IsOpenedFrom D.tells (D.state disk.old).present newest result }
        ensures store { D.tells → (P : List (List given.Source)) → Stands (D.state disk.old).present P
            → newest ≡ length P → OpensTo P result }
        ensures state { D.state disk.new ≡ D.state disk.old }
        ensures time { Rests (D.clock disk.old) (D.clock disk.new) (D.since disk.old) (D.since disk.new) }
        ensures later { D.fault_count disk.old ≤ D.fault_count disk.new }
        ensures failed { result ≡ Err OpenError.Fault → Rose (D.fault_count disk.old) (D.fault_count disk.new) }
    {
        let mut records = Vec::new(alloc);
        let mut index = Vec::new(alloc);
        for done in 0..newest {
            let item = match read_record(alloc, disk, done + 1) {
                Ok(item) => item,
                Err(error) => return Err(error),
            };
            take_record(&mut records, &mut index, item)?;
        }
        index.sort_unstable();
        Ok(Chain { records, index })
    }
}
