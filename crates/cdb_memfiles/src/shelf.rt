ghost use Rattle.std.specs.Prelude.{◌≡◌, OnErr, length};
ghost use Rattle.cdb_model.specs.Maps.{HasBytesUpTo};
ghost use Rattle.cdb_memfiles.specs.Calls.{TellsSize, GivesBytes};
ghost use Rattle.cdb_memfiles.specs.Files.{content};
ghost use Rattle.cdb_memfiles.specs.Schedule.{FailsAsListed};

use crate::files::{read_in, size_in};
use crate::schedule::Schedule;
use cdb_files::{Failed, Path, Shelf};
use std::collections::BTreeMap;

/// Source files in memory.
#[derive(Drop)]
pub struct MemShelf {
    files: BTreeMap<Path, Vec<u8>>,
    schedule: Schedule,
}

impl MemShelf {
    ghost use Rattle.cdb_memfiles.specs.Shelf.{shelf_files, shelf_schedule};

    /// A shelf of these files. Its calls are numbered from 1, and those in the list fail.
    pub fn new(files: BTreeMap<Path, Vec<u8>>, fails: Vec<u64>) -> MemShelf
        ensures files { shelf_files result ≡ content files }
        ensures fails { (shelf_schedule result).fails ≡ fails }
        ensures number { (shelf_schedule result).number ≡ 0 }
        ensures faults { (shelf_schedule result).faults ≡ 0 }
    {
        MemShelf {
            files,
            schedule: Schedule::new(fails),
        }
    }
}

impl Shelf for MemShelf {
    ghost use Rattle.cdb_memfiles.specs.Shelf.{shelf_files, shelf_schedule};

    ghost tells = { Unit {0} };

    ghost files = { shelf_files };

    ghost fault_count = { λ shelf. (shelf_schedule shelf).faults };

    fn size(&mut self, path: &Path) -> Result<Option<u64>, Failed>
        ensures size { TellsSize (shelf_files self.old) path.now.bytes result }
        ensures files { shelf_files self.new ≡ shelf_files self.old }
        ensures listed { FailsAsListed (shelf_schedule self.old) (shelf_schedule self.new) result }
    {
        self.schedule.begin()?;
        Ok(size_in(&self.files, path))
    }

    fn read_at(&mut self, path: &Path, at: u64, into: &mut [u8]) -> Result<(), Failed>
        requires { HasBytesUpTo (shelf_files self.old path.now.bytes) at (length into.old) }
        ensures bytes { GivesBytes (shelf_files self.old) path.now.bytes at into.new result }
        ensures kept { OnErr result (into.new ≡ into.old) }
        ensures files { shelf_files self.new ≡ shelf_files self.old }
        ensures listed { FailsAsListed (shelf_schedule self.old) (shelf_schedule self.new) result }
    {
        self.schedule.begin()?;
        read_in(&self.files, path, at, into);
        Ok(())
    }
}
