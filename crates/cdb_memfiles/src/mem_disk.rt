ghost use Rattle.std.specs.Prelude.{◌≡◌, ◌≢◌, ◌≤◌, [], length, IfOk, OnErr};
ghost use Rattle.cdb_model.specs.Maps.{HasBytesUpTo, IsThere};
ghost use Rattle.cdb_files.specs.Disk.{IsImage, after_create, after_append, after_sync_file, after_sync_dir, after_rename, after_remove, after_make_dir, Fails, FailsMakeDir};
ghost use Rattle.cdb_memfiles.specs.Calls.{TellsSize, GivesBytes, TellsFirst, Changes, IsUnchanged, AddsPart};
ghost use Rattle.cdb_memfiles.specs.Crash.{IsCrashed};
ghost use Rattle.cdb_memfiles.specs.inside.HistoryLaws.{present_is_possible, counts_now_too, nothing_later};
ghost use Rattle.cdb_memfiles.specs.Schedule.{one_more};

use crate::call::Call;
use crate::crash::{made_folders, restore_paths, standings};
use crate::pick::Pick;
use crate::record::Record;
use crate::schedule::Schedule;
use cdb_files::{Disk, Failed, Path};
use std::alloc::{AllocError, Global};

/// A disk in memory. It keeps a record of the calls that it answered with Ok, and is what they say.
#[derive(Drop)]
pub struct MemDisk {
    record: Record,
    schedule: Schedule,
    reads: u64,
    refused: u64,
}

/// A growth was refused, and the call fails.
fn refuse(schedule: &mut Schedule, refused: &mut u64) -> Failed
    ensures number { schedule.new.number ≡ schedule.old.number }
    ensures fails { schedule.new.fails ≡ schedule.old.fails }
    ensures faults { schedule.new.faults ≡ one_more schedule.old.faults }
    ensures later { schedule.old.faults ≤ schedule.new.faults }
    ensures refused { refused.new ≡ one_more refused.old }
{
    schedule.fail();
    *refused = refused.saturating_add(1);
    Failed
}

impl MemDisk {
    ghost use Rattle.cdb_memfiles.specs.MemDisk.{history, schedule_of, reads_of, refused_of, disk_state};

    /// An empty disk. Its calls are numbered from 1, and those in the list fail and change nothing.
    pub fn new(alloc: Global, fails: Vec<u64>) -> MemDisk
        ensures history { history result ≡ [] }
        ensures fails { (schedule_of result).fails ≡ fails }
        ensures number { (schedule_of result).number ≡ 0 }
        ensures faults { (schedule_of result).faults ≡ 0 }
        ensures reads { reads_of result ≡ 0 }
        ensures refused { refused_of result ≡ 0 }
    {
        MemDisk {
            record: Record::new(alloc),
            schedule: Schedule::new(fails),
            reads: 0,
            refused: 0,
        }
    }

    /// The disk as it comes back from a crash that leaves what `pick` takes. Its calls are numbered
    /// from 1 again, none of them fails by its number, and its counts begin at 0.
    pub fn crash(self, pick: Pick) -> Result<MemDisk, AllocError>
        ensures crashed { IfOk result (λ disk. IsCrashed pick (disk_state self) (disk_state disk)) }
        ensures image { IfOk result (λ disk. IsImage (disk_state self) (disk_state disk).present) }
        ensures fails { IfOk result (λ disk. (schedule_of disk).fails.items ≡ []) }
        ensures number { IfOk result (λ disk. (schedule_of disk).number ≡ 0) }
        ensures faults { IfOk result (λ disk. (schedule_of disk).faults ≡ 0) }
        ensures reads { IfOk result (λ disk. reads_of disk ≡ 0) }
        ensures refused { IfOk result (λ disk. refused_of disk ≡ 0) }
    {
        let MemDisk {
            record,
            schedule: _,
            reads: _,
            refused: _,
        } = self;
        let Record {
            alloc,
            calls,
            files: _,
        } = record;
        let folders = made_folders(alloc, calls.as_slice())?;
        let table = standings(alloc, calls)?;
        Ok(MemDisk {
            record: restore_paths(folders, table, pick)?,
            schedule: Schedule::new(Vec::new(alloc)),
            reads: 0,
            refused: 0,
        })
    }

    /// How many calls of `read_at` it has had. The count stays at `2^64 - 1`.
    pub fn reads(&self) -> u64
        ensures { result ≡ reads_of self.now }
    {
        self.reads
    }

    /// How many growths of its own were refused. The count stays at `2^64 - 1`.
    pub fn refused(&self) -> u64
        ensures { result ≡ refused_of self.now }
    {
        self.refused
    }
}

impl Disk for MemDisk {
    ghost use Rattle.cdb_memfiles.specs.MemDisk.{history, schedule_of, reads_of, refused_of, disk_state, clock_of, since_of, WritesAsListed, ReadsAsListed};

    ghost tells = { Unit {0} };

    ghost state = { disk_state };

    ghost clock = { clock_of };

    ghost since = { since_of };

    ghost fault_count = { λ disk. (schedule_of disk).faults };

    ghost read_count = { reads_of };

    fn faults(&self) -> u64 {
        self.schedule.faults
    }

    fn size(&mut self, path: &Path) -> Result<Option<u64>, Failed>
        ensures size { TellsSize (disk_state self.old).present path.now.bytes result }
        ensures listed { ReadsAsListed self.old self.new result }
        ensures reads { reads_of self.new ≡ reads_of self.old }
    {
        self.schedule.begin()?;
        Ok(self.record.size(path))
    }

    fn read_at(&mut self, path: &Path, at: u64, into: &mut [u8]) -> Result<(), Failed>
        requires { HasBytesUpTo ((disk_state self.old).present path.now.bytes) at (length into.old) }
        ensures bytes { GivesBytes (disk_state self.old).present path.now.bytes at into.new result }
        ensures kept { OnErr result (into.new ≡ into.old) }
        ensures listed { ReadsAsListed self.old self.new result }
        ensures reads { reads_of self.new ≡ one_more (reads_of self.old) }
        ensures later { reads_of self.old ≤ reads_of self.new }
    {
        self.reads = self.reads.saturating_add(1);
        self.schedule.begin()?;
        self.record.read_at(path, at, into);
        Ok(())
    }

    fn first_under(&mut self, folder: &Path) -> Result<Option<Path>, Failed>
        ensures first { TellsFirst (disk_state self.old).present folder.now.bytes result }
        ensures listed { ReadsAsListed self.old self.new result }
        ensures reads { reads_of self.new ≡ reads_of self.old }
    {
        self.schedule.begin()?;
        Ok(self.record.first_under(folder))
    }

    fn make_dir(&mut self, folder: &Path) -> Result<(), Failed>
        ensures changes { Changes disk_state clock_of since_of (after_make_dir folder.now.bytes) FailsMakeDir
            self.old self.new result }
        ensures listed { WritesAsListed self.old self.new result }
    {
        self.schedule.begin()?;
        match self.record.note(Call::MakeDir(*folder)) {
            Ok(()) => Ok(()),
            Err(AllocError) => Err(refuse(&mut self.schedule, &mut self.refused)),
        }
    }

    fn create(&mut self, path: &Path) -> Result<(), Failed>
        ensures changes { Changes disk_state clock_of since_of (after_create path.now.bytes) Fails
            self.old self.new result }
        ensures listed { WritesAsListed self.old self.new result }
    {
        self.schedule.begin()?;
        match self.record.create(path) {
            Ok(()) => Ok(()),
            Err(AllocError) => Err(refuse(&mut self.schedule, &mut self.refused)),
        }
    }

    fn append(&mut self, path: &Path, piece: &[u8]) -> Result<(), Failed>
        requires { IsThere ((disk_state self.old).present path.now.bytes) }
        ensures changes { Changes disk_state clock_of since_of (after_append path.now.bytes piece.now)
            (AddsPart path.now.bytes piece.now) self.old self.new result }
        ensures listed { WritesAsListed self.old self.new result }
    {
        self.schedule.begin()?;
        match self.record.append(path, piece) {
            Ok(()) => Ok(()),
            Err(AllocError) => Err(refuse(&mut self.schedule, &mut self.refused)),
        }
    }

    fn sync_file(&mut self, path: &Path) -> Result<(), Failed>
        ensures changes { Changes disk_state clock_of since_of (after_sync_file path.now.bytes) IsUnchanged
            self.old self.new result }
        ensures listed { WritesAsListed self.old self.new result }
    {
        self.schedule.begin()?;
        match self.record.note(Call::SyncFile(*path)) {
            Ok(()) => Ok(()),
            Err(AllocError) => Err(refuse(&mut self.schedule, &mut self.refused)),
        }
    }

    fn sync_dir(&mut self, folder: &Path) -> Result<(), Failed>
        ensures changes { Changes disk_state clock_of since_of (after_sync_dir folder.now.bytes) IsUnchanged
            self.old self.new result }
        ensures listed { WritesAsListed self.old self.new result }
    {
        self.schedule.begin()?;
        match self.record.note(Call::SyncDir(*folder)) {
            Ok(()) => Ok(()),
            Err(AllocError) => Err(refuse(&mut self.schedule, &mut self.refused)),
        }
    }

    fn rename(&mut self, from: &Path, to: &Path) -> Result<(), Failed>
        requires differ { from.now.bytes ≢ to.now.bytes }
        requires there { IsThere ((disk_state self.old).present from.now.bytes) }
        ensures changes { Changes disk_state clock_of since_of (after_rename from.now.bytes to.now.bytes) Fails
            self.old self.new result }
        ensures listed { WritesAsListed self.old self.new result }
    {
        self.schedule.begin()?;
        match self.record.rename(from, to) {
            Ok(()) => Ok(()),
            Err(AllocError) => Err(refuse(&mut self.schedule, &mut self.refused)),
        }
    }

    fn remove(&mut self, path: &Path) -> Result<(), Failed>
        ensures changes { Changes disk_state clock_of since_of (after_remove path.now.bytes) Fails
            self.old self.new result }
        ensures listed { WritesAsListed self.old self.new result }
    {
        self.schedule.begin()?;
        match self.record.remove(path) {
            Ok(()) => Ok(()),
            Err(AllocError) => Err(refuse(&mut self.schedule, &mut self.refused)),
        }
    }

    ghost present_possible = { λ disk _. present_is_possible (history disk) };

    ghost counts_now = { λ disk t m earlier image. counts_now_too (history disk) t m earlier image };

    ghost only_now = { λ disk m been. nothing_later (history disk) m been };
}
