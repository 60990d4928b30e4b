ghost use Rattle.std.specs.Prelude.{◌≡◌, ◌≢◌, ◌≤◌, ◌+◌, ◌-◌, ◌↔◌, length, IsErr, OnOk, OnErr};
ghost use Rattle.cdb_model.specs.Causes.{HasCause};
ghost use Rattle.cdb_model.specs.Maps.{folder_above, HasBytesUpTo, IsThere};
ghost use Rattle.cdb_files.specs.Disk.{IsMade, IsSettledAt, after_create, after_append, after_sync_file, after_sync_dir, after_rename, after_remove, after_make_dir, Fails, FailsMakeDir};
ghost use Rattle.cdb_memfiles.specs.Calls.{TellsSize, GivesBytes, TellsFirst, Reads, Changes, IsUnchanged, AddsPart};
ghost use Rattle.cdb_memfiles.specs.Schedule.{one_more};

use crate::mem_disk::MemDisk;
use cdb_files::{Disk, Failed, Path};

/// A disk that passes so many calls on, and then fails each call and changes nothing, as one that
/// is cut off does.
#[derive(Drop)]
pub struct Fuse<D: Disk = MemDisk> {
    disk: D,
    left: u64,
    faults: u64,
}

impl<D: Disk> Fuse<D> {
    ghost use Rattle.cdb_memfiles.specs.Fuse.{inner_of, calls_left, fuse_faults};

    /// Passes `calls` calls to `disk`.
    pub fn new(disk: D, calls: u64) -> Fuse<D>
        ensures inner { inner_of result ≡ disk }
        ensures left { calls_left result ≡ calls }
        ensures faults { fuse_faults result ≡ 0 }
    {
        Fuse {
            disk,
            left: calls,
            faults: 0,
        }
    }

    /// Gives the disk back.
    pub fn disk(self) -> D
        ensures { result ≡ inner_of self }
    {
        let Fuse {
            disk,
            left: _,
            faults: _,
        } = self;
        disk
    }
}

/// Takes one of the calls that are left, or fails where there is none.
fn spend(left: &mut u64, faults: &mut u64) -> Result<(), Failed>
    ensures blown { IsErr result ↔ (left.old ≡ 0) }
    ensures left { left.new ≡ left.old - 1 }
    ensures ok { OnOk result (faults.new ≡ faults.old) }
    ensures err { OnErr result (faults.new ≡ one_more faults.old) }
    ensures cause { HasCause faults.old faults.new result }
{
    if *left == 0 {
        fault(faults);
        return Err(Failed);
    }
    *left -= 1;
    Ok(())
}

/// The answer of the disk, whose failure counts.
fn count_fault<T>(faults: &mut u64, answer: Result<T, Failed>) -> Result<T, Failed>
    ensures same { result ≡ answer }
    ensures ok { OnOk answer (faults.new ≡ faults.old) }
    ensures err { OnErr answer (faults.new ≡ one_more faults.old) }
    ensures later { faults.old ≤ faults.new }
{
    if answer.is_err() {
        fault(faults);
    }
    answer
}

/// One fault more.
fn fault(faults: &mut u64)
    ensures more { faults.new ≡ one_more faults.old }
    ensures later { faults.old ≤ faults.new }
{
    *faults = faults.saturating_add(1);
}

impl<D: Disk> Disk for Fuse<D> {
    ghost use Rattle.cdb_memfiles.specs.Fuse.{inner_of, calls_left, fuse_faults, IsFused};

    ghost tells = { D.tells };

    ghost state = { λ fuse. D.state (inner_of fuse) };

    ghost clock = { λ fuse. D.clock (inner_of fuse) };

    ghost since = { λ fuse. D.since (inner_of fuse) };

    ghost fault_count = { fuse_faults };

    ghost read_count = { λ fuse. D.read_count (inner_of fuse) };

    fn faults(&self) -> u64 {
        self.faults
    }

    fn size(&mut self, path: &Path) -> Result<Option<u64>, Failed>
        ensures size { D.tells → TellsSize (D.state (inner_of self.old)).present path.now.bytes result }
        ensures rests { Reads D.state D.clock D.since (inner_of self.old) (inner_of self.new) }
        ensures reads { D.read_count (inner_of self.new) ≡ D.read_count (inner_of self.old) }
        ensures fused { IsFused D.fault_count self.old self.new result }
    {
        spend(&mut self.left, &mut self.faults)?;
        count_fault(&mut self.faults, self.disk.size(path))
    }

    fn read_at(&mut self, path: &Path, at: u64, into: &mut [u8]) -> Result<(), Failed>
        requires { D.tells → HasBytesUpTo ((D.state (inner_of self.old)).present path.now.bytes) at (length into.old) }
        ensures bytes { D.tells → GivesBytes (D.state (inner_of self.old)).present path.now.bytes at into.new result }
        ensures kept { calls_left self.old ≡ 0 → into.new ≡ into.old }
        ensures rests { Reads D.state D.clock D.since (inner_of self.old) (inner_of self.new) }
        ensures reads { (D.read_count (inner_of self.old) ≤ D.read_count (inner_of self.new))
            × (D.read_count (inner_of self.new) ≤ D.read_count (inner_of self.old) + 1) }
        ensures fused { IsFused D.fault_count self.old self.new result }
    {
        spend(&mut self.left, &mut self.faults)?;
        count_fault(&mut self.faults, self.disk.read_at(path, at, into))
    }

    fn first_under(&mut self, folder: &Path) -> Result<Option<Path>, Failed>
        ensures first { D.tells → TellsFirst (D.state (inner_of self.old)).present folder.now.bytes result }
        ensures rests { Reads D.state D.clock D.since (inner_of self.old) (inner_of self.new) }
        ensures reads { D.read_count (inner_of self.new) ≡ D.read_count (inner_of self.old) }
        ensures fused { IsFused D.fault_count self.old self.new result }
    {
        spend(&mut self.left, &mut self.faults)?;
        count_fault(&mut self.faults, self.disk.first_under(folder))
    }

    fn make_dir(&mut self, folder: &Path) -> Result<(), Failed>
        ensures changes { D.tells → Changes D.state D.clock D.since (after_make_dir folder.now.bytes) FailsMakeDir
            (inner_of self.old) (inner_of self.new) result }
        ensures reads { D.read_count (inner_of self.new) ≡ D.read_count (inner_of self.old) }
        ensures fused { IsFused D.fault_count self.old self.new result }
    {
        spend(&mut self.left, &mut self.faults)?;
        count_fault(&mut self.faults, self.disk.make_dir(folder))
    }

    fn create(&mut self, path: &Path) -> Result<(), Failed>
        requires { D.tells → IsMade (D.state (inner_of self.old)) (folder_above path.now.bytes) }
        ensures changes { D.tells → Changes D.state D.clock D.since (after_create path.now.bytes) Fails
            (inner_of self.old) (inner_of self.new) result }
        ensures reads { D.read_count (inner_of self.new) ≡ D.read_count (inner_of self.old) }
        ensures fused { IsFused D.fault_count self.old self.new result }
    {
        spend(&mut self.left, &mut self.faults)?;
        count_fault(&mut self.faults, self.disk.create(path))
    }

    fn append(&mut self, path: &Path, piece: &[u8]) -> Result<(), Failed>
        requires { D.tells → IsThere ((D.state (inner_of self.old)).present path.now.bytes) }
        ensures changes { D.tells → Changes D.state D.clock D.since (after_append path.now.bytes piece.now)
            (AddsPart path.now.bytes piece.now) (inner_of self.old) (inner_of self.new) result }
        ensures reads { D.read_count (inner_of self.new) ≡ D.read_count (inner_of self.old) }
        ensures fused { IsFused D.fault_count self.old self.new result }
    {
        spend(&mut self.left, &mut self.faults)?;
        count_fault(&mut self.faults, self.disk.append(path, piece))
    }

    fn sync_file(&mut self, path: &Path) -> Result<(), Failed>
        requires { D.tells → IsThere ((D.state (inner_of self.old)).present path.now.bytes) }
        ensures changes { D.tells → Changes D.state D.clock D.since (after_sync_file path.now.bytes) IsUnchanged
            (inner_of self.old) (inner_of self.new) result }
        ensures reads { D.read_count (inner_of self.new) ≡ D.read_count (inner_of self.old) }
        ensures fused { IsFused D.fault_count self.old self.new result }
    {
        spend(&mut self.left, &mut self.faults)?;
        count_fault(&mut self.faults, self.disk.sync_file(path))
    }

    fn sync_dir(&mut self, folder: &Path) -> Result<(), Failed>
        ensures changes { D.tells → Changes D.state D.clock D.since (after_sync_dir folder.now.bytes) IsUnchanged
            (inner_of self.old) (inner_of self.new) result }
        ensures reads { D.read_count (inner_of self.new) ≡ D.read_count (inner_of self.old) }
        ensures fused { IsFused D.fault_count self.old self.new result }
    {
        spend(&mut self.left, &mut self.faults)?;
        count_fault(&mut self.faults, self.disk.sync_dir(folder))
    }

    fn rename(&mut self, from: &Path, to: &Path) -> Result<(), Failed>
        requires beside { folder_above from.now.bytes ≡ folder_above to.now.bytes }
        requires differ { from.now.bytes ≢ to.now.bytes }
        requires there { D.tells → IsThere ((D.state (inner_of self.old)).present from.now.bytes) }
        requires settled { D.tells → IsSettledAt (D.state (inner_of self.old)) from.now.bytes }
        ensures changes { D.tells → Changes D.state D.clock D.since (after_rename from.now.bytes to.now.bytes) Fails
            (inner_of self.old) (inner_of self.new) result }
        ensures reads { D.read_count (inner_of self.new) ≡ D.read_count (inner_of self.old) }
        ensures fused { IsFused D.fault_count self.old self.new result }
    {
        spend(&mut self.left, &mut self.faults)?;
        count_fault(&mut self.faults, self.disk.rename(from, to))
    }

    fn remove(&mut self, path: &Path) -> Result<(), Failed>
        ensures changes { D.tells → Changes D.state D.clock D.since (after_remove path.now.bytes) Fails
            (inner_of self.old) (inner_of self.new) result }
        ensures reads { D.read_count (inner_of self.new) ≡ D.read_count (inner_of self.old) }
        ensures fused { IsFused D.fault_count self.old self.new result }
    {
        spend(&mut self.left, &mut self.faults)?;
        count_fault(&mut self.faults, self.disk.remove(path))
    }

    ghost present_possible = { λ fuse told. D.present_possible (inner_of fuse) told };

    ghost counts_now = { λ fuse t m earlier image. D.counts_now (inner_of fuse) t m earlier image };

    ghost only_now = { λ fuse m been. D.only_now (inner_of fuse) m been };
}
