ghost use Rattle.std.specs.Prelude.{◌≡◌};

use crate::calls;
use crate::faults::count_fault;
use crate::first::first_under;
use crate::folders::{Sure, make_all, sync_folder};
use crate::last_search::LastSearch;
use crate::place::{Place, place};
use cdb_files::{Disk, Failed, Path};
use std::collections::BTreeSet;
use std::fs;
use std::rt::Files;

/// A real folder, as the disk of a store. Links are followed, but for `first_under`, which takes them for
/// files. Want of memory of its own is a failure.
#[derive(Drop)]
pub struct OsDisk<R: Files> {
    rt: R,
    root: Path,
    sure: Sure,
    last: LastSearch,
    faults: u64,
}

impl<R: Files> OsDisk<R> {
    ghost use Rattle.cdb_osfiles.specs.Faults.{disk_faults};

    /// The files under the folder `root`, which isn't the empty text. Nothing is asked of the system.
    pub fn new(rt: R, root: Path) -> OsDisk<R>
    where
        R: AllocGlobal,
        ensures { disk_faults result ≡ 0 }
    {
        let sure = BTreeSet::new(rt.alloc());
        OsDisk {
            rt,
            root,
            sure,
            last: LastSearch::none(),
            faults: 0,
        }
    }

    /// Where the file or the folder stands.
    fn place(&self, path: &Path) -> Place {
        place(&self.root, path.as_str())
    }
}

impl<R: Files> Disk for OsDisk<R> {
    ghost use Rattle.cdb_osfiles.specs.Faults.{disk_faults};
    ghost use Rattle.cdb_osfiles.specs.Untold.{untold};

    ghost tells = { ⊥ };

    ghost state = { λ _. untold };

    ghost clock = { λ _. 0 };

    ghost since = { λ _ _ _. Unit {0} };

    ghost fault_count = { disk_faults };

    ghost read_count = { λ _. 0 };

    ghost present_possible = { λ _ told. absurd told };

    ghost counts_now = { λ _ _ _ _ _. tt };

    ghost only_now = { λ _ _ _ _. tt };

    fn faults(&self) -> u64 {
        self.faults
    }

    fn size(&mut self, path: &Path) -> Result<Option<u64>, Failed> {
        let place = self.place(path);
        count_fault(&mut self.faults, calls::size(&self.rt, place.as_str()))
    }

    fn read_at(&mut self, path: &Path, at: u64, into: &mut [u8]) -> Result<(), Failed> {
        let place = self.place(path);
        let answer = calls::read_at(&self.rt, place.as_str(), at, into);
        count_fault(&mut self.faults, answer)
    }

    fn first_under(&mut self, folder: &Path) -> Result<Option<Path>, Failed> {
        let behind = self.last.behind(folder);
        let answer = first_under(&self.rt, &self.root, folder, behind);
        let found = count_fault(&mut self.faults, answer)?;
        self.last = LastSearch::of(folder, &found);
        Ok(found)
    }

    fn make_dir(&mut self, folder: &Path) -> Result<(), Failed> {
        let answer = make_all(&self.rt, &self.root, folder, &mut self.sure);
        count_fault(&mut self.faults, answer)
    }

    fn create(&mut self, path: &Path) -> Result<(), Failed> {
        let place = self.place(path);
        self.last = LastSearch::none();
        count_fault(&mut self.faults, calls::create(&self.rt, place.as_str()))
    }

    fn append(&mut self, path: &Path, piece: &[u8]) -> Result<(), Failed> {
        let place = self.place(path);
        let answer = calls::append(&self.rt, place.as_str(), piece);
        count_fault(&mut self.faults, answer)
    }

    fn sync_file(&mut self, path: &Path) -> Result<(), Failed> {
        let place = self.place(path);
        count_fault(&mut self.faults, calls::sync(&self.rt, place.as_str()))
    }

    fn sync_dir(&mut self, folder: &Path) -> Result<(), Failed> {
        let answer = sync_folder(&self.rt, &self.root, folder, &mut self.sure);
        count_fault(&mut self.faults, answer)
    }

    fn rename(&mut self, from: &Path, to: &Path) -> Result<(), Failed> {
        let (from, to) = (self.place(from), self.place(to));
        self.last = LastSearch::none();
        let answer = fs::rename(&self.rt, from.as_str(), to.as_str());
        count_fault(&mut self.faults, answer)
    }

    fn remove(&mut self, path: &Path) -> Result<(), Failed> {
        let place = self.place(path);
        count_fault(&mut self.faults, calls::remove(&self.rt, place.as_str()))?;
        self.last.remove(path);
        Ok(())
    }
}
