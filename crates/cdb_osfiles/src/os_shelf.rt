ghost use Rattle.std.specs.Prelude.{◌≡◌, None};

use crate::calls;
use crate::faults::count_fault;
use crate::place::place;
use cdb_files::{Failed, Path, Shelf};
use std::rt::Files;

/// The source files of a real folder, to be read. Links are followed.
#[derive(Drop)]
pub struct OsShelf<R: Files> {
    rt: R,
    root: Path,
    faults: u64,
}

impl<R: Files> OsShelf<R> {
    ghost use Rattle.cdb_osfiles.specs.Faults.{shelf_faults};

    /// The files under the folder `root`, which isn't the empty text. Nothing is asked of the system.
    pub fn new(rt: R, root: Path) -> OsShelf<R>
        ensures { shelf_faults result ≡ 0 }
    {
        OsShelf {
            rt,
            root,
            faults: 0,
        }
    }
}

impl<R: Files> Shelf for OsShelf<R> {
    ghost use Rattle.cdb_osfiles.specs.Faults.{shelf_faults};

    ghost tells = { ⊥ };

    ghost files = { λ _ _. None };

    ghost fault_count = { shelf_faults };

    fn size(&mut self, path: &Path) -> Result<Option<u64>, Failed> {
        let place = place(&self.root, path.as_str());
        count_fault(&mut self.faults, calls::size(&self.rt, place.as_str()))
    }

    fn read_at(&mut self, path: &Path, at: u64, into: &mut [u8]) -> Result<(), Failed> {
        let place = place(&self.root, path.as_str());
        let answer = calls::read_at(&self.rt, place.as_str(), at, into);
        count_fault(&mut self.faults, answer)
    }
}
