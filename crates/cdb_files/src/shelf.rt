ghost use Rattle.std.specs.Prelude.{◌≡◌, ◌≤◌, ℕ, length, IfOk, OnOk};
ghost use Rattle.cdb_model.specs.Causes.{HasCause};
ghost use Rattle.cdb_model.specs.Maps.{FileMap, size_of, HasBytesUpTo, HasAt};

use crate::{Failed, Path};

/// Source files, to be read.
pub trait Shelf {
    /// It tells what it holds, as a shelf in memory does and one over a real folder doesn't.
    ghost tells: { Type 0 };

    /// What it holds.
    ghost files: { Self → FileMap };

    /// How many of its calls have failed.
    ghost fault_count: { Self → ℕ };

    /// The length of the file in bytes, or `None` where there is no file.
    fn size(&mut self, path: &Path) -> Result<Option<u64>, Failed>
        ensures size { tells → IfOk result (λ size. size ≡ size_of (files self.old path.now.bytes)) }
        ensures files { files self.new ≡ files self.old }
        ensures cause { HasCause (fault_count self.old) (fault_count self.new) result };

    /// Fills `into` with the bytes of the file from `at` on. Where it fails, `into` may have any bytes.
    fn read_at(&mut self, path: &Path, at: u64, into: &mut [u8]) -> Result<(), Failed>
        requires { tells → HasBytesUpTo (files self.old path.now.bytes) at (length into.old) }
        ensures bytes { tells → OnOk result (HasAt (files self.old path.now.bytes) at into.new) }
        ensures files { files self.new ≡ files self.old }
        ensures cause { HasCause (fault_count self.old) (fault_count self.new) result };
}
