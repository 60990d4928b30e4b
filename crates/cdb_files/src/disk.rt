ghost use Rattle.std.specs.Prelude.{◌≡◌, ◌≢◌, ◌≤◌, ◌+◌, ℕ, length, take, IfOk, OnOk, OnErr, MatchOption};
ghost use Rattle.cdb_model.specs.Causes.{HasCause};
ghost use Rattle.cdb_model.specs.Maps.{FileMap, folder_above, size_of, HasBytesUpTo, HasAt, IsThere, NoneUnder, IsFirstUnder};
ghost use Rattle.cdb_files.specs.Disk.{State, IsImage, IsMade, IsSettledAt, after_create, after_append, after_sync_file, after_sync_dir, after_rename, after_remove, after_make_dir, Fails, FailsAppend, FailsMakeDir};
ghost use Rattle.cdb_files.specs.Moments.{IsBetween, Elapses, Rests, Moves};

use crate::{Failed, Path};

/// Files that are written so that a crash leaves what is promised of them.
pub trait Disk {
    /// It tells what it holds, as a disk in memory does and one over a real folder doesn't.
    ghost tells: { Type 0 };

    /// What it holds at present, what a crash may leave, and the folders that are made.
    ghost state: { Self → State };

    /// The moment that it has reached.
    ghost clock: { Self → ℕ };

    /// A crash at some moment since this one may have left this map.
    ghost since: { Self → ℕ → FileMap → Type 0 };

    /// How many of its calls have failed.
    ghost fault_count: { Self → ℕ };

    /// How many calls of `read_at` it has had.
    ghost read_count: { Self → ℕ };

    /// How many of its calls have failed; the count stays at `2^64 - 1`.
    fn faults(&self) -> u64
        ensures { result ≡ fault_count self.now };

    /// The length of the file in bytes, or `None` where there is no file.
    fn size(&mut self, path: &Path) -> Result<Option<u64>, Failed>
        ensures size { tells → IfOk result (λ size. size ≡ size_of ((state self.old).present path.now.bytes)) }
        ensures state { state self.new ≡ state self.old }
        ensures time { Rests (clock self.old) (clock self.new) (since self.old) (since self.new) }
        ensures cause { HasCause (fault_count self.old) (fault_count self.new) result }
        ensures reads { read_count self.new ≡ read_count self.old };

    /// Fills `into` with the bytes of the file from `at` on. Where it fails, `into` may have any bytes.
    fn read_at(&mut self, path: &Path, at: u64, into: &mut [u8]) -> Result<(), Failed>
        requires { tells → HasBytesUpTo ((state self.old).present path.now.bytes) at (length into.old) }
        ensures bytes { tells → OnOk result (HasAt ((state self.old).present path.now.bytes) at into.new) }
        ensures state { state self.new ≡ state self.old }
        ensures time { Rests (clock self.old) (clock self.new) (since self.old) (since self.new) }
        ensures cause { HasCause (fault_count self.old) (fault_count self.new) result }
        ensures reads { (read_count self.old ≤ read_count self.new) × (read_count self.new ≤ read_count self.old + 1) };

    /// The first file under the folder at any depth, by the order of the bytes of its whole path,
    /// or `None` where there is none.
    fn first_under(&mut self, folder: &Path) -> Result<Option<Path>, Failed>
        ensures first { tells
            → IfOk result (λ found. MatchOption found (NoneUnder (state self.old).present folder.now.bytes)
            (λ path. IsFirstUnder (state self.old).present folder.now.bytes path.bytes)) }
        ensures state { state self.new ≡ state self.old }
        ensures time { Rests (clock self.old) (clock self.new) (since self.old) (since self.new) }
        ensures cause { HasCause (fault_count self.old) (fault_count self.new) result }
        ensures reads { read_count self.new ≡ read_count self.old };

    /// Makes the folder and those above it, and is Ok too where they are there. Where it fails, some
    /// of them may have been made.
    fn make_dir(&mut self, folder: &Path) -> Result<(), Failed>
        ensures ok { tells → OnOk result (state self.new ≡ after_make_dir folder.now.bytes (state self.old)) }
        ensures err { tells → OnErr result
            (FailsMakeDir (state self.old) (after_make_dir folder.now.bytes (state self.old)) (state self.new)) }
        ensures time { tells → Elapses (clock self.old) (clock self.new) (since self.old) (since self.new)
            (IsBetween (state self.old) (after_make_dir folder.now.bytes (state self.old))) }
        ensures moves { tells → Moves (clock self.old) (clock self.new) (state self.old) (state self.new) }
        ensures cause { HasCause (fault_count self.old) (fault_count self.new) result }
        ensures reads { read_count self.new ≡ read_count self.old };

    /// Makes an empty file, also where there was one. Where it fails, the file is as before or as
    /// after it.
    fn create(&mut self, path: &Path) -> Result<(), Failed>
        requires { tells → IsMade (state self.old) (folder_above path.now.bytes) }
        ensures ok { tells → OnOk result (state self.new ≡ after_create path.now.bytes (state self.old)) }
        ensures err { tells → OnErr result
            (Fails (state self.old) (after_create path.now.bytes (state self.old)) (state self.new)) }
        ensures time { tells → Elapses (clock self.old) (clock self.new) (since self.old) (since self.new)
            (IsBetween (state self.old) (after_create path.now.bytes (state self.old))) }
        ensures moves { tells → Moves (clock self.old) (clock self.new) (state self.old) (state self.new) }
        ensures cause { HasCause (fault_count self.old) (fault_count self.new) result }
        ensures reads { read_count self.new ≡ read_count self.old };

    /// Adds `piece` at the end of the file. Where it fails, the first bytes of the piece, or none, may
    /// have been added.
    fn append(&mut self, path: &Path, piece: &[u8]) -> Result<(), Failed>
        requires { tells → IsThere ((state self.old).present path.now.bytes) }
        ensures ok { tells → OnOk result (state self.new ≡ after_append path.now.bytes piece.now (state self.old)) }
        ensures err { tells → OnErr result (FailsAppend path.now.bytes piece.now (state self.old) (state self.new)) }
        ensures time { tells → Elapses (clock self.old) (clock self.new) (since self.old) (since self.new)
            (IsBetween (state self.old) (after_append path.now.bytes piece.now (state self.old))) }
        ensures moves { tells → Moves (clock self.old) (clock self.new) (state self.old) (state self.new) }
        ensures cause { HasCause (fault_count self.old) (fault_count self.new) result }
        ensures reads { read_count self.new ≡ read_count self.old };

    /// Makes sure of the bytes of the file. Where it fails, nothing has changed.
    fn sync_file(&mut self, path: &Path) -> Result<(), Failed>
        requires { tells → IsThere ((state self.old).present path.now.bytes) }
        ensures ok { tells → OnOk result (state self.new ≡ after_sync_file path.now.bytes (state self.old)) }
        ensures err { tells → OnErr result (state self.new ≡ state self.old) }
        ensures time { tells → Elapses (clock self.old) (clock self.new) (since self.old) (since self.new)
            (IsBetween (state self.old) (after_sync_file path.now.bytes (state self.old))) }
        ensures moves { tells → Moves (clock self.old) (clock self.new) (state self.old) (state self.new) }
        ensures cause { HasCause (fault_count self.old) (fault_count self.new) result }
        ensures reads { read_count self.new ≡ read_count self.old };

    /// Makes sure of which files lie directly in the folder. Where it fails, nothing has changed.
    fn sync_dir(&mut self, folder: &Path) -> Result<(), Failed>
        ensures ok { tells → OnOk result (state self.new ≡ after_sync_dir folder.now.bytes (state self.old)) }
        ensures err { tells → OnErr result (state self.new ≡ state self.old) }
        ensures time { tells → Elapses (clock self.old) (clock self.new) (since self.old) (since self.new)
            (IsBetween (state self.old) (after_sync_dir folder.now.bytes (state self.old))) }
        ensures moves { tells → Moves (clock self.old) (clock self.new) (state self.old) (state self.new) }
        ensures cause { HasCause (fault_count self.old) (fault_count self.new) result }
        ensures reads { read_count self.new ≡ read_count self.old };

    /// Gives the file another name in its folder, over what had that name. Where it fails, both names
    /// are as before or both as after it.
    fn rename(&mut self, from: &Path, to: &Path) -> Result<(), Failed>
        requires beside { folder_above from.now.bytes ≡ folder_above to.now.bytes }
        requires differ { from.now.bytes ≢ to.now.bytes }
        requires there { tells → IsThere ((state self.old).present from.now.bytes) }
        requires settled { tells → IsSettledAt (state self.old) from.now.bytes }
        ensures ok { tells → OnOk result (state self.new ≡ after_rename from.now.bytes to.now.bytes (state self.old)) }
        ensures err { tells → OnErr result
            (Fails (state self.old) (after_rename from.now.bytes to.now.bytes (state self.old)) (state self.new)) }
        ensures time { tells → Elapses (clock self.old) (clock self.new) (since self.old) (since self.new)
            (IsBetween (state self.old) (after_rename from.now.bytes to.now.bytes (state self.old))) }
        ensures moves { tells → Moves (clock self.old) (clock self.new) (state self.old) (state self.new) }
        ensures cause { HasCause (fault_count self.old) (fault_count self.new) result }
        ensures reads { read_count self.new ≡ read_count self.old };

    /// Takes the file away, and is Ok too where there is none. Where it fails, the file is as before
    /// or as after it.
    fn remove(&mut self, path: &Path) -> Result<(), Failed>
        ensures ok { tells → OnOk result (state self.new ≡ after_remove path.now.bytes (state self.old)) }
        ensures err { tells → OnErr result
            (Fails (state self.old) (after_remove path.now.bytes (state self.old)) (state self.new)) }
        ensures time { tells → Elapses (clock self.old) (clock self.new) (since self.old) (since self.new)
            (IsBetween (state self.old) (after_remove path.now.bytes (state self.old))) }
        ensures moves { tells → Moves (clock self.old) (clock self.new) (state self.old) (state self.new) }
        ensures cause { HasCause (fault_count self.old) (fault_count self.new) result }
        ensures reads { read_count self.new ≡ read_count self.old };

    /// What is there at present is among what a crash may leave.
    ghost present_possible: { (d : Self) → tells → IsImage (state d) (state d).present };

    /// What a crash may leave now counts since each earlier moment.
    ghost counts_now: { (d : Self) (t : ℕ) (m : FileMap) → t ≤ clock d → IsImage (state d) m → since d t m };

    /// Since the present moment there is nothing else.
    ghost only_now: { (d : Self) (m : FileMap) → since d (clock d) m → IsImage (state d) m };
}
