ghost use Rattle.std.specs.Prelude.{◌≡◌, ℕ, ◌≤◌, ◌<◌, List, length, take, Option, IfOk, MatchResult};
ghost use Rattle.std.specs.Io.KnownBytes.{Appends};
ghost use Rattle.cdb_model.specs.Causes.{HasCause};
ghost use Rattle.cdb_front.specs.inside.Devices.{WritesLess};
ghost use Rattle.cdb_front.specs.Failures.{FailsOnce};

use cdb_files::Failed;

/// Where the answers go.
pub trait Output {
    /// The bytes that were written, where they are told.
    ghost written: { Self → Option (List ℕ) };

    /// How many calls failed; the count stays at `2^64 - 1`.
    ghost fault_count: { Self → ℕ };

    /// Writes the first bytes of `piece`, at least one where there is one, and answers how many. A
    /// call that fails has written nothing, or some of the first bytes and not all. A byte that was
    /// taken is written once it is handed on: where what was taken can't be flushed, the last byte of
    /// it isn't written.
    fn write(&mut self, piece: &[u8]) -> Result<usize, Failed>
        ensures most { IfOk result (λ n. n ≤ length piece.now) }
        ensures least { IfOk result (λ n. 0 < length piece.now → 0 < n) }
        ensures bytes { MatchResult result (λ n. Appends (written self.old) (written self.new) (take n piece.now))
            (λ _. WritesLess (written self.old) (written self.new) piece.now) }
        ensures cause { HasCause (fault_count self.old) (fault_count self.new) result }
        ensures once { FailsOnce result (fault_count self.old) (fault_count self.new) };
}
