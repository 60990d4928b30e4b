ghost use Rattle.std.specs.Prelude.{◌≡◌, ℕ, ◌+◌, ◌-◌, ◌^◌, ◌<◌, ◌≤◌, ◌↔◌, ◌⊎◌, ◌++◌, [], min, List, length, take, Some, IsErr, IfOk, OnOk, OnErr, Contains, MatchResult};
ghost use Rattle.std.specs.Io.KnownBytes.{Appends};
ghost use Rattle.cdb_model.specs.Causes.{HasCause};
ghost use Rattle.cdb_front.specs.Devices.{Receipt};
ghost use Rattle.cdb_front.specs.inside.Devices.{WritesLess};
ghost use Rattle.cdb_front.specs.Failures.{FailsOnce};

use crate::output::Output;
use cdb_files::Failed;
use std::alloc::Global;
use std::marker::Model;

/// An output in memory. Its calls are numbered from 1, and those in a list fail. Where memory for
/// a piece is refused, the call fails too.
#[derive(Debug, Drop)]
pub struct MemOutput {
    written: Vec<u8>,
    fails: Vec<u64>,
    calls: u64,
    faults: u64,
    refused: u64,
}

impl Model for MemOutput {
    ghost Value = { Receipt };

    ghost view = { λ m. record {
      written = m.written.items;
      fails = m.fails.items;
      calls = m.calls;
      faults = m.faults;
      refused = m.refused;
    } };
}

impl MemOutput {
    /// An empty output that fails at the calls whose numbers are listed.
    pub fn new(alloc: Global, fails: Vec<u64>) -> MemOutput
        ensures { result ≡ record { written = []; fails = fails.items; calls = 0; faults = 0; refused = 0 } }
    {
        MemOutput {
            written: Vec::new(alloc),
            fails,
            calls: 0,
            faults: 0,
            refused: 0,
        }
    }

    /// The bytes that were written.
    pub fn written(&self) -> &[u8]
        ensures { result.now ≡ self.now.written }
    {
        self.written.as_slice()
    }

    /// How often memory for a piece was refused.
    pub fn refused(&self) -> u64
        ensures { result ≡ self.now.refused }
    {
        self.refused
    }
}

impl Output for MemOutput {
    ghost written = { λ m. Some m.written };

    ghost fault_count = { λ m. m.faults };

    fn write(&mut self, piece: &[u8]) -> Result<usize, Failed>
        ensures most { IfOk result (λ n. n ≤ length piece.now) }
        ensures least { IfOk result (λ n. 0 < length piece.now → 0 < n) }
        ensures bytes { MatchResult result (λ n. Appends (Some self.old.written) (Some self.new.written)
            (take n piece.now)) (λ _. WritesLess (Some self.old.written) (Some self.new.written) piece.now) }
        ensures cause { HasCause self.old.faults self.new.faults result }
        ensures once { FailsOnce result self.old.faults self.new.faults }

        // It fails at the listed calls, and else only where memory was refused.
        ensures listed { Contains self.old.fails self.new.calls → IsErr result }
        ensures failed { OnErr result (Contains self.old.fails self.new.calls
            ⊎ (self.new.refused ≡ min (self.old.refused + 1) (2 ^ 64 - 1))) }
        ensures unrefused { Contains self.old.fails self.new.calls → self.new.refused ≡ self.old.refused }
        ensures calls { self.new.calls ≡ min (self.old.calls + 1) (2 ^ 64 - 1) }
        ensures whole { OnOk result (self.new.written ≡ self.old.written ++ piece.now) }
        ensures nothing { OnErr result (self.new.written ≡ self.old.written) }
        ensures counts { OnOk result ((self.new.faults ≡ self.old.faults) × (self.new.refused ≡ self.old.refused)) }
        ensures fault { OnErr result (self.new.faults ≡ min (self.old.faults + 1) (2 ^ 64 - 1)) }
        ensures same { self.new.fails ≡ self.old.fails }
    {
        self.calls = self.calls.saturating_add(1);
        if self.fails.contains(&self.calls) {
            self.faults = self.faults.saturating_add(1);
            return Err(Failed);
        }
        if self.written.extend_from_slice(piece).is_err() {
            self.refused = self.refused.saturating_add(1);
            self.faults = self.faults.saturating_add(1);
            return Err(Failed);
        }
        Ok(piece.len())
    }
}
