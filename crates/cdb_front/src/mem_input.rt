ghost use Rattle.std.specs.Prelude.{◌≡◌, ℕ, ◌+◌, ◌-◌, ◌^◌, ◌<◌, ◌≤◌, ◌↔◌, min, List, drop, length, None, Some, IsErr, IfOk, OnOk, OnErr, Contains};
ghost use Rattle.std.specs.Io.KnownBytes.{ReadConsumes};
ghost use Rattle.std.specs.Option.{option_map};
ghost use Rattle.cdb_model.specs.Causes.{HasCause};
ghost use Rattle.cdb_front.specs.Devices.{Supply};
ghost use Rattle.cdb_front.specs.Failures.{FailsOnce, FailsAt};

use crate::input::Input;
use cdb_files::Failed;
use std::marker::Model;

/// An input in memory. Its calls are numbered from 1, and those in a list fail.
#[derive(Debug, Drop)]
pub struct MemInput {
    bytes: Vec<u8>,
    at: usize,
    piece: usize,
    fails: Vec<u64>,
    calls: u64,
    faults: u64,
    failed_at: Option<usize>,
}

impl Model for MemInput {
    ghost Value = { Supply };

    ghost view = { λ m. record {
      left = drop m.at m.bytes.items;
      most = m.piece;
      fails = m.fails.items;
      calls = m.calls;
      faults = m.faults;
      failed_at = option_map (λ at. drop at m.bytes.items) m.failed_at;
    } };

    ghost invariant = { λ m. (m.at ≤ length m.bytes.items) × (0 < m.piece) };
}

impl MemInput {
    /// An input of these bytes, which gives at most `piece` bytes in a call and fails at the calls
    /// whose numbers are listed.
    pub fn new(bytes: Vec<u8>, piece: usize, fails: Vec<u64>) -> MemInput
        requires { 0 < piece }
        ensures { result ≡ record {
          left = bytes.items;
          most = piece;
          fails = fails.items;
          calls = 0;
          faults = 0;
          failed_at = None;
        } }
    {
        MemInput {
            bytes,
            at: 0,
            piece,
            fails,
            calls: 0,
            faults: 0,
            failed_at: None,
        }
    }
}

impl Input for MemInput {
    ghost left = { λ m. Some m.left };

    ghost failed_at = { λ m. m.failed_at };

    ghost fault_count = { λ m. m.faults };

    fn read(&mut self, into: &mut [u8]) -> Result<usize, Failed>
        ensures count { IfOk result (λ n. n ≤ length into.old) }
        ensures bytes { ReadConsumes (Some self.old.left) (Some self.new.left) result into.new }
        ensures cause { HasCause self.old.faults self.new.faults result }
        ensures once { FailsOnce result self.old.faults self.new.faults }
        ensures place { FailsAt result (Some self.new.left) self.old.failed_at self.new.failed_at }

        // It fails at the listed calls alone, and else gives as much as it may.
        ensures listed { IsErr result ↔ Contains self.old.fails self.new.calls }
        ensures calls { self.new.calls ≡ min (self.old.calls + 1) (2 ^ 64 - 1) }
        ensures amount { IfOk result (λ n. n ≡ min (length into.old) (min self.old.most (length self.old.left))) }
        ensures faults { OnOk result (self.new.faults ≡ self.old.faults) }
        ensures fault { OnErr result (self.new.faults ≡ min (self.old.faults + 1) (2 ^ 64 - 1)) }
        ensures same { (self.new.most ≡ self.old.most) × (self.new.fails ≡ self.old.fails) }
    {
        self.calls = self.calls.saturating_add(1);
        if self.fails.contains(&self.calls) {
            self.faults = self.faults.saturating_add(1);
            self.failed_at = Some(self.at);
            return Err(Failed);
        }
        let left = self.bytes.as_slice().split_at(self.at).1;
        let count = into.len().min(self.piece).min(left.len());
        into[..count].copy_from_slice(left.split_at(count).0);
        self.at += count;
        Ok(count)
    }
}
