ghost use Rattle.std.specs.Prelude.{None};

use cdb_front::{Failed, Input};
use std::io::Read;

/// Standard input, which tells nothing of what it has, and a count of its failures.
#[derive(Drop)]
pub struct StdInput<R: Read> {
    reader: R,
    faults: u64,
}

impl<R: Read> StdInput<R> {
    pub fn new(reader: R) -> StdInput<R> {
        StdInput { reader, faults: 0 }
    }
}

impl<R: Read> Input for StdInput<R> {
    ghost left = { λ _. None };

    ghost failed_at = { λ _. None };

    ghost fault_count = { λ input. input.faults };

    fn read(&mut self, into: &mut [u8]) -> Result<usize, Failed> {
        match self.reader.read(into) {
            Ok(count) => Ok(count),
            Err(_) => {
                self.faults = self.faults.saturating_add(1);
                Err(Failed)
            }
        }
    }
}
