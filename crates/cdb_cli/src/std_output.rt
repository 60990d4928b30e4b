ghost use Rattle.std.specs.Prelude.{None, ◌<◌, ◌≤◌, length, IfOk};

use cdb_front::{Failed, Output};
use std::io::Write;

/// Standard output, which tells nothing of what it took, and a count of its failures. Each write
/// is flushed.
#[derive(Drop)]
pub struct StdOutput<W: Write> {
    writer: W,
    faults: u64,
}

impl<W: Write> StdOutput<W> {
    pub fn new(writer: W) -> StdOutput<W> {
        StdOutput { writer, faults: 0 }
    }
}

/// A writer that takes nothing of a piece that isn't empty has failed. So has one that can't flush what
/// it took: of that some first bytes may be written, and the last one isn't.
fn write_flushed<W: Write>(writer: &mut W, piece: &[u8]) -> Result<usize, Failed>
    ensures most { IfOk result (λ n. n ≤ length piece.now) }
    ensures least { IfOk result (λ n. 0 < length piece.now → 0 < n) }
{
    let Ok(count) = writer.write(piece) else {
        return Err(Failed);
    };
    if count == 0 && !piece.is_empty() {
        return Err(Failed);
    }
    match writer.flush() {
        Ok(()) => Ok(count),
        Err(_) => Err(Failed),
    }
}

impl<W: Write> Output for StdOutput<W> {
    ghost written = { λ _. None };

    ghost fault_count = { λ output. output.faults };

    fn write(&mut self, piece: &[u8]) -> Result<usize, Failed> {
        match write_flushed(&mut self.writer, piece) {
            Ok(count) => Ok(count),
            Err(failed) => {
                self.faults = self.faults.saturating_add(1);
                Err(failed)
            }
        }
    }
}
