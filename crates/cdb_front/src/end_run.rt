ghost use Rattle.std.specs.Prelude.{◌≡◌, ◌≢◌, ◌≤◌, ◌++◌, length};
ghost use Rattle.cdb_model.specs.Text.{ended};
ghost use Rattle.cdb_model.specs.Causes.{Rose};
ghost use Rattle.cdb_front.specs.Failures.{WritesOnce};
ghost use Rattle.cdb_front.specs.RunOutcome.{EndsWith};
ghost use Rattle.cdb_front.specs.StatusCodes.{status_line, limit_text};

use crate::answer_text::{line, line_with, line_with_two, sizes_line, word};
use crate::exit_status::{Limit, Status};
use crate::output::Output;
use crate::write::write_all;
use arrayvec::ArrayString;
use cdb_files::Path;

/// A line as one with room for a path.
fn widen(line: ArrayString<64>) -> ArrayString<160>
    ensures { result.bytes ≡ line.bytes }
{
    let mut wide = ArrayString::new();
    wide.push_str(line.as_str());
    wide
}

/// A line with a path.
fn path_line(name: &str, path: &Path) -> ArrayString<160>
    requires { length name.now ≤ 20 }
    ensures { result.bytes ≡ ended (name.now ++ path.now.bytes) }
{
    let mut text = ArrayString::new();
    text.push_str(name);
    text.push_str(path.as_str());
    text.push('\n');
    text
}

/// The line of a limit.
fn limit_line(limit: &Limit) -> ArrayString<64>
    ensures { result.bytes ≡ limit_text limit.now }
{
    match limit {
        Limit::Entries { count } => line_with("cdb: refused entries", *count),
        Limit::Versions => line(word("cdb: refused versions")),
    }
}

/// The line that is written before a run ends so.
fn line_of(status: &Status) -> ArrayString<160>
    ensures { result.bytes ≡ status_line status.now }
{
    match status {
        Status::Done | Status::OutputFault => ArrayString::new(),
        Status::Memory => widen(line(word("cdb: out of memory"))),
        Status::Usage => widen(line(word("cdb: usage"))),
        Status::InputFault => widen(line(word("cdb: input fault"))),
        Status::StoreFault => widen(line(word("cdb: store fault"))),
        Status::NotAStore { version, place } => {
            widen(line_with_two("cdb: not a store", *version, *place))
        }
        Status::TooLong => widen(line(word("cdb: input too long"))),
        Status::Differs { path } => path_line("cdb: differs ", path),
        Status::Refused(limit) => widen(limit_line(limit)),
        Status::Damaged { expected, found } => {
            widen(sizes_line("cdb: damaged", *expected, *found))
        }
    }
}

/// Writes the line of a status, and answers how the run ended with it.
pub fn end<O: Output>(output: &mut O, status: Status) -> Status
    ensures ends { EndsWith status (O.written output.old) (O.written output.new) result }
    ensures same { result ≢ Status.OutputFault → result ≡ status }
    ensures later { O.fault_count output.old ≤ O.fault_count output.new }
    ensures once { WritesOnce result (O.fault_count output.old) (O.fault_count output.new) }
    ensures last { status ≡ Status.OutputFault → O.fault_count output.new ≡ O.fault_count output.old }
    ensures failed { result ≡ Status.OutputFault → status ≢ Status.OutputFault
        → Rose (O.fault_count output.old) (O.fault_count output.new) }
{
    let line = line_of(&status);
    match write_all(output, line.as_str().as_bytes()) {
        Ok(()) => status,
        Err(_) => Status::OutputFault,
    }
}
