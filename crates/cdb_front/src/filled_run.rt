//! A store is filled with publications that are made, and their sum is written.
ghost use Rattle.std.specs.Prelude.{◌≡◌, ◌≢◌, ◌≤◌, ◌++◌, ℕ, codes, OnOk, OnErr};
ghost use Rattle.std.specs.Fmt.{signed_decimal};
ghost use Rattle.std.specs.Io.KnownBytes.{Appends};
ghost use Rattle.cdb_model.specs.Causes.{Rose, HasCause};
ghost use Rattle.cdb_generate.specs.Generated.{summary_text, sum_line as line_of_sum};
ghost use Rattle.cdb_front.specs.Devices.{WritesPart};
ghost use Rattle.cdb_front.specs.Failures.{FailsOnce, WritesOnce};
ghost use Rattle.cdb_front.specs.Generating.{Fills};
ghost use Rattle.cdb_front.specs.inside.Generating.{made_status};
ghost use Rattle.cdb_front.specs.RunOutcome.{SaysStore};

use crate::answer_text::{line, line_with, word};
use crate::end_run::end;
use crate::exit_status::{Limit, Status};
use crate::opened_run::open_status;
use crate::output::Output;
use crate::write::write_all;
use arrayvec::ArrayString;
use cdb_engine::{Engine, Made, PopulateError, populate};
use cdb_files::{Disk, Failed};
use itoa::Buffer;
use std::alloc::Global;

/// How a run ends that couldn't make all publications.
fn fill_status(error: PopulateError) -> Status
    ensures status { result ≡ made_status error }
    ensures fault { result ≡ Status.StoreFault → error ≡ PopulateError.Fault }
    ensures words { result ≢ Status.Usage }
    ensures input { result ≢ Status.InputFault }
    ensures output { result ≢ Status.OutputFault }
{
    match error {
        PopulateError::Memory => Status::Memory,
        PopulateError::Fault => Status::StoreFault,
        PopulateError::Entries { count } => Status::Refused(Limit::Entries { count }),
        PopulateError::Versions => Status::Refused(Limit::Versions),
        PopulateError::Damaged { expected, found } => Status::Damaged { expected, found },
    }
}

/// The line of a sum.
fn sum_line(sum: i64) -> ArrayString<64>
    ensures { result.bytes ≡ line_of_sum sum }
{
    let mut text = word("sum ");
    text.push_str(Buffer::new().format(sum));
    line(text)
}

/// The lines of what was made.
fn summary(made: Made) -> ArrayString<192>
    ensures { result.bytes ≡ summary_text made.versions made.files made.sum }
{
    let mut text = ArrayString::new();
    text.push_str(line_with("versions", made.versions).as_str());
    text.push_str(line_with("files", made.files).as_str());
    text.push_str(sum_line(made.sum).as_str());
    text
}

/// Writes what was made.
fn say_made<O: Output>(output: &mut O, made: Made) -> Result<(), Failed>
    ensures ok { OnOk result
        (Appends (O.written output.old) (O.written output.new) (summary_text made.versions made.files made.sum)) }
    ensures err { OnErr result
        (WritesPart (O.written output.old) (O.written output.new) (summary_text made.versions made.files made.sum)) }
    ensures cause { HasCause (O.fault_count output.old) (O.fault_count output.new) result }
    ensures once { FailsOnce result (O.fault_count output.old) (O.fault_count output.new) }
{
    let text = summary(made);
    write_all(output, text.as_str().as_bytes())
}

/// Opens the store on `disk` and makes `count` publications of the generator that begins with `start`.
pub fn fill_over<D: Disk, O: Output>(
    alloc: Global,
    start: u32,
    count: u8,
    disk: &mut D,
    output: &mut O,
) -> Status
    ensures fills { Fills D.tells D.state D.clock D.since start count disk.old disk.new (O.written output.old)
        (O.written output.new) result }
    ensures store_failed { result ≡ Status.StoreFault → Rose (D.fault_count disk.old) (D.fault_count disk.new) }
    ensures store { SaysStore D.tells (D.state disk.old).present (D.state disk.new).present result }
    ensures one_write_fails { WritesOnce result (O.fault_count output.old) (O.fault_count output.new) }
    ensures output_failed { result ≡ Status.OutputFault → Rose (O.fault_count output.old) (O.fault_count output.new) }
    ensures words { result ≢ Status.Usage }
    ensures input { result ≢ Status.InputFault }
    ensures disk_later { D.fault_count disk.old ≤ D.fault_count disk.new }
    ensures output_later { O.fault_count output.old ≤ O.fault_count output.new }
{
    let mut engine = match Engine::open(alloc, disk) {
        Ok(engine) => engine,
        Err(error) => return end(output, open_status(error)),
    };
    match populate(alloc, &mut engine, disk, start, count) {
        Ok(made) => match say_made(output, made) {
            Ok(()) => Status::Done,
            Err(_) => Status::OutputFault,
        },
        Err(error) => end(output, fill_status(error)),
    }
}
