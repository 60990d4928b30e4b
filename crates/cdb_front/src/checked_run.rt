//! The files of a store are checked, and what was found is written.
ghost use Rattle.std.specs.Prelude.{◌≡◌, ◌≢◌, ◌≤◌, OnOk, OnErr};
ghost use Rattle.std.specs.Io.KnownBytes.{Appends};
ghost use Rattle.cdb_model.specs.Causes.{Rose, HasCause};
ghost use Rattle.cdb_front.specs.Checking.{Checks, agrees_line};
ghost use Rattle.cdb_front.specs.inside.Checking.{checked_status};
ghost use Rattle.cdb_front.specs.Devices.{WritesPart};
ghost use Rattle.cdb_front.specs.Failures.{FailsOnce, WritesOnce};
ghost use Rattle.cdb_front.specs.RunOutcome.{SaysStore};

use crate::answer_text::line_with_two;
use crate::end_run::end;
use crate::exit_status::Status;
use crate::opened_run::open_status;
use crate::output::Output;
use crate::write::write_all;
use cdb_engine::{Agreed, CheckError, Engine};
use cdb_files::{Disk, Failed};
use std::alloc::Global;

/// How a run ends whose check failed.
fn check_status(error: CheckError) -> Status
    ensures status { result ≡ checked_status error }
    ensures fault { result ≡ Status.StoreFault → error ≡ CheckError.Fault }
    ensures words { result ≢ Status.Usage }
    ensures input { result ≢ Status.InputFault }
    ensures output { result ≢ Status.OutputFault }
{
    match error {
        CheckError::Memory => Status::Memory,
        CheckError::Fault => Status::StoreFault,
        CheckError::Differs { path } => Status::Differs { path },
    }
}

/// Writes how many versions and files agree.
fn say_agreed<O: Output>(output: &mut O, agreed: Agreed) -> Result<(), Failed>
    ensures ok { OnOk result
        (Appends (O.written output.old) (O.written output.new) (agrees_line agreed.versions agreed.files)) }
    ensures err { OnErr result
        (WritesPart (O.written output.old) (O.written output.new) (agrees_line agreed.versions agreed.files)) }
    ensures cause { HasCause (O.fault_count output.old) (O.fault_count output.new) result }
    ensures once { FailsOnce result (O.fault_count output.old) (O.fault_count output.new) }
{
    let line = line_with_two("agrees", agreed.versions, agreed.files);
    write_all(output, line.as_str().as_bytes())
}

/// Opens the store on `disk` and checks its files.
pub fn check_over<D: Disk, O: Output>(alloc: Global, disk: &mut D, output: &mut O) -> Status
    ensures checks { Checks D.tells D.state D.clock D.since disk.old disk.new (O.written output.old)
        (O.written output.new) result }
    ensures store_failed { result ≡ Status.StoreFault → Rose (D.fault_count disk.old) (D.fault_count disk.new) }
    ensures store { SaysStore D.tells (D.state disk.old).present (D.state disk.new).present result }
    ensures one_write_fails { WritesOnce result (O.fault_count output.old) (O.fault_count output.new) }
    ensures output_failed { result ≡ Status.OutputFault → Rose (O.fault_count output.old) (O.fault_count output.new) }
    ensures words { result ≢ Status.Usage }
    ensures input { result ≢ Status.InputFault }
    ensures disk_later { D.fault_count disk.old ≤ D.fault_count disk.new }
    ensures output_later { O.fault_count output.old ≤ O.fault_count output.new }
{
    let engine = match Engine::open(alloc, disk) {
        Ok(engine) => engine,
        Err(error) => return end(output, open_status(error)),
    };
    match engine.check(alloc, disk) {
        Ok(agreed) => match say_agreed(output, agreed) {
            Ok(()) => Status::Done,
            Err(_) => Status::OutputFault,
        },
        Err(error) => end(output, check_status(error)),
    }
}
