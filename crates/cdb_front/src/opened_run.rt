ghost use Rattle.std.specs.Prelude.{◌≡◌, ◌≢◌, ◌+◌, ◌≤◌, ◌<◌, ◌^◌, length, IfSome};
ghost use Rattle.cdb_model.specs.Causes.{Rose};
ghost use Rattle.cdb_front.specs.Failures.{WritesOnce};
ghost use Rattle.cdb_front.specs.Headline.{MeetsOf, script};
ghost use Rattle.cdb_front.specs.RunOutcome.{QuitsInTime, SaysStore, HasNoStore, status_of};

use crate::end_run::end;
use crate::exit_status::Status;
use crate::input::Input;
use crate::output::Output;
use crate::script::run_script;
use cdb_engine::{Engine, OpenError};
use cdb_files::{Disk, Shelf};
use std::alloc::Global;

/// How a run ends that couldn't open its store.
pub fn open_status(error: OpenError) -> Status
    ensures status { result ≡ status_of error }
    ensures closed { HasNoStore result }
    ensures fault { result ≡ Status.StoreFault → error ≡ OpenError.Fault }
    ensures words { result ≢ Status.Usage }
    ensures input { result ≢ Status.InputFault }
    ensures output { result ≢ Status.OutputFault }
{
    match error {
        OpenError::Memory => Status::Memory,
        OpenError::Fault => Status::StoreFault,
        OpenError::NotAStore { version, place } => Status::NotAStore { version, place },
    }
}

/// Opens the store on `disk` and runs the script, with `most` steps after each line that asks for none.
pub fn run_over<D: Disk, H: Shelf, I: Input, O: Output>(
    alloc: Global,
    most: u32,
    disk: &mut D,
    shelf: &mut H,
    input: &mut I,
    output: &mut O,
) -> Status
    ensures outcome { MeetsOf D.tells D.state D.clock D.since D.fault_count H.tells H.files H.fault_count I.left
        I.failed_at I.fault_count O.written disk.old disk.new shelf.old shelf.new input.old input.new output.old
        output.new (script most) result }
    ensures in_time { IfSome (I.left input.old) (λ bytes. length bytes < 2 ^ 32 → result ≢ Status.TooLong) }
    ensures quits { IfSome (I.left input.old) (λ bytes. QuitsInTime bytes → result ≢ Status.TooLong) }
    ensures input_failed { result ≡ Status.InputFault → Rose (I.fault_count input.old) (I.fault_count input.new) }
    ensures store_failed { result ≡ Status.StoreFault → Rose (D.fault_count disk.old) (D.fault_count disk.new) }
    ensures store { SaysStore D.tells (D.state disk.old).present (D.state disk.new).present result }
    ensures no_read_fails { result ≢ Status.InputFault → result ≢ Status.OutputFault
        → I.fault_count input.new ≡ I.fault_count input.old }
    ensures input_stops { result ≡ Status.InputFault → I.left input.new ≡ I.failed_at input.new }
    ensures one_read_fails { I.fault_count input.new ≤ I.fault_count input.old + 1 }
    ensures one_write_fails { WritesOnce result (O.fault_count output.old) (O.fault_count output.new) }
    ensures output_failed { result ≡ Status.OutputFault → Rose (O.fault_count output.old) (O.fault_count output.new) }
    ensures words { result ≢ Status.Usage }
    ensures files { H.files shelf.new ≡ H.files shelf.old }
    ensures disk_later { D.fault_count disk.old ≤ D.fault_count disk.new }
    ensures shelf_later { H.fault_count shelf.old ≤ H.fault_count shelf.new }
    ensures input_later { I.fault_count input.old ≤ I.fault_count input.new }
    ensures output_later { O.fault_count output.old ≤ O.fault_count output.new }
{
    match Engine::open(alloc, disk) {
        Ok(mut engine) => {
            let status = run_script(alloc, &mut engine, disk, shelf, input, output, most);
            end(output, status)
        }
        Err(error) => end(output, open_status(error)),
    }
}
