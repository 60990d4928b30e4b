ghost use Rattle.std.specs.Prelude.{◌≡◌, ◌≢◌, [], ◌+◌, ◌<◌, ◌≤◌, ◌^◌, ℕ, Option, List, length};
ghost use Rattle.std.specs.Io.KnownBytes.{Consumes, IsAtEnd};
ghost use Rattle.cdb_model.specs.Causes.{Rose};
ghost use Rattle.cdb_front.specs.Failures.{WritesOnce, ReadsOnce};
ghost use Rattle.cdb_front.specs.inside.Failures.{WritesInTurn, ReadsInTurn, KeepsFailure, KeepsInTurn};
ghost use Rattle.cdb_front.specs.RunProgress.{RunStart, origin_of, Told};
ghost use Rattle.cdb_front.specs.RunOutcome.{StopsScript, WasOpened};
ghost use Rattle.cdb_front.specs.inside.RunReading.{Reading, TakesTurn, TakesSome, StopsOpened};

use crate::exit_status::Status;
use crate::fed::Fed;
use crate::input::Input;
use crate::line_maker::LineMaker;
use crate::output::Output;
use crate::read_turn::Turned;
use crate::script_lines::{take_line, take_piece};
use crate::store_calls::StoreCalls;
use cdb_files::{Disk, Shelf};
use std::alloc::Global;

/// How many bytes of the input are taken at most.
const INPUT_BYTES: u64 = 4294967296;

/// How many bytes are read at once.
const PIECE_BYTES: u64 = 4096;

/// Answers the last line, which no line feed ended, at the end of the input.
fn take_end<D: Disk, H: Shelf, E: StoreCalls<D>, O: Output>(
    alloc: Global,
    engine: &mut E,
    disk: &mut D,
    shelf: &mut H,
    maker: &LineMaker,
    output: &mut O,
    most: u32,
) -> Status
    ensures stops { (e : RunStart) (left now end : Option (List ℕ)) (taken : ℕ) → H.files shelf.old ≡ e.files
        → e.most ≡ most → taken < 2 ^ 32
        → Reading H.tells e left now (O.written output.old) (H.fault_count shelf.old) (D.fault_count disk.old)
        (E.stays engine.old disk.old (origin_of e)) maker.now taken
        → Consumes now end [] → IsAtEnd end
        → StopsScript H.tells e (H.fault_count shelf.new) (D.fault_count disk.new) left end (O.written output.new)
        (E.stays engine.new disk.new (origin_of e)) result }
    ensures status { result ≢ Status.InputFault }
    ensures opened { WasOpened result }
    ensures files { H.files shelf.new ≡ H.files shelf.old }
    ensures shelf_later { H.fault_count shelf.old ≤ H.fault_count shelf.new }
    ensures disk_later { D.fault_count disk.old ≤ D.fault_count disk.new }
    ensures later { O.fault_count output.old ≤ O.fault_count output.new }
    ensures failed { result ≡ Status.OutputFault → Rose (O.fault_count output.old) (O.fault_count output.new) }
    ensures once { WritesOnce result (O.fault_count output.old) (O.fault_count output.new) }
{
    match take_line(alloc, engine, disk, shelf, maker, output, most) {
        Fed::More => Status::Done,
        Fed::Quit => Status::Done,
        Fed::Failed => Status::OutputFault,
    }
}

/// Reads once, and answers each line that ends in what came.
fn take_turn<D: Disk, H: Shelf, E: StoreCalls<D>, I: Input, O: Output>(
    alloc: Global,
    engine: &mut E,
    disk: &mut D,
    shelf: &mut H,
    maker: &mut LineMaker,
    input: &mut I,
    output: &mut O,
    most: u32,
    into: &mut [u8],
) -> Turned
    requires { 0 < length into.old }
    ensures turn { (e : RunStart) (left : Option (List ℕ)) (taken : ℕ) → H.files shelf.old ≡ e.files → e.most ≡ most
        → taken < 2 ^ 32 → taken + length into.old ≤ 2 ^ 32 → length into.old ≤ 4096
        → Reading H.tells e left (I.left input.old) (O.written output.old) (H.fault_count shelf.old)
        (D.fault_count disk.old) (E.stays engine.old disk.old (origin_of e)) maker.old taken
        → TakesTurn H.tells e result (H.fault_count shelf.new) (D.fault_count disk.new) left (I.left input.new)
        (O.written output.new) (E.stays engine.new disk.new (origin_of e)) maker.new taken }
    ensures count { TakesSome result (length into.old) }
    ensures input_later { I.fault_count input.old ≤ I.fault_count input.new }
    ensures input_failed { result ≡ Turned.Stopped Status.InputFault
        → Rose (I.fault_count input.old) (I.fault_count input.new) }
    ensures input_stops { result ≡ Turned.Stopped Status.InputFault → I.left input.new ≡ I.failed_at input.new }
    ensures opened { StopsOpened result }
    ensures reads { ReadsInTurn result (I.fault_count input.old) (I.fault_count input.new) }
    ensures place { KeepsInTurn result (I.failed_at input.old) (I.failed_at input.new) }
    ensures writes { WritesInTurn result (O.fault_count output.old) (O.fault_count output.new) }
    ensures output_later { O.fault_count output.old ≤ O.fault_count output.new }
    ensures output_failed { result ≡ Turned.Stopped Status.OutputFault
        → Rose (O.fault_count output.old) (O.fault_count output.new) }
    ensures files { H.files shelf.new ≡ H.files shelf.old }
    ensures shelf_later { H.fault_count shelf.old ≤ H.fault_count shelf.new }
    ensures disk_later { D.fault_count disk.old ≤ D.fault_count disk.new }
{
    match input.read(into) {
        Ok(count) => {
            if count == 0 {
                return Turned::Stopped(take_end(alloc, engine, disk, shelf, maker, output, most));
            }
            match take_piece(
                alloc,
                engine,
                disk,
                shelf,
                maker,
                output,
                most,
                into.split_at(count).0,
            ) {
                Fed::More => Turned::Taken(count),
                Fed::Quit => Turned::Stopped(Status::Done),
                Fed::Failed => Turned::Stopped(Status::OutputFault),
            }
        }
        Err(_) => Turned::Stopped(Status::InputFault),
    }
}

/// Reads the input to its end, to `quit`, or as far as it may be read.
pub fn run_script<D: Disk, H: Shelf, E: StoreCalls<D>, I: Input, O: Output>(
    alloc: Global,
    engine: &mut E,
    disk: &mut D,
    shelf: &mut H,
    input: &mut I,
    output: &mut O,
    most: u32,
) -> Status
    ensures stops { (e : RunStart) → H.files shelf.old ≡ e.files → e.most ≡ most
        → Told H.tells e [] (O.written output.old) (H.fault_count shelf.old) (D.fault_count disk.old)
        (E.stays engine.old disk.old (origin_of e))
        → StopsScript H.tells e (H.fault_count shelf.new) (D.fault_count disk.new) (I.left input.old) (I.left input.new)
        (O.written output.new) (E.stays engine.new disk.new (origin_of e)) result }
    ensures input_later { I.fault_count input.old ≤ I.fault_count input.new }
    ensures input_failed { result ≡ Status.InputFault → Rose (I.fault_count input.old) (I.fault_count input.new) }
    ensures input_stops { result ≡ Status.InputFault → I.left input.new ≡ I.failed_at input.new }
    ensures opened { WasOpened result }
    ensures reads { ReadsOnce result (I.fault_count input.old) (I.fault_count input.new) }
    ensures place { KeepsFailure result (I.failed_at input.old) (I.failed_at input.new) }
    ensures writes { WritesOnce result (O.fault_count output.old) (O.fault_count output.new) }
    ensures output_later { O.fault_count output.old ≤ O.fault_count output.new }
    ensures output_failed { result ≡ Status.OutputFault → Rose (O.fault_count output.old) (O.fault_count output.new) }
    ensures files { H.files shelf.new ≡ H.files shelf.old }
    ensures shelf_later { H.fault_count shelf.old ≤ H.fault_count shelf.new }
    ensures disk_later { D.fault_count disk.old ≤ D.fault_count disk.new }
{
    let mut maker = LineMaker::new();
    let mut buffer = [0; 4096];
    let mut taken: u64 = 0;
    while taken < INPUT_BYTES {
        let room = (INPUT_BYTES - taken).min(PIECE_BYTES) as usize;
        match take_turn(
            alloc,
            engine,
            disk,
            shelf,
            &mut maker,
            input,
            output,
            most,
            &mut buffer[..room],
        ) {
            Turned::Taken(count) => taken += count as u64,
            Turned::Stopped(status) => return status,
        }
    }
    Status::TooLong
}
