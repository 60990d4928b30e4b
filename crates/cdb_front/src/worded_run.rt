ghost use Rattle.std.specs.Prelude.{◌≡◌, ◌≢◌, ◌+◌, ◌≤◌, None, Some, map};
ghost use Rattle.cdb_commands.specs.Options.{options_of};
ghost use Rattle.cdb_commands.specs.declared.options.Mode.TheVariants.{Run, Check, Generate};
ghost use Rattle.cdb_commands.specs.declared.options.Options.{Options as given};
ghost use Rattle.cdb_model.specs.Causes.{Rose};
ghost use Rattle.cdb_front.specs.Checking.{Checks};
ghost use Rattle.cdb_front.specs.Failures.{WritesOnce};
ghost use Rattle.cdb_front.specs.Generating.{Fills};
ghost use Rattle.cdb_front.specs.Headline.{MeetsOf, script};
ghost use Rattle.cdb_front.specs.RunOutcome.{SaysStore, TurnsAway};

use crate::checked_run::check_over;
use crate::end_run::end;
use crate::exit_status::Status;
use crate::filled_run::fill_over;
use crate::input::Input;
use crate::opened_run::run_over;
use crate::output::Output;
use cdb_commands::{Mode, WordsError, read_words};
use cdb_files::{Disk, Shelf};
use std::alloc::Global;

/// Runs the program with these words, which don't hold its own name. `Usage` exactly where they aren't
/// options of the program; nothing is opened then.
///
/// In mode `check` it opens the store on `disk`, looks at each file that its records expect, and writes
/// `agrees` and how many versions and files there are, or ends with `Differs` and the path of the first
/// file that isn't as the records and source files give it.
///
/// In mode `generate` it opens the store on `disk`, makes as many publications as the words say of the
/// generator that begins with their start, and writes the newest version, how many files of tiles it
/// made, and the sum of the values in them. `Refused` where the store has no room for the next one, and
/// `Damaged` where a file that is read has another size than its form gives. In neither mode an input or
/// the shelf is read.
///
/// In mode `run` it opens the store on `disk`, reads a script from `input` line by line, and writes the answer
/// to each line to `output` before it reads the next. As many steps of a publication that is going as
/// the words say follow each line that asks for none. Sources whose posts a file holds are read from
/// `shelf`.
///
/// A line ends with a line feed or with the end of the input, and has at most 4,096 bytes. At most
/// `2^32` bytes are taken. The run ends at the end of the input, at the line `quit`, or at the first
/// failure of the input or the output; where it ends with another status than `Done` and
/// `OutputFault`, the last line that it writes says so.
pub fn cdb_run<D: Disk, H: Shelf, I: Input, O: Output>(
    alloc: Global,
    words: &[&str],
    disk: &mut D,
    shelf: &mut H,
    input: &mut I,
    output: &mut O,
) -> Status
    ensures outcome { (options : given) → options_of (map (λ s. s.now) words.now) ≡ Some options → options.mode ≡ Run
        → MeetsOf D.tells D.state D.clock D.since D.fault_count H.tells H.files H.fault_count I.left
        I.failed_at I.fault_count O.written disk.old disk.new shelf.old shelf.new input.old input.new output.old
        output.new (script options.background) result }
    ensures checks { (options : given) → options_of (map (λ s. s.now) words.now) ≡ Some options → options.mode ≡ Check
        → Checks D.tells D.state D.clock D.since disk.old disk.new (O.written output.old) (O.written output.new)
        result }
    ensures fills { (options : given) → options_of (map (λ s. s.now) words.now) ≡ Some options
        → options.mode ≡ Generate
        → Fills D.tells D.state D.clock D.since options.start options.count disk.old disk.new (O.written output.old)
        (O.written output.new) result }
    ensures untouched { (options : given) → options_of (map (λ s. s.now) words.now) ≡ Some options
        → options.mode ≢ Run → (input.new ≡ input.old) × (shelf.new ≡ shelf.old) }
    ensures usage { result ≡ Status.Usage → options_of (map (λ s. s.now) words.now) ≡ None }
    ensures refused { options_of (map (λ s. s.now) words.now) ≡ None
        → TurnsAway disk.old disk.new shelf.old shelf.new input.old input.new (O.written output.old)
        (O.written output.new) result }
    ensures input_failed { result ≡ Status.InputFault → Rose (I.fault_count input.old) (I.fault_count input.new) }
    ensures store_failed { result ≡ Status.StoreFault → Rose (D.fault_count disk.old) (D.fault_count disk.new) }
    ensures store { SaysStore D.tells (D.state disk.old).present (D.state disk.new).present result }
    ensures no_read_fails { result ≢ Status.InputFault → result ≢ Status.OutputFault
        → I.fault_count input.new ≡ I.fault_count input.old }
    ensures input_stops { result ≡ Status.InputFault → I.left input.new ≡ I.failed_at input.new }
    ensures one_read_fails { I.fault_count input.new ≤ I.fault_count input.old + 1 }
    ensures one_write_fails { WritesOnce result (O.fault_count output.old) (O.fault_count output.new) }
    ensures output_failed { result ≡ Status.OutputFault → Rose (O.fault_count output.old) (O.fault_count output.new) }
    ensures files { H.files shelf.new ≡ H.files shelf.old }
    ensures disk_later { D.fault_count disk.old ≤ D.fault_count disk.new }
    ensures shelf_later { H.fault_count shelf.old ≤ H.fault_count shelf.new }
    ensures input_later { I.fault_count input.old ≤ I.fault_count input.new }
    ensures output_later { O.fault_count output.old ≤ O.fault_count output.new }
{
    let options = match read_words(alloc, words) {
        Ok(options) => options,
        Err(WordsError::Memory) => return end(output, Status::Memory),
        Err(WordsError::Usage) => return end(output, Status::Usage),
    };
    match options.mode {
        Mode::Run => run_over(
            alloc,
            u32::from(options.background),
            disk,
            shelf,
            input,
            output,
        ),
        Mode::Check => check_over(alloc, disk, output),
        Mode::Generate => fill_over(alloc, options.start, options.count, disk, output),
    }
}
