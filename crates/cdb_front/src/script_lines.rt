ghost use Rattle.std.specs.Prelude.{◌≡◌, ◌≢◌, ℕ, ◌≤◌, ◌∷◌, [], List};
ghost use Rattle.cdb_model.specs.AnswerTexts.{shelf_fault, disk_fault};
ghost use Rattle.cdb_model.specs.Causes.{Rose};
ghost use Rattle.cdb_model.specs.Commands as said;
ghost use Rattle.cdb_model.specs.Commands.{Command};
ghost use Rattle.cdb_model.specs.Grammar.{sentence_in};
ghost use Rattle.cdb_model.specs.Runs.{Item, TurnIn, due};
ghost use Rattle.cdb_model.specs.Runs.{line as an_item, late as trail_item};
ghost use Rattle.cdb_model.specs.Stores.{Which, store_kind};
ghost use Rattle.cdb_model.specs.Transitions.{StateIn};
ghost use Rattle.cdb_front.specs.AnswerMeanings.{meant, HasLength};
ghost use Rattle.cdb_engine.specs.Tracks.{Origin, Leads};
ghost use Rattle.cdb_front.specs.DamagedSizes.{AnswerFindsOther};
ghost use Rattle.cdb_front.specs.Failures.{FedOnce};
ghost use Rattle.cdb_front.specs.Hearing.{IsEvent, IsAnswered, SaysAsked};
ghost use Rattle.cdb_front.specs.RunProgress.{RunStart, Holds, origin_of, Told, RunSoFar, TakesLine, TakesPiece};
ghost use Rattle.cdb_front.specs.inside.RunProgress.{TellsFed, SpeaksFed, TakesByte};
ghost use Rattle.cdb_front.specs.Stepping.{Counts};

use crate::answers::Answer;
use crate::fed::Fed;
use crate::heard::{Asked, Heard};
use crate::line_maker::LineMaker;
use crate::output::Output;
use crate::read_kept::read_kept;
use crate::say_answer::say;
use crate::steps::{complete, hasten, late, make_steps};
use crate::store_calls::StoreCalls;
use cdb_files::{Disk, Shelf};
use cdb_model::Line;
use std::alloc::Global;

/// Answers a line of the grammar.
fn answer_line<D: Disk, H: Shelf, E: StoreCalls<D>>(
    alloc: Global,
    engine: &mut E,
    disk: &mut D,
    shelf: &mut H,
    line: Line,
) -> Answer
    requires answered { IsEvent line }
    ensures turn { (w : Which) (origin : Origin) (s : StateIn (store_kind w))
        → E.stays engine.old disk.old origin w s
        → Leads (TurnIn (store_kind w) (Holds H.tells (H.files shelf.old)) s (said.said (sentence_in line))
        (meant result (E.bytes engine.new))) (E.stays engine.new disk.new origin w) }
    ensures length { HasLength result (E.bytes engine.new) }
    ensures files { H.files shelf.new ≡ H.files shelf.old }
    ensures shelf_later { H.fault_count shelf.old ≤ H.fault_count shelf.new }
    ensures shelf_counted { Counts shelf_fault (H.fault_count shelf.old) (H.fault_count shelf.new)
        (meant result (E.bytes engine.new) ∷ []) }
    ensures disk_later { D.fault_count disk.old ≤ D.fault_count disk.new }
    ensures disk_counted { Counts disk_fault (D.fault_count disk.old) (D.fault_count disk.new)
        (meant result (E.bytes engine.new) ∷ []) }
    ensures finds { AnswerFindsOther (meant result (E.bytes engine.new)) }
{
    match line {
        Line::Step(most) => hasten(engine, disk, most),
        Line::StepAll => complete(engine, disk),
        other => engine.other(alloc, disk, shelf, other),
    }
}

/// Answers a line.
fn answer<D: Disk, H: Shelf, E: StoreCalls<D>>(
    alloc: Global,
    engine: &mut E,
    disk: &mut D,
    shelf: &mut H,
    asked: Asked,
) -> Answer
    requires answered { IsAnswered asked }
    ensures turn { (w : Which) (origin : Origin) (s : StateIn (store_kind w)) (command : Command)
        → SaysAsked asked command
        → E.stays engine.old disk.old origin w s
        → Leads (TurnIn (store_kind w) (Holds H.tells (H.files shelf.old)) s command
        (meant result (E.bytes engine.new)))
        (E.stays engine.new disk.new origin w) }
    ensures length { HasLength result (E.bytes engine.new) }
    ensures files { H.files shelf.new ≡ H.files shelf.old }
    ensures shelf_later { H.fault_count shelf.old ≤ H.fault_count shelf.new }
    ensures shelf_counted { Counts shelf_fault (H.fault_count shelf.old) (H.fault_count shelf.new)
        (meant result (E.bytes engine.new) ∷ []) }
    ensures disk_later { D.fault_count disk.old ≤ D.fault_count disk.new }
    ensures disk_counted { Counts disk_fault (D.fault_count disk.old) (D.fault_count disk.new)
        (meant result (E.bytes engine.new) ∷ []) }
    ensures finds { AnswerFindsOther (meant result (E.bytes engine.new)) }
{
    match asked {
        Asked::Line(line) => answer_line(alloc, engine, disk, shelf, line),
        Asked::Long => Answer::Long,
        Asked::Syntax => Answer::Syntax,
        Asked::Name(place) => Answer::Name(place),
    }
}

/// How many steps follow a line.
fn due(most: u32, asked: &Asked) -> u32
    requires answered { IsAnswered asked.now }
    ensures { (command : Command) → SaysAsked asked.now command → result ≡ due most command }
{
    match asked {
        Asked::Line(Line::Step(_)) => 0,
        Asked::Line(Line::StepAll) => 0,
        _ => most,
    }
}

/// Answers a line that is an event, and writes the answer.
fn reply<D: Disk, H: Shelf, E: StoreCalls<D>, O: Output>(
    alloc: Global,
    engine: &mut E,
    disk: &mut D,
    shelf: &mut H,
    output: &mut O,
    asked: Asked,
) -> Fed
    requires answered { IsAnswered asked }
    ensures spoken { (e : RunStart) (command : Command) → SaysAsked asked command → H.files shelf.old ≡ e.files
        → SpeaksFed H.tells e.files result (an_item command) (O.written output.old) (O.written output.new)
        (H.fault_count shelf.old) (H.fault_count shelf.new) (D.fault_count disk.old) (D.fault_count disk.new)
        (E.stays engine.old disk.old (origin_of e))
        (E.stays engine.new disk.new (origin_of e)) }
    ensures files { H.files shelf.new ≡ H.files shelf.old }
    ensures shelf_later { H.fault_count shelf.old ≤ H.fault_count shelf.new }
    ensures disk_later { D.fault_count disk.old ≤ D.fault_count disk.new }
    ensures later { O.fault_count output.old ≤ O.fault_count output.new }
    ensures failed { result ≡ Fed.Failed → Rose (O.fault_count output.old) (O.fault_count output.new) }
    ensures once { FedOnce result (O.fault_count output.old) (O.fault_count output.new) }
{
    let answer = answer(alloc, engine, disk, shelf, asked);
    match say(output, answer, engine.reply()) {
        Ok(()) => Fed::More,
        Err(_) => Fed::Failed,
    }
}

/// Makes the steps that follow a line, and writes what is said of them.
fn trail<D: Disk, H: Shelf, E: StoreCalls<D>, O: Output>(
    engine: &mut E,
    disk: &mut D,
    shelf: &H,
    output: &mut O,
    most: u32,
) -> Fed
    ensures spoken { (e : RunStart)
        → SpeaksFed H.tells e.files result (trail_item most) (O.written output.old) (O.written output.new)
        (H.fault_count shelf.now) (H.fault_count shelf.now) (D.fault_count disk.old) (D.fault_count disk.new)
        (E.stays engine.old disk.old (origin_of e))
        (E.stays engine.new disk.new (origin_of e)) }
    ensures disk_later { D.fault_count disk.old ≤ D.fault_count disk.new }
    ensures later { O.fault_count output.old ≤ O.fault_count output.new }
    ensures failed { result ≡ Fed.Failed → Rose (O.fault_count output.old) (O.fault_count output.new) }
    ensures once { FedOnce result (O.fault_count output.old) (O.fault_count output.new) }
{
    match late(make_steps(engine, disk, most)) {
        None => Fed::More,
        Some(answer) => match say(output, answer, engine.reply()) {
            Ok(()) => Fed::More,
            Err(_) => Fed::Failed,
        },
    }
}

/// Answers a line that is an event, and makes the steps that follow it.
fn answer_event<D: Disk, H: Shelf, E: StoreCalls<D>, O: Output>(
    alloc: Global,
    engine: &mut E,
    disk: &mut D,
    shelf: &mut H,
    output: &mut O,
    most: u32,
    asked: Asked,
) -> Fed
    requires answered { IsAnswered asked }
    ensures told { (e : RunStart) (items : List Item) (command : Command) → SaysAsked asked command
        → H.files shelf.old ≡ e.files → e.most ≡ most
        → Told H.tells e items (O.written output.old) (H.fault_count shelf.old) (D.fault_count disk.old)
        (E.stays engine.old disk.old (origin_of e))
        → TellsFed H.tells e result items (an_item command ∷ trail_item (due e.most command) ∷ [])
        (O.written output.new) (H.fault_count shelf.new) (D.fault_count disk.new)
        (E.stays engine.new disk.new (origin_of e)) }
    ensures files { H.files shelf.new ≡ H.files shelf.old }
    ensures shelf_later { H.fault_count shelf.old ≤ H.fault_count shelf.new }
    ensures disk_later { D.fault_count disk.old ≤ D.fault_count disk.new }
    ensures later { O.fault_count output.old ≤ O.fault_count output.new }
    ensures failed { result ≡ Fed.Failed → Rose (O.fault_count output.old) (O.fault_count output.new) }
    ensures once { FedOnce result (O.fault_count output.old) (O.fault_count output.new) }
{
    let steps = due(most, &asked);
    match reply(alloc, engine, disk, shelf, output, asked) {
        Fed::More => trail(engine, disk, shelf, output, steps),
        Fed::Quit => Fed::Quit,
        Fed::Failed => Fed::Failed,
    }
}

/// Answers the line that was kept, once it is whole.
pub fn take_line<D: Disk, H: Shelf, E: StoreCalls<D>, O: Output>(
    alloc: Global,
    engine: &mut E,
    disk: &mut D,
    shelf: &mut H,
    maker: &LineMaker,
    output: &mut O,
    most: u32,
) -> Fed
    ensures line { (e : RunStart) (read : List ℕ) → H.files shelf.old ≡ e.files → e.most ≡ most
        → RunSoFar H.tells e read (O.written output.old) (H.fault_count shelf.old) (D.fault_count disk.old)
        (E.stays engine.old disk.old (origin_of e)) maker.now
        → TakesLine H.tells e result read (O.written output.new) (H.fault_count shelf.new) (D.fault_count disk.new)
        (E.stays engine.new disk.new (origin_of e)) }
    ensures files { H.files shelf.new ≡ H.files shelf.old }
    ensures shelf_later { H.fault_count shelf.old ≤ H.fault_count shelf.new }
    ensures disk_later { D.fault_count disk.old ≤ D.fault_count disk.new }
    ensures later { O.fault_count output.old ≤ O.fault_count output.new }
    ensures failed { result ≡ Fed.Failed → Rose (O.fault_count output.old) (O.fault_count output.new) }
    ensures once { FedOnce result (O.fault_count output.old) (O.fault_count output.new) }
{
    match read_kept(maker) {
        Heard::Blank => Fed::More,
        Heard::Quit => Fed::Quit,
        Heard::Event(asked) => answer_event(alloc, engine, disk, shelf, output, most, asked),
    }
}

/// Takes a byte of the input.
fn take_byte<D: Disk, H: Shelf, E: StoreCalls<D>, O: Output>(
    alloc: Global,
    engine: &mut E,
    disk: &mut D,
    shelf: &mut H,
    maker: &mut LineMaker,
    output: &mut O,
    most: u32,
    byte: u8,
) -> Fed
    ensures byte { (e : RunStart) (read : List ℕ) → H.files shelf.old ≡ e.files → e.most ≡ most
        → RunSoFar H.tells e read (O.written output.old) (H.fault_count shelf.old) (D.fault_count disk.old)
        (E.stays engine.old disk.old (origin_of e)) maker.old
        → TakesByte H.tells e result read byte (O.written output.new) (H.fault_count shelf.new)
        (D.fault_count disk.new)
        (E.stays engine.new disk.new (origin_of e)) maker.new }
    ensures feed { result ≢ Fed.More → byte ≡ 10 }
    ensures files { H.files shelf.new ≡ H.files shelf.old }
    ensures shelf_later { H.fault_count shelf.old ≤ H.fault_count shelf.new }
    ensures disk_later { D.fault_count disk.old ≤ D.fault_count disk.new }
    ensures later { O.fault_count output.old ≤ O.fault_count output.new }
    ensures failed { result ≡ Fed.Failed → Rose (O.fault_count output.old) (O.fault_count output.new) }
    ensures once { FedOnce result (O.fault_count output.old) (O.fault_count output.new) }
{
    if byte != b'\n' {
        maker.push(byte);
        return Fed::More;
    }
    match take_line(alloc, engine, disk, shelf, maker, output, most) {
        Fed::More => {
            maker.clear();
            Fed::More
        }
        Fed::Quit => Fed::Quit,
        Fed::Failed => Fed::Failed,
    }
}

/// Takes a piece of the input, and answers each line that ends in it.
pub fn take_piece<D: Disk, H: Shelf, E: StoreCalls<D>, O: Output>(
    alloc: Global,
    engine: &mut E,
    disk: &mut D,
    shelf: &mut H,
    maker: &mut LineMaker,
    output: &mut O,
    most: u32,
    piece: &[u8],
) -> Fed
    ensures piece { (e : RunStart) (read : List ℕ) → H.files shelf.old ≡ e.files → e.most ≡ most
        → RunSoFar H.tells e read (O.written output.old) (H.fault_count shelf.old) (D.fault_count disk.old)
        (E.stays engine.old disk.old (origin_of e)) maker.old
        → TakesPiece H.tells e result read piece.now (O.written output.new) (H.fault_count shelf.new)
        (D.fault_count disk.new)
        (E.stays engine.new disk.new (origin_of e)) maker.new }
    ensures files { H.files shelf.new ≡ H.files shelf.old }
    ensures shelf_later { H.fault_count shelf.old ≤ H.fault_count shelf.new }
    ensures disk_later { D.fault_count disk.old ≤ D.fault_count disk.new }
    ensures later { O.fault_count output.old ≤ O.fault_count output.new }
    ensures failed { result ≡ Fed.Failed → Rose (O.fault_count output.old) (O.fault_count output.new) }
    ensures once { FedOnce result (O.fault_count output.old) (O.fault_count output.new) }
{
    for byte in piece {
        match take_byte(alloc, engine, disk, shelf, maker, output, most, *byte) {
            Fed::More => (),
            Fed::Quit => return Fed::Quit,
            Fed::Failed => return Fed::Failed,
        }
    }
    Fed::More
}
