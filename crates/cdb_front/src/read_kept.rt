ghost use Rattle.std.specs.Prelude.{◌≡◌, ℕ, List};
ghost use Rattle.cdb_model.specs.Commands.{line_command, spoken};
ghost use Rattle.cdb_model.specs.Grammar.{line_of};
ghost use Rattle.cdb_front.specs.Hearing.{IsHeard, HearsCommand};
ghost use Rattle.cdb_front.specs.Kept.{kept_of};

use crate::heard::{Asked, Heard};
use crate::line_maker::LineMaker;
use cdb_commands::read_line;
use cdb_model::{Line, LineError};

/// What a line of at most 4,096 bytes is.
fn hear(bytes: &[u8]) -> Heard
    ensures said { HearsCommand result (spoken (line_of bytes.now)) }
    ensures heard { IsHeard result }
{
    match read_line(bytes) {
        Ok(Line::Blank) => Heard::Blank,
        Ok(Line::Quit) => Heard::Quit,
        Ok(line) => Heard::Event(Asked::Line(line)),
        Err(LineError::Syntax) => Heard::Event(Asked::Syntax),
        Err(LineError::Name { place }) => Heard::Event(Asked::Name(place)),
    }
}

/// What the line that was kept is.
pub fn read_kept(maker: &LineMaker) -> Heard
    ensures said { (text : List ℕ) → maker.now ≡ kept_of text → HearsCommand result (line_command text) }
    ensures heard { IsHeard result }
{
    match maker.line() {
        Some(bytes) => hear(bytes),
        None => Heard::Event(Asked::Long),
    }
}
