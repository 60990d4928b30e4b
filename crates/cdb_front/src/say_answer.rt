ghost use Rattle.std.specs.Prelude.{◌≡◌, OnOk, OnErr};
ghost use Rattle.std.specs.Io.KnownBytes.{Appends};
ghost use Rattle.cdb_model.specs.AnswerTexts.{text_of_answer};
ghost use Rattle.cdb_model.specs.Causes.{HasCause};
ghost use Rattle.cdb_front.specs.AnswerMeanings.{meant, HasLength};
ghost use Rattle.cdb_front.specs.Devices.{WritesPart};
ghost use Rattle.cdb_front.specs.Failures.{FailsOnce};

use crate::answer_text::head;
use crate::answers::Answer;
use crate::output::Output;
use crate::write::{write_all, write_both};
use cdb_files::Failed;

/// Writes an answer: its line, and after the line of a tile the tile's bytes, which are `reply`.
#[tactic(auto, unfolding(cdb_model::specs::AnswerTexts::text_of_answer))]
pub fn say<O: Output>(output: &mut O, answer: Answer, reply: &[u8]) -> Result<(), Failed>
    requires { HasLength answer reply.now }
    ensures ok { OnOk result (Appends (O.written output.old) (O.written output.new)
        (text_of_answer (meant answer reply.now))) }
    ensures err { OnErr result (WritesPart (O.written output.old) (O.written output.new)
        (text_of_answer (meant answer reply.now))) }
    ensures cause { HasCause (O.fault_count output.old) (O.fault_count output.new) result }
    ensures once { FailsOnce result (O.fault_count output.old) (O.fault_count output.new) }
{
    let line = head(answer);
    match answer {
        Answer::Tile(_) => write_both(output, line.as_str().as_bytes(), reply),
        _ => write_all(output, line.as_str().as_bytes()),
    }
}
