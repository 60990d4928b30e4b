ghost use Rattle.std.specs.Prelude.{◌≡◌, ◌+◌, ◌≤◌, ◌++◌, ◌∷◌, [], length, codes, decimal};
ghost use Rattle.arrayvec.specs.ArrayString.{array_string_len};
ghost use Rattle.cdb_model.specs.AnswerTexts.{sizes_text};
ghost use Rattle.cdb_model.specs.Text.{ended};
ghost use Rattle.cdb_tiff_base.specs.Words.{word_of, name_of, tag_text};
ghost use Rattle.cdb_front.specs.AnswerMeanings.{head_of};
ghost use Rattle.cdb_front.specs.inside.AnswerMeanings.{found_text};

use crate::answers::Answer;
use arrayvec::ArrayString;
use cdb_tiff_base::TiffCause;
use itoa::Buffer;

fn push_number(text: &mut ArrayString<64>, number: u32)
    requires { array_string_len text.old ≤ 52 }
    ensures bytes { text.new.bytes ≡ text.old.bytes ++ 32 ∷ decimal number }
    ensures length { array_string_len text.new ≤ array_string_len text.old + 11 }
{
    text.push(' ');
    text.push_str(Buffer::new().format(number));
}

fn push_large(text: &mut ArrayString<64>, number: u128)
    requires { array_string_len text.old ≤ 20 }
    ensures bytes { text.new.bytes ≡ text.old.bytes ++ 32 ∷ decimal number }
    ensures length { array_string_len text.new ≤ array_string_len text.old + 40 }
{
    text.push(' ');
    text.push_str(Buffer::new().format(number));
}

pub fn word(text: &str) -> ArrayString<64>
    requires { length text.now ≤ 60 }
    ensures bytes { result.bytes ≡ text.now }
    ensures length { array_string_len result ≡ length text.now }
{
    let mut result = ArrayString::new();
    result.push_str(text);
    result
}

pub fn line(mut text: ArrayString<64>) -> ArrayString<64>
    requires { array_string_len text ≤ 63 }
    ensures { result.bytes ≡ ended text.bytes }
{
    text.push('\n');
    text
}

pub fn line_with(name: &str, number: u32) -> ArrayString<64>
    requires { length name.now ≤ 20 }
    ensures { result.bytes ≡ ended (name.now ++ 32 ∷ decimal number) }
{
    let mut text = word(name);
    push_number(&mut text, number);
    line(text)
}

pub fn line_with_two(name: &str, first: u32, second: u32) -> ArrayString<64>
    requires { length name.now ≤ 20 }
    ensures { result.bytes ≡ ended ((name.now ++ 32 ∷ decimal first) ++ 32 ∷ decimal second) }
{
    let mut text = word(name);
    push_number(&mut text, first);
    push_number(&mut text, second);
    line(text)
}

pub fn large_line(count: u128) -> ArrayString<64>
    ensures { result.bytes ≡ ended (codes "refused large" ++ 32 ∷ decimal count) }
{
    let mut text = word("refused large");
    push_large(&mut text, count);
    line(text)
}

fn push_tag(text: &mut ArrayString<64>, cause: TiffCause)
    requires { array_string_len text.old ≤ 40 }
    ensures bytes { text.new.bytes ≡ text.old.bytes ++ tag_text cause }
    ensures length { array_string_len text.new ≤ array_string_len text.old + 11 }
{
    match cause {
        TiffCause::Absent(tag) => push_number(text, u32::from(tag)),
        _ => (),
    }
}

pub fn input_line(cause: TiffCause) -> ArrayString<64>
    ensures { result.bytes ≡ ended (codes "refused input " ++ word_of cause) }
{
    let mut text = word("refused input ");
    text.push_str(cause.name());
    push_tag(&mut text, cause);
    line(text)
}

fn push_size(text: &mut ArrayString<64>, number: u64)
    requires { array_string_len text.old ≤ 42 }
    ensures bytes { text.new.bytes ≡ text.old.bytes ++ 32 ∷ decimal number }
    ensures length { array_string_len text.new ≤ array_string_len text.old + 21 }
{
    text.push(' ');
    text.push_str(Buffer::new().format(number));
}

fn push_found(text: &mut ArrayString<64>, found: Option<u64>)
    requires { array_string_len text.old ≤ 42 }
    ensures bytes { text.new.bytes ≡ text.old.bytes ++ found_text found }
    ensures length { array_string_len text.new ≤ array_string_len text.old + 21 }
{
    match found {
        Some(found) => push_size(text, found),
        None => text.push_str(" none"),
    }
}

/// A line with the size that a file should have and the one that it has, if it is there.
pub fn sizes_line(name: &str, expected: u64, found: Option<u64>) -> ArrayString<64>
    requires { length name.now ≤ 20 }
    ensures { result.bytes ≡ ended (sizes_text name.now expected found) }
{
    let mut text = word(name);
    push_size(&mut text, expected);
    push_found(&mut text, found);
    line(text)
}

/// The line of an answer, with its line feed.
pub fn head(answer: Answer) -> ArrayString<64>
    ensures { result.bytes ≡ head_of answer }
{
    match answer {
        Answer::Source(count) => line_with("source", count),
        Answer::Begun(version, files) => line_with_two("begun", version, files),
        Answer::Going => line(word("going")),
        Answer::Published(version) => line_with("published", version),
        Answer::Session(id, version) => line_with_two("session", id, version),
        Answer::Missing => line(word("missing")),
        Answer::Tile(length) => line_with("tile", length),
        Answer::Closed => line(word("closed")),
        Answer::Versions(newest) => line_with("versions", newest),
        Answer::Name(place) => line_with("refused name", place),
        Answer::Input(cause) => input_line(cause),
        Answer::Large(load) => large_line(load),
        Answer::Entries(count) => line_with("refused entries", count),
        Answer::Long => line(word("refused long")),
        Answer::Syntax => line(word("refused syntax")),
        Answer::Halted => line(word("refused halted")),
        Answer::Busy => line(word("refused busy")),
        Answer::Unknown => line(word("refused session")),
        Answer::Many => line(word("refused sessions")),
        Answer::Nothing => line(word("refused nothing")),
        Answer::Full => line(word("refused full")),
        Answer::Shelf => line(word("refused shelf")),
        Answer::Absent => line(word("refused absent")),
        Answer::TooBig => line(word("refused input big")),
        Answer::Range => line(word("refused range")),
        Answer::FullOfVersions => line(word("refused versions")),
        Answer::Fault => line(word("refused fault")),
        Answer::Damaged(expected, found) => sizes_line("refused damaged", expected, found),
        Answer::Memory => line(word("refused memory")),
        Answer::LateFault => line(word("background fault")),
        Answer::LateDamaged(expected, found) => sizes_line("background damaged", expected, found),
    }
}
