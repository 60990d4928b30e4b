ghost use Rattle.std.specs.Prelude.{◌≡◌, IfSome, option_map, option_copied};
ghost use Rattle.cdb_model.specs.Words.{only_word, first_word, digits};
ghost use Rattle.cdb_model.specs.Grammar.{file_name, tile_request, step_word, one_word, sentence, line_of, sentence_in, close};
ghost use Rattle.cdb_commands.specs.Left.{left};
ghost use Rattle.cdb_commands.specs.Meaning.{parsed_in, HasNoName, IsUnread};

use crate::fields::count_field;
use crate::numbers::read_count;
use crate::path::read_file_name;
use crate::sources::{read_file_source, read_inline_source};
use crate::words::Words;
use cdb_model::Line;

/// A line of the grammar, of which the file name is still to be read.
#[derive(Drop)]
pub enum Parsed<'a> {
    Whole(Line),
    /// A request for a tile, with the number of a session and the file name.
    Named(u32, &'a [u8]),
}

fn last_name(words: Words<'_>) -> Option<&[u8]>
    ensures { option_copied result ≡ only_word file_name (left words.entry) }
{
    read_file_name(words.only()?)
}

/// A request for a tile, by the words after `tile`.
#[tactic(auto, unfolding(cdb_model::specs::Grammar::tile_request))]
fn read_tile_request(words: Words<'_>) -> Option<Parsed<'_>>
    ensures said { option_map (λ p. parsed_in p) result ≡ tile_request (left words.entry) }
    ensures unread { IfSome result IsUnread }
{
    let (id, words) = count_field(words)?;
    Some(Parsed::Named(id, last_name(words)?))
}

/// The steps that are asked for, by the words after `step`.
fn read_step(words: Words<'_>) -> Option<Line>
    ensures said { option_map (λ l. sentence_in l) result ≡ only_word step_word (left words.entry) }
    ensures no_name { IfSome result HasNoName }
{
    let word = words.only()?;
    if word == b"all".as_slice() {
        Some(Line::StepAll)
    } else {
        Some(Line::Step(read_count(word)?))
    }
}

/// The end of a session, by the words after `close`.
fn read_close(words: Words<'_>) -> Option<Line>
    ensures said { option_map (λ l. sentence_in l) result ≡ option_map close (only_word (digits 9) (left words.entry)) }
    ensures no_name { IfSome result HasNoName }
{
    let word = words.only()?;
    Some(Line::Close(read_count(word)?))
}

/// A line of one word.
#[tactic(auto, unfolding(cdb_model::specs::Grammar::one_word))]
fn read_one_word(word: &[u8]) -> Option<Line>
    ensures said { option_map (λ l. sentence_in l) result ≡ one_word word.now }
    ensures no_name { IfSome result HasNoName }
{
    if word == b"publish".as_slice() {
        Some(Line::Publish)
    } else if word == b"open".as_slice() {
        Some(Line::Open)
    } else if word == b"versions".as_slice() {
        Some(Line::Versions)
    } else if word == b"quit".as_slice() {
        Some(Line::Quit)
    } else {
        None
    }
}

/// A line by its first word, and the words after it.
#[tactic(auto, unfolding(cdb_model::specs::Grammar::sentence))]
fn read_after<'a>(first: &[u8], words: Words<'a>) -> Option<Parsed<'a>>
    ensures said { option_map (λ p. parsed_in p) result ≡ sentence first.now (left words.entry) }
    ensures unread { IfSome result IsUnread }
{
    if first == b"inline".as_slice() {
        Some(Parsed::Whole(Line::Inline(read_inline_source(words)?)))
    } else if first == b"source".as_slice() {
        Some(Parsed::Whole(Line::Source(read_file_source(words)?)))
    } else if first == b"step".as_slice() {
        Some(Parsed::Whole(read_step(words)?))
    } else if first == b"tile".as_slice() {
        read_tile_request(words)
    } else if first == b"close".as_slice() {
        Some(Parsed::Whole(read_close(words)?))
    } else {
        match words.next() {
            Some(_) => None,
            None => Some(Parsed::Whole(read_one_word(first)?)),
        }
    }
}

/// The line that these bytes say, where they are of the grammar.
#[tactic(auto, unfolding(cdb_model::specs::Grammar::line_of))]
pub fn parse(bytes: &[u8]) -> Option<Parsed<'_>>
    ensures said { option_map (λ p. parsed_in p) result ≡ line_of bytes.now }
    ensures unread { IfSome result IsUnread }
{
    if bytes == b"".as_slice() {
        return Some(Parsed::Whole(Line::Blank));
    }
    let (first, words) = Words::of(bytes).next()?;
    read_after(first, words)
}
