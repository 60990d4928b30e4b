ghost use Rattle.std.specs.Prelude.{◌≡◌, option_map};
ghost use Rattle.cdb_model.specs.Words.{only_word};
ghost use Rattle.cdb_model.specs.Grammar.{inline_source, file_source, inline_in, file_in, path_word};
ghost use Rattle.cdb_commands.specs.Left.{left};
ghost use Rattle.cdb_commands.specs.Meaning.{head_in};

use crate::fields::{count_field, small_field};
use crate::head::{Head, read_head};
use crate::path::read_path;
use crate::posts::read_posts;
use crate::words::Words;
use arrayvec::{ArrayString, ArrayVec};
use cdb_model::{InlineWords, LoadWords};

fn inline_of(head: Head, rows: u32, cols: u32, posts: ArrayVec<i32, 64>) -> InlineWords
    ensures { inline_in result ≡ record { head = head_in head; rows = rows; cols = cols; posts = posts.items } }
{
    InlineWords {
        kind: head.kind,
        level: head.level,
        lat: head.lat,
        lon: head.lon,
        dlat: head.dlat,
        dlon: head.dlon,
        rows,
        cols,
        posts,
    }
}

/// A source whose posts stand in the line, by the words after `inline`.
#[tactic(auto, unfolding(cdb_model::specs::Grammar::inline_source))]
pub fn read_inline_source(words: Words<'_>) -> Option<InlineWords>
    ensures { option_map (λ w. inline_in w) result ≡ inline_source (left words.entry) }
{
    let (head, words) = read_head(words)?;
    let (rows, words) = count_field(words)?;
    let (cols, words) = count_field(words)?;
    Some(inline_of(head, rows, cols, read_posts(words)?))
}

fn load_of(head: Head, novalue: i32, path: ArrayString<128>) -> LoadWords
    ensures { file_in result ≡ record { head = head_in head; novalue = novalue; path = path.bytes } }
{
    LoadWords {
        kind: head.kind,
        level: head.level,
        lat: head.lat,
        lon: head.lon,
        dlat: head.dlat,
        dlon: head.dlon,
        novalue,
        path,
    }
}

fn last_path(words: Words<'_>) -> Option<ArrayString<128>>
    ensures { option_map (λ p. p.bytes) result ≡ only_word path_word (left words.entry) }
{
    read_path(words.only()?)
}

/// A source whose posts a file holds, by the words after `source`.
#[tactic(auto, unfolding(cdb_model::specs::Grammar::file_source))]
pub fn read_file_source(words: Words<'_>) -> Option<LoadWords>
    ensures { option_map (λ w. file_in w) result ≡ file_source (left words.entry) }
{
    let (head, words) = read_head(words)?;
    let (novalue, words) = small_field(words)?;
    Some(load_of(head, novalue, last_path(words)?))
}
