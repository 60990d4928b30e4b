ghost use Rattle.std.specs.Prelude.{◌≡◌};
ghost use Rattle.cdb_model.specs.Words.{digits, signed, first_field};
ghost use Rattle.cdb_model.specs.Grammar.{kind_word, fraction};
ghost use Rattle.cdb_commands.specs.Left.{left, read_before};

use crate::fraction::read_fraction;
use crate::numbers::{read_count, read_small};
use crate::words::Words;
use cdb_grid::Fraction;
use cdb_source::Kind;

fn read_kind(word: &[u8]) -> Option<Kind>
    ensures { result ≡ kind_word word.now }
{
    if word == b"elev".as_slice() {
        Some(Kind::Elevation)
    } else if word == b"mat".as_slice() {
        Some(Kind::Material)
    } else {
        None
    }
}

/// What the posts of a source are, by the next word.
pub fn kind_field(words: Words<'_>) -> Option<(Kind, Words<'_>)>
    ensures { read_before result ≡ first_field kind_word (left words.entry) }
{
    let (word, rest) = words.next()?;
    Some((read_kind(word)?, rest))
}

/// A level or a post that stands for none, by the next word.
pub fn small_field(words: Words<'_>) -> Option<(i32, Words<'_>)>
    ensures { read_before result ≡ first_field (signed 9) (left words.entry) }
{
    let (word, rest) = words.next()?;
    Some((read_small(word, 9)?, rest))
}

/// A coordinate or a step in degrees, by the next word.
pub fn fraction_field(words: Words<'_>) -> Option<(Fraction, Words<'_>)>
    ensures { read_before result ≡ first_field fraction (left words.entry) }
{
    let (word, rest) = words.next()?;
    Some((read_fraction(word)?, rest))
}

/// A count or the number of a session, by the next word.
pub fn count_field(words: Words<'_>) -> Option<(u32, Words<'_>)>
    ensures { read_before result ≡ first_field (digits 9) (left words.entry) }
{
    let (word, rest) = words.next()?;
    Some((read_count(word)?, rest))
}
