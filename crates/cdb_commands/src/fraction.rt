ghost use Rattle.std.specs.Prelude.{◌≡◌, option_map, take};
ghost use Rattle.std.specs.List.{position_or_len};
ghost use Rattle.cdb_model.specs.Grammar.{fraction, fraction_of, after_slash, is_slash};

use crate::numbers::{as_signed, read_digits, read_signed};
use crate::words::place_of;
use cdb_grid::Fraction;

/// What stands before the first slash of a word, and after it where there is one.
pub fn cut_at_slash(word: &[u8]) -> (&[u8], Option<&[u8]>)
    ensures top { result.0.now ≡ take (position_or_len is_slash word.now) word.now }
    ensures bottom { option_map (λ d. d.now) result.1 ≡ after_slash word.now }
{
    let end = place_of(word, b'/');
    let top = word.split_at(end).0;
    if end < word.len() {
        let bottom = word.split_at(end + 1).1;
        (top, Some(bottom))
    } else {
        (top, None)
    }
}

/// A number of degrees as it is spelled: `n` or `n/d`, where d may be 0.
#[tactic(auto, unfolding(cdb_model::specs::Grammar::fraction))]
pub fn read_fraction(word: &[u8]) -> Option<Fraction>
    ensures { result ≡ fraction word.now }
{
    let (top, bottom) = cut_at_slash(word);
    let n = read_signed(top, 18)?;
    match bottom {
        None => Some(Fraction { n, d: 1 }),
        Some(bottom) => Some(Fraction {
            n,
            d: as_signed(read_digits(bottom, 18)?),
        }),
    }
}
