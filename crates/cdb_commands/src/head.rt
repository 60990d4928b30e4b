ghost use Rattle.std.specs.Prelude.{◌≡◌, option_map};
ghost use Rattle.cdb_model.specs.Grammar.{head};
ghost use Rattle.cdb_commands.specs.Left.{left};
ghost use Rattle.cdb_commands.specs.Meaning.{head_in};

use crate::fields::{fraction_field, kind_field, small_field};
use crate::words::Words;
use cdb_grid::Fraction;
use cdb_source::Kind;

/// The words that a source begins with: what its posts are, its level, its south-west corner and
/// its steps in degrees.
#[derive(Clone, Copy)]
pub struct Head {
    pub kind: Kind,
    pub level: i32,
    pub lat: Fraction,
    pub lon: Fraction,
    pub dlat: Fraction,
    pub dlon: Fraction,
}

#[tactic(auto, unfolding(cdb_model::specs::Grammar::head))]
pub fn read_head(words: Words<'_>) -> Option<(Head, Words<'_>)>
    ensures { option_map (λ p. (head_in p.0, left p.1)) result ≡ head (left words.entry) }
{
    let (kind, words) = kind_field(words)?;
    let (level, words) = small_field(words)?;
    let (lat, words) = fraction_field(words)?;
    let (lon, words) = fraction_field(words)?;
    let (dlat, words) = fraction_field(words)?;
    let (dlon, words) = fraction_field(words)?;
    let head = Head {
        kind,
        level,
        lat,
        lon,
        dlat,
        dlon,
    };
    Some((head, words))
}
