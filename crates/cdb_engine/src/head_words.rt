//! The words of a source's head, and the head that they give.
ghost use Rattle.std.specs.Prelude.{◌≡◌, ℤ, MatchOption};
ghost use Rattle.cdb_grid.specs.declared.level.Level as model;
ghost use Rattle.cdb_model.specs.Grammar.{inline_in, file_in};
ghost use Rattle.cdb_model.specs.Spelled.{IsUnits, SpellsHead};
ghost use Rattle.cdb_engine.specs.Words.{head_of_words, SpellsNoHead};

use cdb_grid::{Arc, Fraction, Level};
use cdb_model::{InlineWords, LoadWords};
use cdb_source::{Kind, SourceHead};

/// What a source's posts are, its level, its south-west corner, and the steps between its rows and
/// between its columns, as they are spelled.
#[derive(Clone, Copy)]
pub struct HeadWords {
    pub kind: Kind,
    pub level: i32,
    pub lat: Fraction,
    pub lon: Fraction,
    pub dlat: Fraction,
    pub dlon: Fraction,
}

/// The head's words of an order with posts.
pub fn of_inline(order: &InlineWords) -> HeadWords
    ensures { head_of_words result ≡ (inline_in order.now).head }
{
    HeadWords {
        kind: order.kind,
        level: order.level,
        lat: order.lat,
        lon: order.lon,
        dlat: order.dlat,
        dlon: order.dlon,
    }
}

/// The head's words of an order with a file.
pub fn of_file(order: &LoadWords) -> HeadWords
    ensures { head_of_words result ≡ (file_in order.now).head }
{
    HeadWords {
        kind: order.kind,
        level: order.level,
        lat: order.lat,
        lon: order.lon,
        dlat: order.dlat,
        dlon: order.dlon,
    }
}

/// The level of the words, if there is one of its number.
fn level(words: &HeadWords) -> Option<Level>
    ensures { MatchOption result ((level : model.Level) → level.number ≡ words.now.level → ⊥)
        (λ level. level.number ≡ words.now.level) }
{
    Level::new(words.level)
}

/// The arc units of a fraction of degrees, where they are a whole number.
fn arc(fraction: &Fraction) -> Option<Arc>
    ensures { MatchOption result ((units : ℤ) → IsUnits fraction.now units → ⊥)
        (λ arc. IsUnits fraction.now arc.units) }
{
    Arc::of_fraction(fraction.n, fraction.d)
}

/// The head that the words give with so many rows and columns, if there is one.
pub fn head_of(words: &HeadWords, rows: u32, cols: u32) -> Option<SourceHead>
    ensures { MatchOption result (SpellsNoHead (head_of_words words.now) rows cols)
        (SpellsHead (head_of_words words.now) rows cols) }
{
    let level = level(words)?;
    let lat = arc(&words.lat)?;
    let lon = arc(&words.lon)?;
    let dlat = arc(&words.dlat)?;
    let dlon = arc(&words.dlon)?;
    SourceHead::new(words.kind, level, lat, lon, dlat, dlon, rows, cols)
}
