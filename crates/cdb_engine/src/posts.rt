//! A source of the posts of an order.
ghost use Rattle.std.specs.Prelude.{◌≡◌, ◌*◌, length, IfOk, OnOk, OnErr, All};
ghost use Rattle.cdb_source.specs.Posts.{IsAllowed, none_of};
ghost use Rattle.cdb_model.specs.Grammar.{inline_in};
ghost use Rattle.cdb_model.specs.ImageFiles.{SpellsNone};
ghost use Rattle.cdb_model.specs.Spelled.{SpellsSource, spelled_row};
ghost use Rattle.cdb_model.specs.Text.{last_first};
ghost use Rattle.cdb_engine.specs.inside.Words.{HasRows};

use crate::InlineOrder;
use crate::engine::Engine;
use crate::errors::InlineError;
use crate::head_words::{head_of, of_inline};
use cdb_source::{Kind, Range, Source, SourceMaker};
use std::alloc::Global;

/// The number that has no value.
fn no_value(kind: Kind) -> i32
    ensures { result ≡ none_of kind }
{
    match kind {
        Kind::Elevation => -32768,
        Kind::Material => 0,
    }
}

/// Gives posts to a source in the making, row by row, the north row first.
fn push_posts(
    maker: &mut SourceMaker,
    posts: &[i32],
    rows: usize,
    cols: usize,
    novalue: i32,
) -> Result<(), Range>
    requires rows { rows ≡ maker.old.head.rows }
    requires cols { cols ≡ maker.old.head.cols }
    requires length { length posts.now ≡ rows * cols }
    requires fresh { HasRows maker.old.head novalue (spelled_row cols posts.now) 0 maker.old }
    ensures ok { OnOk result (HasRows maker.old.head novalue (spelled_row cols posts.now) rows maker.new) }
    ensures err { OnErr result (All (IsAllowed maker.old.head.kind novalue)
        (last_first rows (spelled_row cols posts.now)) → ⊥) }
{
    for row in 0..rows {
        let from = row * cols;
        maker.push_row(&posts[from..from + cols], novalue)?;
    }
    Ok(())
}

impl Engine {
    /// Makes the source that an order spells. The number that has no value is -32768 for elevation
    /// and 0 for material. `Range` exactly where the order spells no source: a level that isn't
    /// one, a coordinate or a step that is no whole number of arc units or out of range, rows and
    /// columns out of range, another number of posts, or a post out of range. `Memory`: memory for
    /// the posts was refused.
    pub fn inline(&self, alloc: Global, order: &InlineOrder) -> Result<Source, InlineError>
        ensures spelled { IfOk result (SpellsSource (inline_in order.now)) }
        ensures range { result ≡ Err InlineError.Range → SpellsNone (SpellsSource (inline_in order.now)) }
    {
        let Some(head) = head_of(&of_inline(order), order.rows, order.cols) else {
            return Err(InlineError::Range);
        };
        let rows = head.rows as usize;
        let cols = head.cols as usize;
        if order.posts.len() != rows * cols {
            return Err(InlineError::Range);
        }
        let Ok(mut maker) = SourceMaker::new(alloc, head) else {
            return Err(InlineError::Memory);
        };
        match push_posts(&mut maker, &order.posts, rows, cols, no_value(head.kind)) {
            Ok(()) => Ok(maker.finish()),
            Err(_) => Err(InlineError::Range),
        }
    }
}
