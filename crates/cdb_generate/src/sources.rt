//! Sources and publications that are drawn.
ghost use Rattle.std.specs.Prelude.{◌≡◌, ◌<◌, ◌^◌, OnOk, IfOk};
ghost use Rattle.cdb_generate.specs.Generator.{state_after_draws, post_drawn, posts_drawn, SourceDrawn, PublicationDrawn, state_next};

use crate::draws::draw;
use crate::heads::draw_head;
use cdb_source::{Kind, Posts, Source};
use std::alloc::{AllocError, Global};

/// The post of a row from the south and a column from the west.
fn post(kind: Kind, base: u64, row: u32, col: u32) -> i16
    requires { base < 2 ^ 32 }
    ensures { result ≡ post_drawn kind base row col }
{
    let number = base + 7 * row as u64 + 13 * col as u64;
    match kind {
        Kind::Elevation => (number % 2001) as i16,
        Kind::Material => 1 + (number % 255) as i16,
    }
}

/// The posts of a source, south row first.
fn posts(alloc: Global, kind: Kind, base: u64, rows: u32, cols: u32) -> Result<Vec<i16>, AllocError>
    requires { base < 2 ^ 32 }
    ensures { IfOk result (λ posts. posts.items ≡ posts_drawn kind base rows cols) }
{
    let mut posts = Vec::with_capacity(alloc, rows as usize * cols as usize)?;
    for row in 0..rows {
        for col in 0..cols {
            posts.push(post(kind, base, row, col))?;
        }
    }
    Ok(posts)
}

/// The next source.
fn draw_source(alloc: Global, state: &mut u64) -> Result<Source, AllocError>
    ensures source { IfOk result (SourceDrawn state.old) }
    ensures state { state.new ≡ state_after_draws 7 state.old }
{
    let head = draw_head(state);
    let base = draw(state);
    let posts = posts(alloc, head.kind, base, head.rows, head.cols)?;
    Ok(Source {
        head,
        posts: Posts::from(posts),
    })
}

/// The sources of the next publication: one to three, each of at most 64 rows and 64 columns. Where memory
/// runs out the state may have passed some of the draws.
pub fn draw_publication(alloc: Global, state: &mut u64) -> Result<Vec<Source>, AllocError>
    ensures sources { IfOk result (λ sources. PublicationDrawn state.old sources.items) }
    ensures state { OnOk result (state.new ≡ state_next state.old) }
{
    let count = 1 + draw(state) % 3;
    let mut sources = Vec::with_capacity(alloc, count as usize)?;
    for _k in 0..count {
        sources.push(draw_source(alloc, state)?)?;
    }
    Ok(sources)
}
