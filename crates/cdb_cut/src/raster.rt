//! The posts of a source as values, and its box.
ghost use Rattle.std.specs.Prelude.{◌≡◌, ◌+◌, ◌-◌, ◌≤◌, ◌<◌, ◌↔◌, IsTrue, IfSome, unsigned_abs};
ghost use Rattle.cdb_source.specs.Posts.{IsPost};
ghost use Rattle.cdb_source.specs.Sample.{post_at, value_of, is_in_box, is_before};

use cdb_source::{Kind, Source, SourceHead};

fn is_not_past(kind: Kind, x: u64, edge: u64) -> bool
    ensures { result ≡ is_before kind x edge }
{
    match kind {
        Kind::Elevation => x <= edge,
        Kind::Material => x < edge,
    }
}

pub(crate) fn is_inside(head: &SourceHead, north: u64, east: u64) -> bool
    ensures { result ≡ is_in_box head.now (record { north = north; east = east }) }
{
    head.south() <= north
        && is_not_past(head.kind, north, head.north())
        && head.west() <= east
        && is_not_past(head.kind, east, head.east())
}

fn value(kind: Kind, post: i16) -> Option<i16>
    requires { IsPost kind post }
    ensures value { result ≡ value_of kind post }
    ensures near { IfSome result (λ v. unsigned_abs v ≤ 32767) }
{
    if post == kind.no_value() {
        None
    } else {
        Some(post)
    }
}

/// The value of the post at a row from the south and a column from the west.
pub(crate) fn post(source: &Source, row: u64, col: u64) -> Option<i16>
    ensures value { result ≡ post_at source.now row col }
    ensures near { IfSome result (λ v. unsigned_abs v ≤ 32767) }
{
    if row >= source.head.rows as u64 || col >= source.head.cols as u64 {
        return None;
    }
    let index = row as usize * source.head.cols as usize + col as usize;
    value(source.head.kind, source.posts.as_slice()[index])
}
