//! One row of numbers, and the posts that it becomes.
ghost use Rattle.std.specs.Prelude.{◌≡◌, ◌⊎◌, ◌+◌, ◌≤◌, ◌≤ℤ◌, ◌↔◌, ◌++◌, IsTrue, All, map, take, drop, length};
ghost use Rattle.cdb_source.specs.Posts.{IsAllowed, IsPost, greatest_of, least_of, post_of};

use crate::kind::Kind;

/// The least post of a kind, and the greatest.
fn limits(kind: Kind) -> (i32, i32)
    ensures least { result.0 ≡ least_of kind }
    ensures greatest { result.1 ≡ greatest_of kind }
{
    match kind {
        Kind::Elevation => (-32768, 32767),
        Kind::Material => (0, 255),
    }
}

pub(crate) fn is_post(kind: Kind, number: i32) -> bool
    ensures { IsTrue result ↔ IsPost kind number }
{
    let (least, greatest) = limits(kind);
    least <= number && number <= greatest
}

/// Tests without a branch, so that a loop tests several numbers at once.
fn is_within(novalue: i32, least: i32, greatest: i32, number: i32) -> bool
    ensures { IsTrue result ↔ ((number ≡ novalue) ⊎ ((least ≤ℤ number) × (number ≤ℤ greatest))) }
{
    (number == novalue) | ((least <= number) & (number <= greatest))
}

/// Looks at every number, also after one that isn't allowed.
pub(crate) fn is_row(kind: Kind, novalue: i32, row: &[i32]) -> bool
    ensures { IsTrue result ↔ All (IsAllowed kind novalue) row.now }
{
    let (least, greatest) = limits(kind);
    let mut all = true;
    for number in row {
        all &= is_within(novalue, least, greatest, *number);
    }
    all
}

fn post(kind: Kind, novalue: i32, number: i32) -> i16
    requires { IsAllowed kind novalue number }
    ensures value { result ≡ post_of kind novalue number }
    ensures in_range { IsPost kind result }
{
    if number == novalue {
        kind.no_value()
    } else {
        number as i16
    }
}

pub(crate) fn put_posts(kind: Kind, novalue: i32, row: &[i32], part: &mut [i16])
    requires allowed { All (IsAllowed kind novalue) row.now }
    requires length { length part.old ≡ length row.now }
    ensures posts { part.new ≡ map (post_of kind novalue) row.now }
    ensures in_range { All (IsPost kind) part.new }
{
    for k in 0..row.len() {
        part[k] = post(kind, novalue, row[k]);
    }
}

pub(crate) fn put_row(kind: Kind, novalue: i32, row: &[i32], from: usize, posts: &mut [i16])
    requires allowed { All (IsAllowed kind novalue) row.now }
    requires room { from + length row.now ≤ length posts.old }
    ensures rest { drop from posts.new ≡ map (post_of kind novalue) row.now ++ drop (from + length row.now) posts.old }
    ensures in_range { All (IsPost kind) posts.old → All (IsPost kind) posts.new }
{
    put_posts(kind, novalue, row, &mut posts[from..from + row.len()]);
}
