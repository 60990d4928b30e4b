//! How many tiles sources reach, by arithmetic on their boxes.
ghost use Rattle.std.specs.Prelude.{◌≡◌, ℕ, ◌*◌, ◌^◌, ◌≤◌, ◌<◌};
ghost use Rattle.cdb_grid.specs.Units.{tiles_of};
ghost use Rattle.cdb_grid.specs.declared.family.Family.{Family};
ghost use Rattle.cdb_source.specs.Reached.{kind_of, source_height, IsReachCount, IsLoad};
ghost use Rattle.cdb_touch.specs.inside.Count.{HasCount};
ghost use Rattle.cdb_touch.specs.inside.Reach.{IsOfFamily, IsOfHeight, IsOfRow};

use crate::heights::COARSEST;
use crate::rectangle::{geocell_rows, reached_in_row};
use cdb_grid::units;
use cdb_source::{Kind, SourceHead};

/// How many tiles of one family and a height a source reaches in a row of geocells.
fn count_in_row(head: &SourceHead, height: u32, row: u64) -> u64
    requires finer { source_height head.now ≤ height }
    requires most { height ≤ 34 }
    requires row { row < 180 }
    ensures each { (f : Family) → head.now.kind ≡ kind_of f → HasCount (IsOfRow head.now f height row) result }
    ensures most { result ≤ 360 * (tiles_of height * tiles_of height) }
{
    let rectangle = reached_in_row(head, height, row);
    rectangle.rows.len() * rectangle.columns.len()
}

/// How many tiles of one family and a height a source reaches.
fn count_at_height(head: &SourceHead, height: u32) -> u64
    requires finer { source_height head.now ≤ height }
    requires most { height ≤ 34 }
    ensures each { (f : Family) → head.now.kind ≡ kind_of f → HasCount (IsOfHeight head.now f height) result }
    ensures most { result ≤ 64800 * (tiles_of height * tiles_of height) }
{
    let rows = geocell_rows(head, height);
    let mut count = 0;
    for row in rows.first..rows.end {
        count += count_in_row(head, height, row);
    }
    count
}

/// How many tiles of one family a source reaches.
fn count_of_family(head: &SourceHead) -> u64
    ensures each { (f : Family) → head.now.kind ≡ kind_of f → HasCount (IsOfFamily head.now f) result }
    ensures most { 3 * result < 2 ^ 64 }
{
    let mut count = 0;
    for height in units::height(head.level)..COARSEST + 1 {
        count += count_at_height(head, height);
    }
    count
}

/// How many tiles a source reaches.
fn reach_count(head: &SourceHead) -> u64
    ensures { IsReachCount head.now result }
{
    let count = count_of_family(head);
    match head.kind {
        Kind::Elevation => 3 * count,
        Kind::Material => count,
    }
}

/// The load of a list of sources: the sum over its sources of the number of tiles that each reaches
/// by itself, of every family. It can pass 64 bits. It takes no memory, and its time grows with the
/// rows of geocells and the levels that the boxes span, not with the number of tiles.
pub fn load(heads: &[SourceHead]) -> u128
    ensures load { IsLoad heads.now result }
    ensures only { (n : ℕ) → IsLoad heads.now n → n ≡ result }
{
    let mut total = 0;
    for head in heads {
        total += reach_count(head) as u128;
    }
    total
}
