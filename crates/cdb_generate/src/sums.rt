//! The sum of the values of a tile.
ghost use Rattle.std.specs.Prelude.{◌≡◌, ◌≤◌, pos, negsuc, ◌≤ℤ◌, length};
ghost use Rattle.cdb_source.specs.Reached.{kind_of};
ghost use Rattle.cdb_generate.specs.Sums.{numbers_sum, number_value, SumsTiles};
ghost use Rattle.cdb_model.specs.declared.limits.TheConstants.{MOST_TILE_VALUES};

use cdb_source::Kind;

/// What a number of a frame adds: nothing where it stands for no value.
fn value(kind: Kind, number: i16) -> i64
    ensures value { result ≡ number_value kind number }
    ensures least { negsuc 32767 ≤ℤ result }
    ensures most { result ≤ℤ pos 32768 }
{
    match kind {
        Kind::Elevation if number == -32768 => 0,
        Kind::Elevation | Kind::Material => i64::from(number),
    }
}

/// The sum of the values of a tile from its frame, a number for each element, -32768 for no elevation
/// and 0 for no material.
pub fn sum_posts(kind: Kind, posts: &[i16]) -> i64
    requires { length posts.now ≤ MOST_TILE_VALUES }
    ensures sum { result ≡ numbers_sum kind posts.now }
    ensures tile { SumsTiles kind posts.now result }
    ensures least { negsuc 34359738367 ≤ℤ result }
    ensures most { result ≤ℤ pos 34359738368 }
{
    let mut sum = 0;
    for post in posts {
        sum += value(kind, *post);
    }
    sum
}
