//! The weighted mean of posts, in whole numbers, at one place. Here a post may be none or lie past the
//! last; `blend` is for whole rows of numbers, and needs a neighbour in place of each post of weight zero.
ghost use Rattle.std.specs.Prelude.{◌≡◌, ◌+◌, ◌*◌, ◌^◌, ◌≤◌, ◌<◌, IfSome, unsigned_abs};
ghost use Rattle.std.specs.Option.{option_map};
ghost use Rattle.cdb_source.specs.Sample.{plus, rounded, weighted_sum, post_at, row_step, column_step};

use crate::raster::post;
use cdb_source::Source;

/// A sum of posts, each as often as its weight says, and the sum of the weights. None where a post
/// of nonzero weight has no value.
#[derive(Clone, Copy)]
struct Sum {
    weight: u128,
    total: Option<i128>,
}

/// The total with one post more. A post of weight zero isn't looked at.
fn add_post(total: Option<i128>, weight: u128, post: Option<i16>) -> Option<i128>
    requires weight { weight ≤ 2 ^ 98 }
    requires total { IfSome total (λ n. unsigned_abs n ≤ 32767 * 2 ^ 100) }
    requires post { IfSome post (λ v. unsigned_abs v ≤ 32767) }
    ensures { result ≡ plus weight post total }
{
    if weight == 0 {
        return total;
    }
    match (total, post) {
        (Some(total), Some(post)) => Some(total + weight as i128 * post as i128),
        _ => None,
    }
}

fn with_post(sum: Sum, weight: u128, post: Option<i16>) -> Sum
    requires weight { weight ≤ 2 ^ 98 }
    requires room { sum.weight ≤ 2 ^ 100 }
    requires total { IfSome sum.total (λ n. unsigned_abs n ≤ 32767 * sum.weight) }
    requires post { IfSome post (λ v. unsigned_abs v ≤ 32767) }
    ensures weight { result.weight ≡ sum.weight + weight }
    ensures total { result.total ≡ plus weight post sum.total }
    ensures near { IfSome result.total (λ n. unsigned_abs n ≤ 32767 * result.weight) }
{
    Sum {
        weight: sum.weight + weight,
        total: add_post(sum.total, weight, post),
    }
}

/// The product of two steps, or of two distances.
fn product(a: u64, b: u64) -> u128
    requires a { a ≤ 417470821171200 }
    requires b { b ≤ 417470821171200 }
    ensures product { result ≡ a * b }
    ensures most { result ≤ 2 ^ 98 }
{
    a as u128 * b as u128
}

/// The quotient rounded to the nearest whole number, a half upward.
#[tactic(auto, using(crate::proofs::MeanLaws::quotient_is))]
fn quotient(total: i128, weight: u128) -> i128
    requires weight { 1 ≤ weight }
    requires most { weight ≤ 2 ^ 98 }
    requires near { unsigned_abs total ≤ 32767 * weight }
    ensures { result ≡ rounded weight total }
{
    (2 * total + weight as i128).div_euclid(2 * weight as i128)
}

/// The same in 16 bits, which it fits.
fn mean(total: i128, weight: u128) -> i16
    requires weight { 1 ≤ weight }
    requires most { weight ≤ 2 ^ 98 }
    requires near { unsigned_abs total ≤ 32767 * weight }
    ensures { result ≡ rounded weight total }
{
    quotient(total, weight) as i16
}

/// The four posts around a point, whose distances to the first row and the first column are `up`
/// and `right`.
#[tactic(auto, using(crate::proofs::MeanLaws::four_weights), unfolding(cdb_source::specs::Sample::weighted_sum))]
fn weigh(source: &Source, up: u64, right: u64) -> Sum
    requires up { up ≤ 6262062317568000 }
    requires right { right ≤ 12524124635136000 }
    ensures total { result.total ≡ weighted_sum (post_at source.now) (row_step source.now.head)
        (column_step source.now.head) up right }
    ensures weight { result.weight ≡ row_step source.now.head * column_step source.now.head }
    ensures near { IfSome result.total (λ n. unsigned_abs n ≤ 32767 * result.weight) }
{
    let dlat = source.head.row_step();
    let dlon = source.head.column_step();
    let (row, col) = (up / dlat, right / dlon);
    let (above, beyond) = (up % dlat, right % dlon);
    let sum = Sum {
        weight: 0,
        total: Some(0),
    };
    let sum = with_post(
        sum,
        product(dlat - above, dlon - beyond),
        post(source, row, col),
    );
    let sum = with_post(
        sum,
        product(dlat - above, beyond),
        post(source, row, col + 1),
    );
    let sum = with_post(
        sum,
        product(above, dlon - beyond),
        post(source, row + 1, col),
    );
    with_post(sum, product(above, beyond), post(source, row + 1, col + 1))
}

/// The weighted mean of the four posts around a place that lies `up` and `right` of the corner.
pub(crate) fn mean_of_four(source: &Source, up: u64, right: u64) -> Option<i16>
    requires up { up ≤ 6262062317568000 }
    requires right { right ≤ 12524124635136000 }
    ensures { let head = source.now.head in
        result ≡ option_map (rounded (row_step head * column_step head))
        (weighted_sum (post_at source.now) (row_step head) (column_step head) up right) }
{
    let sum = weigh(source, up, right);
    match sum.total {
        Some(total) => Some(mean(total, sum.weight)),
        None => None,
    }
}
