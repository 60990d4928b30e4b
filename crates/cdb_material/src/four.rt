//! The values of the four finer cells of a cell, and the most frequent of them.
ghost use Rattle.std.specs.Prelude.{◌≡◌, ◌≤◌, [], ◌∷◌, filter_map, ◌&&◌, ◌||◌, nat_lt, nat_eq, int_lt};
ghost use Rattle.cdb_source.specs.Values.{count_of, oftener, mode_of_four};
ghost use Rattle.cdb_material.specs.Frequent.{more_frequent};
ghost use Rattle.cdb_material.specs.inside.Frequent.{values_of};

/// The values of the four finer cells of a cell, each where it has one.
#[derive(Clone, Copy)]
pub struct Four {
    pub south_west: Option<i16>,
    pub south_east: Option<i16>,
    pub north_west: Option<i16>,
    pub north_east: Option<i16>,
}

/// 1 where a value is the one that is sought, else 0.
fn times(value: Option<i16>, sought: i16) -> u32
    ensures value { result ≡ count_of (filter_map (λ v. v) (value ∷ [])) sought }
    ensures most { result ≤ 1 }
{
    match value {
        Some(value) if value == sought => 1,
        _ => 0,
    }
}

/// How many of four values are the one that is sought.
fn count(four: &Four, sought: i16) -> u32
    ensures { result ≡ count_of (values_of four.now) sought }
{
    let south = times(four.south_west, sought) + times(four.south_east, sought);
    let north = times(four.north_west, sought) + times(four.north_east, sought);
    south + north
}

/// Whether `y`, which stands `of_y` times, is more frequent than `x`, which stands `of_x` times, or
/// as frequent and smaller.
fn comes_before(of_x: u32, of_y: u32, x: i16, y: i16) -> bool
    ensures { result ≡ (nat_lt of_x of_y || (nat_eq of_x of_y && int_lt y x)) }
{
    of_x < of_y || (of_x == of_y && y < x)
}

/// The one of two values that is more frequent among four, and of equally frequent ones the smaller.
fn oftener(four: &Four, x: i16, y: i16) -> i16
    ensures { result ≡ oftener (values_of four.now) x y }
{
    let of_x = count(four, x);
    let of_y = count(four, y);
    if comes_before(of_x, of_y, x, y) { y } else { x }
}

/// The same where a value may be none, which is passed over.
fn more_frequent(four: &Four, a: Option<i16>, b: Option<i16>) -> Option<i16>
    ensures { result ≡ more_frequent (values_of four.now) a b }
{
    match (a, b) {
        (Some(x), Some(y)) => Some(oftener(four, x, y)),
        (x, None) => x,
        (None, y) => y,
    }
}

/// The most frequent of four values, and of equally frequent ones the smallest.
pub fn mode(four: &Four) -> Option<i16>
    ensures { result ≡ mode_of_four four.now.south_west four.now.south_east four.now.north_west four.now.north_east }
{
    let south = more_frequent(four, four.south_west, four.south_east);
    let three = more_frequent(four, south, four.north_west);
    more_frequent(four, three, four.north_east)
}
