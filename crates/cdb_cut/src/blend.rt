//! Rounded means of four posts, in natural numbers: each post stands 32768 higher, and so does their
//! mean. These are the means of a row of a frame, whose posts are numbers, -32768 among them.
ghost use Rattle.std.specs.Prelude.{◌≡◌, ℕ, ℤ, pos, negsuc, ◌+ℤ◌, ◌≤ℤ◌, ◌+◌, ◌-◌, ◌*◌, ◌/◌, ◌^◌, ◌≤◌, ◌<◌};
ghost use Rattle.std.specs.Option.{option_or};
ghost use Rattle.cdb_grid.specs.Units.{raised};
ghost use Rattle.cdb_source.specs.declared.kind.Kind.TheVariants.{Elevation};
ghost use Rattle.cdb_source.specs.Posts.{coded};
ghost use Rattle.cdb_source.specs.Sample.{value_of};
ghost use Rattle.cdb_cut.specs.inside.Blend.{mixed, blended, nearest, mean_of_four};

const NONE: i16 = -32768;

/// Where a point stands between two rows of posts: the steps between rows and between columns, and
/// the distance to the row below.
#[derive(Clone, Copy)]
pub(crate) struct Between {
    pub dlat: u64,
    pub dlon: u64,
    pub above: u64,
    pub ghost lat_most: { dlat ≤ 417470821171200 },
    pub ghost lon_least: { 1 ≤ dlon },
    pub ghost lon_most: { dlon ≤ 417470821171200 },
    pub ghost above_below: { above < dlat },
}

/// A way to take the mean of four posts. It serves for some products of the two steps.
pub(crate) trait FourMean {
    ghost serves: { Self → ℕ → Type 0 };

    /// The mean at the distances `a` and `b` from the south-west post, where the steps between rows and
    /// between columns are `m` and `n`.
    fn mean(&self, m: u64, n: u64, a: u64, b: u64, sw: u64, se: u64, nw: u64, ne: u64) -> u64
        requires serves { serves self.now (m * n) }
        requires m { m ≤ 417470821171200 }
        requires n { n ≤ 417470821171200 }
        requires above { a < m }
        requires beyond { b < n }
        requires sw { sw ≤ 65535 }
        requires se { se ≤ 65535 }
        requires nw { nw ≤ 65535 }
        requires ne { ne ≤ 65535 }
        ensures value { result ≡ nearest (blended m n a b sw se nw ne) (m * n) }
        ensures most { result ≤ 65535 };
}

/// In 64 bits, with a shift for the quotient: twice the product of the steps is that power of two.
#[derive(Clone, Copy)]
pub(crate) struct Shift {
    pub exponent: u32,
}

/// In 64 bits.
#[derive(Clone, Copy)]
pub(crate) struct Narrow;

/// In 128 bits, whatever the steps are.
#[derive(Clone, Copy)]
pub(crate) struct Wide;

fn mixed_64(whole: u64, part: u64, first: u64, second: u64) -> u64
    requires whole { whole ≤ 2 ^ 46 }
    requires part { part ≤ whole }
    requires first { first ≤ 65535 }
    requires second { second ≤ 65535 }
    ensures value { result ≡ mixed whole part first second }
    ensures most { result ≤ whole * 65535 }
{
    (whole - part) * first + part * second
}

fn mixed_rows_64(m: u64, a: u64, n: u64, south: u64, north: u64) -> u64
    requires room { m * n ≤ 2 ^ 46 }
    requires part { a ≤ m }
    requires south { south ≤ n * 65535 }
    requires north { north ≤ n * 65535 }
    ensures value { result ≡ mixed m a south north }
    ensures most { result ≤ m * n * 65535 }
{
    (m - a) * south + a * north
}

/// The sum of four posts, each as often as its weight says.
fn sum_64(m: u64, n: u64, a: u64, b: u64, sw: u64, se: u64, nw: u64, ne: u64) -> u64
    requires room { m * n ≤ 2 ^ 46 }
    requires above { a < m }
    requires beyond { b < n }
    requires sw { sw ≤ 65535 }
    requires se { se ≤ 65535 }
    requires nw { nw ≤ 65535 }
    requires ne { ne ≤ 65535 }
    ensures value { result ≡ blended m n a b sw se nw ne }
    ensures most { result ≤ m * n * 65535 }
{
    let south = mixed_64(n, b, sw, se);
    let north = mixed_64(n, b, nw, ne);
    mixed_rows_64(m, a, n, south, north)
}

fn nearest_64(sum: u64, d: u64) -> u64
    requires least { 1 ≤ d }
    requires most { d ≤ 2 ^ 46 }
    requires sum { sum ≤ d * 65535 }
    ensures value { result ≡ nearest sum d }
    ensures most { result ≤ 65535 }
{
    (2 * sum + d) / (2 * d)
}

/// The quotient by twice a number, which is a power of two.
fn shifted(number: u64, d: u64, exponent: u32) -> u64
    requires small { exponent < 64 }
    requires power { 2 * d ≡ 2 ^ exponent }
    ensures { result ≡ number / (2 * d) }
{
    number >> exponent
}

fn nearest_shifted(sum: u64, d: u64, exponent: u32) -> u64
    requires least { 1 ≤ d }
    requires most { d ≤ 2 ^ 46 }
    requires sum { sum ≤ d * 65535 }
    requires small { exponent < 64 }
    requires power { 2 * d ≡ 2 ^ exponent }
    ensures value { result ≡ nearest sum d }
    ensures most { result ≤ 65535 }
{
    shifted(2 * sum + d, d, exponent)
}

fn mixed_128(whole: u64, part: u64, first: u64, second: u64) -> u128
    requires whole { whole ≤ 417470821171200 }
    requires part { part ≤ whole }
    requires first { first ≤ 65535 }
    requires second { second ≤ 65535 }
    ensures value { result ≡ mixed whole part first second }
    ensures most { result ≤ whole * 65535 }
{
    (whole - part) as u128 * first as u128 + part as u128 * second as u128
}

fn mixed_rows_128(m: u64, a: u64, n: u64, south: u128, north: u128) -> u128
    requires m { m ≤ 417470821171200 }
    requires n { n ≤ 417470821171200 }
    requires part { a ≤ m }
    requires south { south ≤ n * 65535 }
    requires north { north ≤ n * 65535 }
    ensures value { result ≡ mixed m a south north }
    ensures most { result ≤ m * n * 65535 }
{
    (m - a) as u128 * south + a as u128 * north
}

fn nearest_128(sum: u128, d: u128) -> u64
    requires least { 1 ≤ d }
    requires most { d ≤ 2 ^ 98 }
    requires sum { sum ≤ d * 65535 }
    ensures value { result ≡ nearest sum d }
    ensures most { result ≤ 65535 }
{
    ((2 * sum + d) / (2 * d)) as u64
}

impl FourMean for Shift {
    ghost serves = { λ way d. (d ≤ 2 ^ 46) × ((way.exponent < 64) × (2 * d ≡ 2 ^ way.exponent)) };

    fn mean(&self, m: u64, n: u64, a: u64, b: u64, sw: u64, se: u64, nw: u64, ne: u64) -> u64 {
        nearest_shifted(sum_64(m, n, a, b, sw, se, nw, ne), m * n, self.exponent)
    }
}

impl FourMean for Narrow {
    ghost serves = { λ _ d. d ≤ 2 ^ 46 };

    fn mean(&self, m: u64, n: u64, a: u64, b: u64, sw: u64, se: u64, nw: u64, ne: u64) -> u64 {
        nearest_64(sum_64(m, n, a, b, sw, se, nw, ne), m * n)
    }
}

impl FourMean for Wide {
    ghost serves = { λ _ _. Unit {0} };

    fn mean(&self, m: u64, n: u64, a: u64, b: u64, sw: u64, se: u64, nw: u64, ne: u64) -> u64 {
        let south = mixed_128(n, b, sw, se);
        let north = mixed_128(n, b, nw, ne);
        nearest_128(mixed_rows_128(m, a, n, south, north), m as u128 * n as u128)
    }
}

/// A post as a natural number.
fn raise(post: i16) -> u64
    ensures value { result ≡ raised 32768 post }
    ensures most { result ≤ 65535 }
{
    (post as i32 + 32768) as u64
}

/// The post of a natural number.
fn lower(number: u64) -> i16
    requires { number ≤ 65535 }
    ensures { result +ℤ pos 32768 ≡ pos number }
{
    (number as i32 - 32768) as i16
}

/// The mean of four posts that all have a value.
fn mean<M: FourMean>(way: &M, at: &Between, beyond: u64, sw: i16, se: i16, nw: i16, ne: i16) -> i16
    requires serves { M.serves way.now (at.now.dlat * at.now.dlon) }
    requires beyond { beyond < at.now.dlon }
    ensures { result +ℤ pos 32768 ≡ pos (nearest
        (blended at.now.dlat at.now.dlon at.now.above beyond (raised 32768 sw) (raised 32768 se)
        (raised 32768 nw) (raised 32768 ne))
        (at.now.dlat * at.now.dlon)) }
{
    lower(way.mean(
        at.dlat,
        at.dlon,
        at.above,
        beyond,
        raise(sw),
        raise(se),
        raise(nw),
        raise(ne),
    ))
}

/// The number of a frame: as it was where it has a value, else the mean of four posts, or none where
/// one of them has none.
pub(crate) fn or_mean<M: FourMean>(
    way: &M,
    old: i16,
    at: &Between,
    beyond: u64,
    sw: i16,
    se: i16,
    nw: i16,
    ne: i16,
) -> i16
    requires serves { M.serves way.now (at.now.dlat * at.now.dlon) }
    requires beyond { beyond < at.now.dlon }
    requires east { beyond ≡ 0 → (se ≡ sw) × (ne ≡ nw) }
    requires north { at.now.above ≡ 0 → (nw ≡ sw) × (ne ≡ se) }
    ensures { result ≡ coded Elevation (option_or (value_of Elevation old)
        (mean_of_four at.now.dlat at.now.dlon at.now.above beyond (value_of Elevation sw)
        (value_of Elevation se) (value_of Elevation nw) (value_of Elevation ne))) }
{
    if old != NONE {
        return old;
    }
    if sw == NONE {
        return NONE;
    }
    if se == NONE {
        return NONE;
    }
    if nw == NONE {
        return NONE;
    }
    if ne == NONE {
        return NONE;
    }
    mean(way, at, beyond, sw, se, nw, ne)
}
