/// A coordinate or a step as it is spelled: `n/d` degrees. `d` may be 0 or below, and the fraction is
/// then no arc (`Arc::of_fraction`).
#[derive(Clone, Copy, Debug, PartialEq, Eq)]
pub struct Fraction {
    pub n: i64,
    pub d: i64,
}
