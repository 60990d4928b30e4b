//! One axis of the globe, in arc units from its beginning, cut into parts of one extent.
ghost use Prim.Native.Nat.{◌∣◌};
ghost use Rattle.std.specs.Prelude.{◌≡◌, ℕ, ◌↔◌, ◌+◌, ◌-◌, ◌*◌, ◌^◌, ◌≤◌, ◌<◌, IsTrue};
ghost use Rattle.cdb_touch.specs.inside.Axis.{HasPlaceOnAxis, HoldsMultiple, inset_of};

use cdb_source::Kind;

/// Consecutive whole numbers, from `first` on and below `end`.
#[derive(Clone, Copy)]
pub(crate) struct Run {
    pub first: u64,
    pub end: u64,
}

impl Run {
    /// How many numbers it has.
    pub(crate) fn len(&self) -> u64
        ensures { result ≡ self.now.end - self.now.first }
    {
        self.end.saturating_sub(self.first)
    }

    pub(crate) fn contains(&self, number: u64) -> bool
        ensures { IsTrue result ↔ ((self.now.first ≤ number) × (number < self.now.end)) }
    {
        self.first <= number && number < self.end
    }
}

/// The parts that hold a multiple of a step from `low` on and below `high`.
fn holding(step: u64, extent: u64, low: u64, high: u64) -> Run
    requires step { 1 ≤ step }
    requires extent { 1 ≤ extent }
    requires whole { step ∣ extent }
    requires small { low + step < 2 ^ 60 }
    requires high { high < 2 ^ 60 }
    ensures each { (n : ℕ) → HoldsMultiple step low high extent n ↔ ((result.first ≤ n) × (n < result.end)) }
    ensures order { result.first ≤ result.end }
    ensures within { (all : ℕ) → high ≤ all * extent → result.end ≤ all }
{
    let first = low.div_ceil(step) * step;
    if first >= high {
        return Run { first: 0, end: 0 };
    }
    Run {
        first: first / extent,
        end: (high - 1) / extent + 1,
    }
}

/// The parts that hold a place of a source between the edges of its box, where the parts fill the
/// globe.
pub(crate) fn with_places(
    kind: Kind,
    step: u64,
    extent: u64,
    near: u64,
    far: u64,
    globe: u64,
) -> Run
    requires step { 1 ≤ step }
    requires extent { 1 ≤ extent }
    requires whole { step ∣ extent }
    requires small { near + step < 2 ^ 60 }
    requires far { far ≤ globe }
    requires globe { globe < 2 ^ 59 }
    ensures each { (n : ℕ) → (n + 1) * extent ≤ globe →
        HasPlaceOnAxis kind step near far extent n ↔ ((result.first ≤ n) × (n < result.end)) }
    ensures order { result.first ≤ result.end }
    ensures within { (all : ℕ) → globe ≤ all * extent → result.end ≤ all }
{
    match kind {
        Kind::Elevation => holding(step, extent, near, (far + 1).min(globe)),
        Kind::Material => {
            let inset = step / 2;
            holding(
                step,
                extent,
                near.saturating_sub(inset),
                far.saturating_sub(inset),
            )
        }
    }
}
