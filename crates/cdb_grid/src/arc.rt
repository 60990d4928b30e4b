ghost use Rattle.std.specs.Prelude.{◌≡◌, ℕ, ℤ, pos, negsuc, ◌≤ℤ◌, ◌≤◌, ◌<◌, ◌*◌, MatchOption};
ghost use Rattle.cdb_grid.specs.Units.{degree, IsFraction};

/// A latitude, a longitude or a step, in arc units of which a degree has 34,789,235,097,600
/// (`2025 * 2^34`). It lies within 360 degrees to either side.
#[derive(Clone, Copy, Debug, PartialEq, Eq)]
pub struct Arc {
    pub units: i64,
    pub ghost least: { negsuc 12524124635135999 ≤ℤ units },
    pub ghost most: { units ≤ℤ pos 12524124635136000 },
}

/// The arc units of one degree, `2025 * 2^34`.
pub const DEGREE: u64 = 34_789_235_097_600;

/// The arc units from the equator to a pole.
pub const TO_POLE: i64 = 90 * DEGREE as i64;

/// The arc units from the meridian of 0 degrees to that of 180 degrees.
pub const TO_WEST: i64 = 180 * DEGREE as i64;

impl Arc {
    /// `n/d` degrees, or `None` where `d` is below 1, `n/d` isn't a whole number of units, or it is
    /// beyond 360 degrees to either side.
    pub fn of_fraction(n: i64, d: i64) -> Option<Arc>
        ensures { MatchOption result ((u : ℤ) → IsFraction n d u → ⊥) (λ arc. IsFraction n d arc.units) }
    {
        if d < 1 {
            return None;
        }
        let units = whole_units(n.unsigned_abs(), d as u64)? as i64;
        Some(Arc {
            units: if n < 0 { -units } else { units },
        })
    }
}

/// `n/d` degrees in units, where they are a whole number and at most 360 degrees.
fn whole_units(n: u64, d: u64) -> Option<u64>
    requires { 0 < d }
    ensures { MatchOption result ((u : ℕ) → u ≤ 360 * degree → u * d ≡ n * degree → ⊥)
        (λ u. (u ≤ 360 * degree) × (u * d ≡ n * degree)) }
{
    let all = n as u128 * DEGREE as u128;
    let units = all / d as u128;
    if units * d as u128 == all && units <= 360 * DEGREE as u128 {
        Some(units as u64)
    } else {
        None
    }
}
