ghost use Rattle.std.specs.Prelude.{◌⊎◌, ◌≡◌, ℤ, pos, negsuc, ◌+ℤ◌, ◌≤ℤ◌, ◌<ℤ◌, MatchOption};

/// A level of detail, from -10 to 23 (OGC CDB 1.2 Volume 1, levels of detail). Each level has
/// twice the resolution of the one before.
#[derive(Clone, Copy, Debug, PartialEq, Eq, PartialOrd, Ord)]
pub struct Level {
    pub number: i8,
    pub ghost coarsest: { negsuc 9 ≤ℤ number },
    pub ghost finest: { number ≤ℤ pos 23 },
}

impl Level {
    /// The level of number `l`, or `None` outside -10 to 23.
    pub fn new(l: i32) -> Option<Level>
        ensures { MatchOption result ((l <ℤ negsuc 9) ⊎ (pos 23 <ℤ l)) (λ level. level.number ≡ l) }
    {
        if (-10..=23).contains(&l) {
            Some(Level { number: l as i8 })
        } else {
            None
        }
    }

    /// The next finer level, or `None` at level 23.
    pub(crate) fn finer(self) -> Option<Level>
        ensures { MatchOption result (self.number ≡ pos 23) (λ level. self.number +ℤ pos 1 ≡ level.number) }
    {
        Level::new(self.number as i32 + 1)
    }

    /// The next coarser level, or `None` at level -10.
    pub(crate) fn coarser(self) -> Option<Level>
        ensures { MatchOption result (self.number ≡ negsuc 9) (λ level. level.number +ℤ pos 1 ≡ self.number) }
    {
        Level::new(self.number as i32 - 1)
    }
}
