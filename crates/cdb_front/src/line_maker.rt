ghost use Rattle.std.specs.Prelude.{◌≡◌, ℕ, ◌≤◌, List, [], ◌∷◌, ◌++◌, length, Option, Some, None, if◌then◌else◌};
ghost use Rattle.std.specs.Option.{option_map};
ghost use Rattle.cdb_front.specs.Kept.{kept_of};

use arrayvec::ArrayVec;
use std::marker::Model;

/// The bytes of the line that is being read, or none once there are more than a line may have.
#[derive(Debug, Drop)]
pub struct LineMaker {
    bytes: ArrayVec<u8, 4096>,
    is_long: bool,
}

impl Model for LineMaker {
    ghost Value = { Option (List ℕ) };

    ghost view = { λ m. if m.is_long then None else Some m.bytes.items };
}

impl LineMaker {
    pub fn new() -> LineMaker
        ensures { result ≡ Some [] }
    {
        LineMaker {
            bytes: ArrayVec::new(),
            is_long: false,
        }
    }

    /// Takes one byte more of the line.
    pub fn push(&mut self, byte: u8)
        ensures { (line : List ℕ) → self.old ≡ kept_of line → self.new ≡ kept_of (line ++ byte ∷ []) }
    {
        if self.bytes.is_full() {
            self.is_long = true;
        } else {
            self.bytes.push(byte);
        }
    }

    /// Begins the next line.
    pub fn clear(&mut self)
        ensures { self.new ≡ Some [] }
    {
        self.bytes.clear();
        self.is_long = false;
    }

    /// The line, or none where it is too long.
    pub fn line(&self) -> Option<&[u8]>
        ensures { option_map (λ line. line.now) result ≡ self.now }
    {
        if self.is_long {
            return None;
        }
        Some(self.bytes.as_slice())
    }
}
