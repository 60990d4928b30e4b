ghost use Rattle.std.specs.Prelude.{◌≡◌, ℤ, List};

use std::marker::Model;

/// The posts of a source, south row first, each row from west to east.
#[derive(Debug, Drop)]
pub struct Posts {
    items: Vec<i16>,
}

impl Model for Posts {
    ghost Value = { List ℤ };

    ghost view = { λ posts. posts.items.items };
}

impl Posts {
    /// The posts, south row first, each row from west to east.
    pub fn as_slice(&self) -> &[i16]
        ensures { result.now ≡ self.now }
    {
        self.items.as_slice()
    }

    /// Gives the posts back without taking memory.
    pub fn into_vec(self) -> Vec<i16>
        ensures { result.items ≡ self }
    {
        self.items
    }
}

impl From<Vec<i16>> for Posts {
    ghost from_gives = { λ items posts. posts ≡ items.items };

    fn from(items: Vec<i16>) -> Posts {
        Posts { items }
    }
}
