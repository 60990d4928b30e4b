ghost use Rattle.std.specs.Prelude.{◌≡◌, option_map};
ghost use Rattle.cdb_model.specs.Grammar.{posts};
ghost use Rattle.cdb_commands.specs.Left.{left};

use crate::numbers::read_small;
use crate::words::Words;
use arrayvec::ArrayVec;

/// How many posts stand in a line at most.
const MOST_POSTS: usize = 64;

/// The posts of a source: 1 to 64 numbers of at most 6 digits.
pub fn read_posts(words: Words<'_>) -> Option<ArrayVec<i32, 64>>
    ensures { option_map (λ v. v.items) result ≡ posts (left words.entry) }
{
    let mut posts = ArrayVec::new();
    let mut left = words;
    while let Some((word, rest)) = left.next() {
        let Some(post) = read_small(word, 6) else {
            return None;
        };
        if posts.len() == MOST_POSTS {
            return None;
        }
        posts.push(post);
        left = rest;
    }
    if posts.len() == 0 {
        return None;
    }
    Some(posts)
}
