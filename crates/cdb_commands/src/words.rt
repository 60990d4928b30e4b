ghost use Rattle.std.specs.Prelude.{◌≡◌, ◌≤◌, ◌==◌, length, ◌∷◌, option_map, option_copied};
ghost use Rattle.std.specs.List.{position_or_len};
ghost use Rattle.cdb_model.specs.Words.{words, first_word, only_word};
ghost use Rattle.cdb_commands.specs.Left.{left};

/// What is left of a line: its next words, separated by single spaces, or none.
#[derive(Clone, Copy)]
pub struct Words<'a> {
    pub rest: Option<&'a [u8]>,
}

impl<'a> Words<'a> {
    /// The words of a line. A line of no byte has one word, which is empty.
    pub fn of(line: &'a [u8]) -> Words<'a>
        ensures { left result ≡ words line.now }
    {
        Words { rest: Some(line) }
    }

    /// The next word, and the words after it. `None` exactly where no word is left.
    pub fn next(self) -> Option<(&'a [u8], Words<'a>)>
        ensures { option_map (λ p. (p.0.now, left p.1)) result ≡ first_word (left self.entry) }
    {
        match self.rest {
            Some(text) => Some(split_word(text)),
            None => None,
        }
    }

    /// The next word, where it is the only one that is left.
    pub fn only(self) -> Option<&'a [u8]>
        ensures { option_copied result ≡ only_word Some (left self.entry) }
    {
        let (word, rest) = self.next()?;
        match rest.next() {
            Some(_) => None,
            None => Some(word),
        }
    }
}

/// Where a byte stands first in a text, or the text's length.
pub fn place_of(text: &[u8], byte: u8) -> usize
    ensures first { result ≡ position_or_len (λ c. c == byte) text.now }
    ensures within { result ≤ length text.now }
{
    for (i, found) in text.iter().enumerate() {
        if *found == byte {
            return i;
        }
    }
    text.len()
}

/// The first word of a text, and the words after it.
#[tactic(auto, using(crate::proofs::Parts::words_parts))]
fn split_word(text: &[u8]) -> (&[u8], Words<'_>)
    ensures { words text.now ≡ result.0.now ∷ left result.1 }
{
    let end = place_of(text, b' ');
    if end < text.len() {
        let word = text.split_at(end).0;
        let rest = text.split_at(end + 1).1;
        (word, Words { rest: Some(rest) })
    } else {
        (text, Words { rest: None })
    }
}
