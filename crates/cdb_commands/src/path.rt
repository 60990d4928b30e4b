ghost use Rattle.std.specs.Prelude.{◌≡◌, option_map};
ghost use Rattle.std.specs.Char.{is_ascii_graphic};
ghost use Rattle.std.specs.List.{list_all, slice_split};
ghost use Rattle.cdb_model.specs.Grammar.{path_word, file_name, is_path_byte, is_part, is_slash};

use crate::fraction::cut_at_slash;
use arrayvec::ArrayString;

/// How many bytes a path or a file name has at most.
const MOST_BYTES: usize = 128;

/// Letters, digits, `_`, `-` and `.`.
fn may_stand_in_path(byte: u8) -> bool
    ensures { result ≡ is_path_byte byte }
{
    byte.is_ascii_alphanumeric() || byte == b'_' || byte == b'-' || byte == b'.'
}

fn all_path_bytes(part: &[u8]) -> bool
    ensures { result ≡ list_all is_path_byte part.now }
{
    part.iter().all(|byte| may_stand_in_path(*byte))
}

fn is_path_part(part: &[u8]) -> bool
    ensures { result ≡ is_part part.now }
{
    !part.is_empty() && all_path_bytes(part) && part != b".".as_slice() && part != b"..".as_slice()
}

/// Whether each part between slashes is one of a path.
#[tactic(auto, using(crate::proofs::PathLemmas::parts))]
fn all_parts(word: &[u8]) -> bool
    ensures { result ≡ list_all is_part (slice_split is_slash word.now) }
{
    let mut left = Some(word);
    while let Some(text) = left {
        let (part, rest) = cut_at_slash(text);
        if !is_path_part(part) {
            return false;
        }
        left = rest;
    }
    true
}

/// The path of a file of the shelf: 1 to 128 bytes, in parts of letters, digits, `_`, `-` and `.`
/// with a slash between each two, of which none is empty, `.` or `..`.
#[tactic(auto, unfolding(cdb_model::specs::Grammar::path_word))]
pub fn read_path(word: &[u8]) -> Option<ArrayString<128>>
    ensures { option_map (λ p. p.bytes) result ≡ path_word word.now }
{
    if word.len() > MOST_BYTES || !all_parts(word) {
        return None;
    }
    let Ok(text) = str::from_utf8(word) else {
        unreachable!();
    };
    let mut path = ArrayString::new();
    path.push_str(text);
    Some(path)
}

fn all_visible(word: &[u8]) -> bool
    ensures { result ≡ list_all is_ascii_graphic word.now }
{
    word.iter().all(|byte| byte.is_ascii_graphic())
}

/// A file name: 1 to 128 visible bytes.
#[tactic(auto, unfolding(cdb_model::specs::Grammar::file_name))]
pub fn read_file_name(word: &[u8]) -> Option<&[u8]>
    ensures { option_map (λ name. name.now) result ≡ file_name word.now }
{
    if word.is_empty() || word.len() > MOST_BYTES || !all_visible(word) {
        return None;
    }
    Some(word)
}
