//! The fields of a record, each read from the front of the bytes that are left.
ghost use Rattle.std.specs.Prelude.{◌≡◌, ◌≤◌, ◌++◌, ℕ, List, length, MatchOption};
ghost use Rattle.cdb_source.specs.Texts as source_texts;
ghost use Rattle.cdb_source.specs.declared.head.SourceHead as heads;
ghost use Rattle.cdb_model.specs.Records.{record_first_bytes};
ghost use Rattle.cdb_manifest.specs.Decoding.{IsNumberField};

use crate::encoding::FIRST_BYTES;
use cdb_source::{SOURCE_FRONT_BYTES, SourceHead, decode_head};

/// What follows the first bytes.
pub(crate) fn after_first(bytes: &[u8]) -> Option<&[u8]>
    ensures { MatchOption result ((after : List ℕ) → bytes.now ≡ record_first_bytes ++ after → ⊥)
        (λ rest. bytes.now ≡ record_first_bytes ++ rest.now) }
{
    if !bytes.starts_with(&FIRST_BYTES) {
        return None;
    }
    Some(bytes.split_at(8).1)
}

/// A number from `least` to `most`, and what follows it.
pub(crate) fn number_at(bytes: &[u8], least: u32, most: u32) -> Option<(u32, &[u8])>
    ensures { MatchOption result ((text after : List ℕ) → IsNumberField least most text → bytes.now ≡ text ++ after → ⊥)
        (λ p. (least ≤ p.0) × (p.0 ≤ most) × (bytes.now ≡ source_texts.count_bytes p.0 ++ p.1.now)) }
{
    let four = bytes.first_chunk::<4>()?;
    let number = u32::from_be_bytes(*four);
    if number < least || number > most {
        return None;
    }
    Some((number, bytes.split_at(4).1))
}

/// The text of a head as it stands in a source file.
fn front_of(text: &[u8]) -> [u8; SOURCE_FRONT_BYTES]
    requires { length text.now ≡ 44 }
    ensures { result ≡ source_texts.source_first_bytes ++ text.now }
{
    let mut front = [0; SOURCE_FRONT_BYTES];
    let (first, rest) = front.split_at_mut(8);
    first.copy_from_slice(&cdb_source::FIRST_BYTES);
    rest.copy_from_slice(text);
    front
}

/// The head of a source, and what follows it.
pub(crate) fn head_at(bytes: &[u8]) -> Option<(SourceHead, &[u8])>
    ensures { MatchOption result ((head : heads.SourceHead) (after : List ℕ)
        → bytes.now ≡ source_texts.head_text head ++ after → ⊥)
        (λ p. bytes.now ≡ source_texts.head_text p.0 ++ p.1.now) }
{
    if bytes.len() < 44 {
        return None;
    }
    let (text, rest) = bytes.split_at(44);
    let head = decode_head(&front_of(text))?;
    Some((head, rest))
}
