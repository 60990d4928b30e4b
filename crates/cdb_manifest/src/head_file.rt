//! The file that names the newest version: its number in decimal and a line feed.
ghost use Rattle.std.specs.Prelude.{◌≡◌, ℕ, ◌≤◌, Some, IfSome};
ghost use Rattle.cdb_model.specs.Records.{head_file_text};

use arrayvec::ArrayString;
use cdb_model::MOST_VERSIONS;
use itoa::Buffer;

/// The text of the file for a version: the number without leading zeros, and a line feed.
pub fn write_head(n: u32) -> ArrayString<8>
    requires least { 1 ≤ n }
    requires most { n ≤ MOST_VERSIONS }
    ensures { result.bytes ≡ head_file_text n }
{
    let mut text = ArrayString::new();
    text.push_str(Buffer::new().format(n));
    text.push('\n');
    text
}

/// The version that the file names, or `None` exactly where the bytes aren't those of a version from
/// 1 to 4,096.
pub fn read_head(bytes: &[u8]) -> Option<u32>
    ensures spelled { IfSome result (λ n. bytes.now ≡ head_file_text n) }
    ensures range { IfSome result (λ n. (1 ≤ n) × (n ≤ MOST_VERSIONS)) }
    ensures only { (n : ℕ) → 1 ≤ n → n ≤ MOST_VERSIONS → bytes.now ≡ head_file_text n → result ≡ Some n }
{
    let text = str::from_utf8(bytes).ok()?;
    let n = text.strip_suffix('\n')?.parse::<u32>().ok()?;
    if n < 1 || n > MOST_VERSIONS {
        return None;
    }
    if write_head(n).as_str() != text {
        return None;
    }
    Some(n)
}
