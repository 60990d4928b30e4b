//! Numbers in decimal digits.
ghost use Rattle.std.specs.Prelude.{◌≡◌, ◌+◌, ◌<◌, ◌≤◌, ◌^◌, length, option_map, IfSome, SomeIff, true};
ghost use Rattle.std.specs.Str.{all_ascii_digits};
ghost use Rattle.std.specs.Str.Parse.{digits_value};
ghost use Rattle.cdb_names.specs.Fields.{two_of, two_at, three_at, bounded_number, bounded_number_at, digits_len};

fn two_digits(a: u8, b: u8) -> Option<u8>
    ensures value { result ≡ two_of a b }
    ensures small { IfSome result (λ n. n < 100) }
{
    if a.is_ascii_digit() && b.is_ascii_digit() {
        Some((a - b'0') * 10 + (b - b'0'))
    } else {
        None
    }
}

/// The number of two digits, and what follows them.
pub fn read_two(text: &[u8]) -> Option<(u8, &[u8])>
    ensures read { option_map (λ p. (p.0, p.1.now)) result ≡ two_at text.now }
    ensures near { IfSome result (λ p. length text.now ≡ length p.1.now + 2) }
    ensures small { IfSome result (λ p. p.0 < 100) }
{
    match text {
        [a, b, rest @ ..] => Some((two_digits(*a, *b)?, rest)),
        _ => None,
    }
}

/// The number of three digits, and what follows them.
pub fn read_three(text: &[u8]) -> Option<(u16, &[u8])>
    ensures read { option_map (λ p. (p.0, p.1.now)) result ≡ three_at text.now }
    ensures near { IfSome result (λ p. length text.now ≡ length p.1.now + 3) }
    ensures small { IfSome result (λ p. p.0 < 1000) }
{
    let (first, rest) = text.split_first()?;
    let (low, rest) = read_two(rest)?;
    if !first.is_ascii_digit() {
        return None;
    }
    Some((u16::from(*first - b'0') * 100 + u16::from(low), rest))
}

fn digits_at(text: &[u8]) -> usize
    ensures count { result ≡ digits_len text.now }
    ensures within { result ≤ length text.now }
{
    text.iter().take_while(|b| b.is_ascii_digit()).count()
}

/// The number that these digits write, where it is below `2^32`.
fn value(digits: &[u8]) -> Option<u32>
    requires digits { all_ascii_digits digits.now ≡ true }
    requires some { 0 < length digits.now }
    ensures { SomeIff result (digits_value 10 digits.now < 2 ^ 32) (digits_value 10 digits.now) }
{
    let Ok(text) = str::from_utf8(digits) else {
        unreachable!();
    };
    text.parse::<u32>().ok()
}

/// The number below the limit that these digits write, without a leading zero.
fn number(limit: u32, digits: &[u8]) -> Option<u32>
    requires { all_ascii_digits digits.now ≡ true }
    ensures { result ≡ bounded_number limit digits.now }
{
    if digits.is_empty() || (digits.len() > 1 && digits[0] == b'0') {
        return None;
    }
    let n = value(digits)?;
    if n >= limit {
        return None;
    }
    Some(n)
}

/// The number below the limit that the text begins with, and what follows all its digits.
#[tactic(auto, unfolding(crate::specs::Fields::bounded_number_at))]
pub fn read_number(limit: u32, text: &[u8]) -> Option<(u32, &[u8])>
    ensures read { option_map (λ p. (p.0, p.1.now)) result ≡ bounded_number_at limit text.now }
    ensures near { limit ≤ 10 ^ 7 → IfSome result (λ p. length text.now ≤ length p.1.now + 7) }
    ensures small { IfSome result (λ p. p.0 < limit) }
    ensures shorter { IfSome result (λ p. length p.1.now ≤ length text.now) }
{
    let (digits, rest) = text.split_at(digits_at(text));
    Some((number(limit, digits)?, rest))
}
