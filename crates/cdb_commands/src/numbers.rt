ghost use Rattle.std.specs.Prelude.{◌≡◌, true, ℤ, pos, negsuc, neg_ℤ, ◌^◌, ◌<◌, ◌≤◌, ◌≤ℤ◌, length, IfSome};
ghost use Rattle.std.specs.Char.{is_ascii_digit};
ghost use Rattle.std.specs.List.{list_all};
ghost use Rattle.std.specs.Str.Parse.{digits_value};
ghost use Rattle.cdb_model.specs.Words.{digits, signed};

fn all_digits(word: &[u8]) -> bool
    ensures { result ≡ list_all is_ascii_digit word.now }
{
    word.iter().all(|byte| byte.is_ascii_digit())
}

/// The number that digits write, of which there are at most 18.
fn value(word: &[u8]) -> u64
    requires digits { list_all is_ascii_digit word.now ≡ true }
    requires some { 0 < length word.now }
    requires few { length word.now ≤ 18 }
    ensures { result ≡ digits_value 10 word.now }
{
    let Ok(text) = str::from_utf8(word) else {
        unreachable!();
    };
    match text.parse::<u64>() {
        Ok(value) => value,
        Err(_) => unreachable!(),
    }
}

/// A number of 1 to `most` digits, where `most` is at most 18.
#[tactic(auto, unfolding(cdb_model::specs::Words::digits), using(crate::proofs::Digits::short_values))]
pub fn read_digits(word: &[u8], most: usize) -> Option<u64>
    requires { most ≤ 18 }
    ensures value { result ≡ digits most word.now }
    ensures small { IfSome result (λ n. n < 10 ^ 18) }
    ensures nine { most ≤ 9 → IfSome result (λ n. n < 10 ^ 9) }
{
    if word.is_empty() || word.len() > most || !all_digits(word) {
        return None;
    }
    Some(value(word))
}

pub fn as_signed(n: u64) -> i64
    requires { n < 10 ^ 18 }
    ensures { result ≡ pos n }
{
    n as i64
}

fn negate(n: u64) -> i64
    requires { n < 10 ^ 18 }
    ensures { result ≡ neg_ℤ (pos n) }
{
    -(n as i64)
}

/// An optional minus and 1 to `most` digits, where `most` is at most 18.
#[tactic(auto, unfolding(cdb_model::specs::Words::signed))]
pub fn read_signed(word: &[u8], most: usize) -> Option<i64>
    requires { most ≤ 18 }
    ensures value { result ≡ signed most word.now }
    ensures low { most ≤ 9 → IfSome result (λ z. negsuc 999999998 ≤ℤ z) }
    ensures high { most ≤ 9 → IfSome result (λ z. z ≤ℤ pos 999999999) }
{
    let (first, rest) = word.split_first()?;
    if *first == b'-' {
        Some(negate(read_digits(rest, most)?))
    } else {
        Some(as_signed(read_digits(word, most)?))
    }
}

/// A number of 1 to 9 digits.
pub fn read_count(word: &[u8]) -> Option<u32>
    ensures { result ≡ digits 9 word.now }
{
    let count = read_digits(word, 9)?;
    Some(count as u32)
}

/// An optional minus and 1 to `most` digits, where `most` is at most 9.
pub fn read_small(word: &[u8], most: usize) -> Option<i32>
    requires { most ≤ 9 }
    ensures { result ≡ signed most word.now }
{
    let number = read_signed(word, most)?;
    Some(number as i32)
}
