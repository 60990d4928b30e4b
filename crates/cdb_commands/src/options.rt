//! The options of the program, by their words.
ghost use Rattle.std.specs.Prelude.{◌≡◌, ◌≤◌, None, Some, map, IfOk, IfErr, IfSome, option_map};
ghost use Rattle.cdb_commands.specs.Options.{chosen, mode_of, option_number, options_of};

use crate::given::{Given, read_uses};
use crate::numbers::read_digits;
use crate::words_error::WordsError;
use std::alloc::Global;

/// How many steps follow a line at most.
const MOST_STEPS: u64 = 64;

/// How many publications are made at most.
const MOST_PUBLICATIONS: u64 = 64;

/// What the program does.
#[derive(Clone, Copy, Debug, PartialEq, Eq)]
pub enum Mode {
    /// It answers the lines of a script.
    Run,
    /// It publishes sources that it makes.
    Generate,
    /// It holds the files of a store against its records and sources.
    Check,
}

/// The options of the program: its mode, how many steps of a publication follow a line that didn't
/// ask for them (0 to 64), and of the sources that it makes the number that they begin with and how
/// many publications they are (1 to 64).
#[derive(Clone, Copy, Debug, PartialEq, Eq)]
pub struct Options {
    pub mode: Mode,
    pub background: u8,
    pub start: u32,
    pub count: u8,
}

fn mode_in(text: Option<&str>) -> Option<Mode>
    ensures { result ≡ mode_of (option_map (λ s. s.now) text.entry) }
{
    let Some(text) = text else {
        return Some(Mode::Run);
    };
    if text == "run" {
        return Some(Mode::Run);
    }
    if text == "generate" {
        return Some(Mode::Generate);
    }
    if text == "check" {
        return Some(Mode::Check);
    }
    None
}

/// The number of 1 to 10 digits that a text spells, where it lies in this range; without a text the
/// option's own value.
fn number_in(text: Option<&str>, least: u64, most: u64, default: u64) -> Option<u64>
    requires { default ≤ most }
    ensures value { result ≡ option_number least most default (option_map (λ s. s.now) text.entry) }
    ensures small { IfSome result (λ n. n ≤ most) }
{
    let Some(text) = text else {
        return Some(default);
    };
    let number = read_digits(text.as_bytes(), 10)?;
    if least <= number && number <= most {
        Some(number)
    } else {
        None
    }
}

fn options_in(given: &Given) -> Option<Options>
    ensures { let text = option_map (λ s. s.now) in
        result ≡ chosen (mode_of (text given.now.mode)) (option_number 0 64 1 (text given.now.background))
        (option_number 0 4294967295 1 (text given.now.start)) (option_number 1 64 4 (text given.now.count)) }
{
    let mode = mode_in(given.mode)?;
    let background = number_in(given.background, 0, MOST_STEPS, 1)?;
    let start = number_in(given.start, 0, u32::MAX as u64, 1)?;
    let count = number_in(given.count, 1, MOST_PUBLICATIONS, 4)?;
    Some(Options {
        mode,
        background: background as u8,
        start: start as u32,
        count: count as u8,
    })
}

/// The options that the words give; they don't hold the program's name. An option is `--name` with
/// its value as the next word, or `--name=value`, each at most once and in any order; one that isn't
/// given has its own value: `run`, 1, 1 and 4.
///
/// `WordsError::Usage` exactly where the words aren't of this grammar, and `WordsError::Memory` where
/// memory was refused.
pub fn read_words(alloc: Global, words: &[&str]) -> Result<Options, WordsError>
    ensures ok { IfOk result (λ options. options_of (map (λ s. s.now) words.now) ≡ Some options) }
    ensures usage { IfErr result (λ e. e ≡ WordsError.Usage → options_of (map (λ s. s.now) words.now) ≡ None) }
{
    let given = read_uses(alloc, words)?;
    match options_in(&given) {
        Some(options) => Ok(options),
        None => Err(WordsError::Usage),
    }
}
