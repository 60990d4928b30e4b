//! The texts that the option words give, read by `clap`.
ghost use Rattle.std.specs.Prelude.{◌≡◌, ◌≢◌, ◌↔◌, [], None, map, IfOk, IfErr};
ghost use Rattle.std.specs.List.{list_all};
ghost use Rattle.clap.specs.Words.{kind_of, fault_of};
ghost use Rattle.cdb_commands.specs.OptionCommand.{options_app};
ghost use Rattle.cdb_commands.specs.Given.{IsGiven, SpellsOptions};
ghost use Rattle.cdb_commands.specs.OptionWords.{is_short, is_word, options_spelled};

use crate::command::command;
use crate::words_error::WordsError;
use clap::Error;
use clap::error::ErrorKind;
use std::alloc::Global;

/// The texts that were given for the options, as they stand in the words.
#[derive(Clone, Copy)]
pub struct Given<'a> {
    pub mode: Option<&'a str>,
    pub background: Option<&'a str>,
    pub start: Option<&'a str>,
    pub count: Option<&'a str>,
}

/// Each fault of a parse is one of usage, but for want of memory.
fn error_of(error: Error) -> WordsError
    ensures { (result ≡ WordsError.Memory) ↔ (kind_of error ≡ ErrorKind.OutOfMemory) }
{
    if error.kind() == ErrorKind::OutOfMemory {
        WordsError::Memory
    } else {
        WordsError::Usage
    }
}

/// What the words give for each option. `Usage` exactly where the command refuses them.
fn read_given<'a>(alloc: Global, words: &'a [&'a str]) -> Result<Given<'a>, WordsError>
    ensures ok { IfOk result (IsGiven (map (λ s. s.now) words.entry.now)) }
    ensures usage { IfErr result
        (λ e. e ≡ WordsError.Usage → fault_of options_app (map (λ s. s.now) words.entry.now) ≢ []) }
{
    let Ok(command) = command(alloc) else {
        return Err(WordsError::Memory);
    };
    match command.try_get_matches_from(words) {
        Ok(matches) => Ok(Given {
            mode: matches.get_str("mode"),
            background: matches.get_str("background"),
            start: matches.get_str("start"),
            count: matches.get_str("count"),
        }),
        Err(error) => Err(error_of(error)),
    }
}

/// One hyphen, and more that begins with no second one.
fn is_short(word: &[u8]) -> bool
    ensures { result ≡ is_short word.now }
{
    match word {
        [b'-', second, ..] => *second != b'-',
        _ => false,
    }
}

/// Neither `--`, which `clap` would take as the end of the options, nor one hyphen and more.
fn is_word(word: &str) -> bool
    ensures { result ≡ is_word word.now }
{
    word != "--" && !is_short(word.as_bytes())
}

fn all_words(words: &[&str]) -> bool
    ensures { result ≡ list_all is_word (map (λ s. s.now) words.now) }
{
    match words {
        [] => true,
        [word, rest @ ..] => is_word(word) && all_words(rest),
    }
}

/// What the words give for each option. `Usage` exactly where they aren't uses of options, each
/// option at most once.
pub fn read_uses<'a>(alloc: Global, words: &'a [&'a str]) -> Result<Given<'a>, WordsError>
    ensures ok { IfOk result (SpellsOptions (map (λ s. s.now) words.entry.now)) }
    ensures usage { IfErr result (λ e. e ≡ WordsError.Usage
        → options_spelled (map (λ s. s.now) words.entry.now) ≡ None) }
{
    if !all_words(words) {
        return Err(WordsError::Usage);
    }
    read_given(alloc, words)
}
