//! Option words, and what they give.

use cdb_commands::{Options, WordsError, read_words};
use std::alloc::{AllocError, Global};
use std::test::Fail;

/// Option words, and the options that they give as one line, or why they give none.
static WORDS: [(&[&str], &str); 46] = [
    // no words, each option by itself, and all in another order
    (&[], "Run 1 1 4"),
    (&["--mode", "run"], "Run 1 1 4"),
    (&["--mode", "generate"], "Generate 1 1 4"),
    (&["--mode=check"], "Check 1 1 4"),
    (&["--background", "0"], "Run 0 1 4"),
    (&["--background=64"], "Run 64 1 4"),
    (&["--start", "0"], "Run 1 0 4"),
    (&["--start=4294967295"], "Run 1 4294967295 4"),
    (&["--count", "64"], "Run 1 1 64"),
    (
        &[
            "--count=7",
            "--start",
            "9",
            "--background=2",
            "--mode",
            "check",
        ],
        "Check 2 9 7",
    ),
    // numbers of 10 digits and of 11
    (&["--start", "0000000007"], "Run 1 7 4"),
    (&["--start", "00000000007"], "usage"),
    (&["--background", "0000000064"], "Run 64 1 4"),
    // numbers out of range, and texts that are none
    (&["--background", "65"], "usage"),
    (&["--start", "4294967296"], "usage"),
    (&["--count", "0"], "usage"),
    (&["--count", "65"], "usage"),
    (&["--background", "+1"], "usage"),
    (&["--background", "-1"], "usage"),
    (&["--background=-1"], "usage"),
    (&["--background", "-"], "usage"),
    (&["--background", "1 "], "usage"),
    (&["--background", "1/1"], "usage"),
    (&["--background="], "usage"),
    (&["--background", ""], "usage"),
    // modes that are none
    (&["--mode", "Run"], "usage"),
    (&["--mode", "fly"], "usage"),
    (&["--mode="], "usage"),
    (&["--mode=run=run"], "usage"),
    // an option without its value, given twice, cut short or too long
    (&["--mode"], "usage"),
    (&["--mode", "--count", "7"], "usage"),
    (&["--mode", "run", "--mode", "run"], "usage"),
    (&["--count=7", "--count=7"], "usage"),
    (&["--mod", "run"], "usage"),
    (&["--modes", "run"], "usage"),
    (&["--Mode", "run"], "usage"),
    // other words
    (&["run"], "usage"),
    (&[""], "usage"),
    (&["--mode", "run", "more"], "usage"),
    (&["-m", "run"], "usage"),
    (&["--"], "usage"),
    (&["--mode", "run", "--"], "usage"),
    (&["--mode", "--", "run"], "usage"),
    (&["--help"], "usage"),
    (&["-h"], "usage"),
    (&["--version"], "usage"),
];

/// What words give, as one line.
fn tell(alloc: Global, words: &[&str]) -> Result<String, AllocError> {
    match read_words(alloc, words) {
        Ok(
            Options {
                mode,
                background,
                start,
                count,
            },
        ) => format!(in alloc; "{:?} {} {} {}", mode, background, start, count),
        Err(WordsError::Usage) => format!(in alloc; "usage"),
        Err(WordsError::Memory) => format!(in alloc; "memory"),
    }
}

#[test]
fn option_words(rt: HostRuntime) -> Result<(), Fail> {
    for (words, want) in WORDS.iter() {
        let got = tell(rt.alloc(), words)?;
        assert_eq!(rt; got.as_str(), *want);
    }
    Ok(())
}
