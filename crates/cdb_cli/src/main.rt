//! The program `cdb`: a script on standard input, its answers on standard output, the store in the folder
//! `cdb` of the current folder, and source files in the folder `in`.
#![tactic(auto)]

mod std_input;
mod std_output;
#[cfg(test)]
mod tests;
mod words;

use crate::std_input::StdInput;
use crate::std_output::StdOutput;
use crate::words::{texts, words_of};
use cdb_files::Path;
use cdb_front::{Status, cdb_run};
use cdb_osfiles::{OsDisk, OsShelf};
use std::process::ExitCode;

fn main(rt: HostRuntime) -> ExitCode {
    let status = match words_of(&rt) {
        Ok(words) => run(&rt, words.as_slice()),
        Err(status) => status,
    };
    ExitCode::from(status.code())
}

/// Runs the program with these words.
fn run(rt: &HostRuntime, words: &[String]) -> Status {
    let Ok(words) = texts(rt.alloc(), words) else {
        return Status::Memory;
    };
    let mut disk = OsDisk::new(rt, Path::from("cdb").unwrap_or_default());
    let mut shelf = OsShelf::new(rt, Path::from("in").unwrap_or_default());
    let mut input = StdInput::new(rt.stdin());
    let mut output = StdOutput::new(rt.stdout());
    cdb_run(
        rt.alloc(),
        words.as_slice(),
        &mut disk,
        &mut shelf,
        &mut input,
        &mut output,
    )
}
