use crate::std_input::StdInput;
use crate::std_output::StdOutput;
use crate::words::{texts, words_of};
use cdb_front::{Failed, Input, Output, Status};
use std::env::{Env, FillError};
use std::io;
use std::io::{ErrorKind, Read, Write};
use std::test::Fail;

/// A program's own name and its words.
#[derive(Drop)]
struct Given(&'static [&'static [u8]]);

impl Env for Given {
    fn arg(&self, i: usize, buf: &mut [u8]) -> Result<usize, FillError> {
        let word = self.0.get(i).ok_or(FillError::NotPresent)?;
        match buf.get_mut(..word.len()) {
            Some(into) => into.copy_from_slice(word),
            None => return Err(FillError::TooLong),
        }
        Ok(word.len())
    }

    fn var(&self, _name: &str, _buf: &mut [u8]) -> Result<usize, FillError> {
        Err(FillError::NotPresent)
    }

    fn var_at(&self, _i: usize, _buf: &mut [u8]) -> Result<usize, FillError> {
        Err(FillError::NotPresent)
    }
}

/// The program's own name, which isn't text here, and its words.
static GIVEN: [&[u8]; 5] = [b"\xFF", b"--mode", b"\xC3\xA9", b"", &[b'x'; 300]];

/// A word that isn't text.
static BROKEN: [&[u8]; 3] = [b"cdb", b"--mode", b"\xC3"];

#[test]
fn words_are_texts(rt: HostRuntime) -> Result<(), Fail> {
    let words = words_of(&(Given(&GIVEN), rt.alloc())).map_err(|_| "words")?;
    let words = texts(rt.alloc(), words.as_slice())?;
    let lengths = words.iter().map(|word| word.len());
    assert!(rt; lengths.eq([6usize, 2, 0, 300]));
    assert!(rt; words.first() == Some(&"--mode"));
    assert!(rt; words_of(&(Given(&BROKEN), rt.alloc())).err() == Some(Status::Usage));
    Ok(())
}

/// A device that takes and gives so many bytes, or fails, and flushes or fails.
#[derive(Drop)]
struct Device {
    count: Option<usize>,
    flushes: bool,
}

impl Read for Device {
    fn read(&mut self, into: &mut [u8]) -> io::Result<usize> {
        match self.count {
            Some(count) => Ok(count.min(into.len())),
            None => Err(io::Error::from(ErrorKind::Other)),
        }
    }
}

impl Write for Device {
    fn write(&mut self, piece: &[u8]) -> io::Result<usize> {
        match self.count {
            Some(count) => Ok(count.min(piece.len())),
            None => Err(io::Error::from(ErrorKind::Other)),
        }
    }

    fn flush(&mut self) -> io::Result<()> {
        match self.flushes {
            true => Ok(()),
            false => Err(io::Error::from(ErrorKind::Other)),
        }
    }
}

/// What a read of five bytes and a write of five bytes answer.
fn answers(count: Option<usize>, flushes: bool) -> (Result<usize, Failed>, Result<usize, Failed>) {
    let mut into = [0; 5];
    let read = StdInput::new(Device { count, flushes }).read(&mut into);
    let written = StdOutput::new(Device { count, flushes }).write(b"tiles");
    (read, written)
}

#[test]
fn devices_answer_or_fail(rt: HostRuntime) {
    assert!(rt; answers(Some(5), true) == (Ok(5), Ok(5)));
    assert!(rt; answers(Some(3), true) == (Ok(3), Ok(3)));
    assert!(rt; answers(Some(3), false) == (Ok(3), Err(Failed)));
    assert!(rt; answers(Some(0), true) == (Ok(0), Err(Failed)));
    assert!(rt; answers(None, true) == (Err(Failed), Err(Failed)));
}
