//! The words with which the program was started.

use cdb_front::Status;
use std::alloc::{AllocError, Global};
use std::env::{Env, FillError};

/// The words behind the program's own name, which need not be text. `Memory` where memory for one is
/// refused, and `Usage` where one isn't text, whichever comes first.
pub fn words_of<R: Env + AllocGlobal>(rt: &R) -> Result<Vec<String>, Status> {
    let mut words = Vec::new(rt.alloc());
    for place in 1..usize::MAX {
        let Some(bytes) = word_at(rt, place)? else {
            break;
        };
        let word = String::from_utf8(bytes).map_err(|_| Status::Usage)?;
        words.push(word).map_err(|_| Status::Memory)?;
    }
    Ok(words)
}

/// The bytes of the word at this place, if there is one.
fn word_at<R: Env + AllocGlobal>(rt: &R, place: usize) -> Result<Option<Vec<u8>>, Status> {
    let mut room = 256usize;
    for _ in 0..usize::BITS {
        let mut bytes = vec![in rt.alloc(); 0u8; room].map_err(|_| Status::Memory)?;
        match rt.arg(place, bytes.as_mut_slice()) {
            Ok(length) => {
                bytes.truncate(length);
                return Ok(Some(bytes));
            }
            Err(FillError::NotPresent) => return Ok(None),
            Err(FillError::TooLong) => room = room.saturating_mul(2),
        }
    }
    Err(Status::Memory)
}

/// The words as texts that are lent.
pub fn texts(alloc: Global, words: &[String]) -> Result<Vec<&str>, AllocError> {
    let mut texts = Vec::new(alloc);
    for word in words {
        texts.push(word.as_str())?;
    }
    Ok(texts)
}
