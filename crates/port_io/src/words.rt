//! The words of the command line.

use std::alloc::{AllocError, Global};
use std::env;
use std::env::{Env, FillError};
use std::io::ErrorKind;

/// The most bytes that are taken of a word that is no UTF-8.
const LONGEST_WORD: usize = 4_096;

/// The words of a command line of which some word is no UTF-8. In such a word U+FFFD stands for what is none, so that no form has it.
fn lossy_words(rt: &impl Env, alloc: Global) -> Result<Vec<String>, AllocError> {
    let mut words = Vec::new(alloc);
    let mut buffer = [0u8; LONGEST_WORD];
    for i in 1..usize::MAX {
        let word = match rt.arg(i, &mut buffer) {
            Ok(count) => String::from_utf8_lossy(alloc, &buffer[..count])?,
            Err(FillError::TooLong) => String::from_str(alloc, "\u{fffd}")?,
            Err(FillError::NotPresent) => break,
        };
        words.push(word)?;
    }
    Ok(words)
}

/// The words of the command line after the program's name. In a word that is no UTF-8 U+FFFD stands for what is none.
///
/// # Errors
///
/// There was no memory for them.
pub fn command_words(rt: &HostRuntime) -> Result<Vec<String>, AllocError> {
    let args = match env::args(rt) {
        Ok(args) => args,
        Err(error) if error.kind() == ErrorKind::InvalidData => {
            return lossy_words(rt, rt.alloc());
        }
        Err(_) => return Err(AllocError),
    };
    let mut words = Vec::new(rt.alloc());
    for word in args.skip(1) {
        words.push(word)?;
    }
    Ok(words)
}
