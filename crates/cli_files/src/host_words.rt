//! The words of the command line.

use std::alloc::Global;
use std::env::FillError;
use std::io::ErrorKind;
use std::rt::Env;
use std::{env, io};

/// How long a word may be that isn't UTF-8.
const LONGEST: usize = 128 * 1024;

/// Returns the words after the program's name.
///
/// ```text
/// let list = given_words(&rt)?;
/// ```
///
/// # Errors
///
/// That of the system, where a word isn't UTF-8, and `OutOfMemory` where there is no memory for them.
pub fn given_words(rt: &HostRuntime) -> io::Result<Vec<String>> {
    Ok(env::args(rt)?.skip(1).collect(rt.alloc())?)
}

/// Returns the words after the program's name. In one that isn't UTF-8 U+FFFD stands for what isn't, so that opening a file with
/// this name says so.
///
/// ```text
/// let list = given_names(&rt)?;
/// ```
///
/// # Errors
///
/// That of the system, and `OutOfMemory` where there is no memory for them.
pub fn given_names(rt: &HostRuntime) -> io::Result<Vec<String>> {
    match given_words(rt) {
        Err(e) if e.kind() == ErrorKind::InvalidData => lossy_words(rt, rt.alloc()),
        words => words,
    }
}

fn lossy_words(rt: &HostRuntime, alloc: Global) -> io::Result<Vec<String>> {
    let mut words = Vec::new(alloc);
    let mut room = vec![in alloc; 0; LONGEST]?;
    for index in 1..usize::MAX {
        match rt.arg(index, &mut room) {
            Ok(len) => words.push(String::from_utf8_lossy(alloc, &room[..len])?)?,
            Err(FillError::NotPresent) => break,
            Err(FillError::TooLong) => return Err(io::Error::from(ErrorKind::InvalidData)),
        }
    }
    Ok(words)
}
