//! What is said of a word that the program doesn't know.
//!
//! Plain code, of which no promise is made but that it is safe and ends: change it by the runs of
//! tools/tidy_against_the_system.

use crate::options::{Flag, Setting, is_dashed, is_end};
use crate::work::FileWork;
use std::alloc::{AllocError, Global};
use strsim::osa_distance;

/// The words that are known.
const KNOWN: [&str; 16] = [
    "check",
    "diff",
    "print",
    "write",
    "style",
    "--indent",
    "--width",
    "--last-commas",
    "--no-last-comma",
    "--keep-stars",
    "--ext",
    "--exclude",
    "--stdin-name",
    "--quiet",
    "--help",
    "--version",
];

/// A line that names the first word that isn't known, and the known one that is nearest to it; nothing if each is known, or
/// without memory.
pub(crate) fn hint(alloc: Global, list: &[String]) -> String {
    match hint_line(alloc, list) {
        Ok(line) => line,
        Err(_) => String::new(alloc),
    }
}

fn hint_line(alloc: Global, list: &[String]) -> Result<String, AllocError> {
    let Some(word) = unknown_word(list) else {
        return Ok(String::new(alloc));
    };
    match near_word(alloc, word)? {
        Some(near) => format!(in alloc; "json5_tidy: {word} is not known, {near} is\n"),
        None => format!(in alloc; "json5_tidy: {word} is not known\n"),
    }
}

/// The first word that is no option, and should be one or is no work.
fn unknown_word(list: &[String]) -> Option<&str> {
    let mut is_value = false;
    let mut has_work = false;
    for word in list {
        let word = word.as_str();
        if is_value {
            is_value = false;
        } else if is_end(word) {
            return None;
        } else if !is_dashed(word) {
            if !has_work && FileWork::named(word).is_none() {
                return Some(word);
            }
            has_work = true;
        } else if Setting::named(word).is_some() {
            is_value = true;
        } else if Flag::named(word).is_none() && Setting::joined(word).is_none() {
            return Some(word);
        }
    }
    None
}

/// The known word that is nearest to this one, if few letters differ.
fn near_word(alloc: Global, word: &str) -> Result<Option<&'static str>, AllocError> {
    let mut least = word.len() / 3 + 1;
    let mut near = None;
    for known in KNOWN {
        let distance = osa_distance(alloc, word, known)?;
        if distance < least || distance == least && near.is_none() {
            least = distance;
            near = Some(known);
        }
    }
    Ok(near)
}
