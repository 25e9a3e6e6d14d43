//! Lists of strings that differ.

use crate::answers::Answer;
use json5::from_str;
use std::alloc::Global;
use test_own_types::Labels;

/// The strings that are read, each in quotes.
pub fn answer(alloc: Global, text: &str) -> Answer {
    let labels = from_str::<Labels>(alloc, text)?;
    let mut line = String::new(alloc);
    for label in &labels.texts {
        if !line.is_empty() {
            line.push(' ')?;
        }
        write!(line, "'{label}'")?;
    }
    Ok(line)
}
