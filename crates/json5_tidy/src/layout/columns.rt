//! How wide texts are.

use std::str::from_utf8;
use unicode_width::UnicodeWidthStr;

/// Whether a character past ASCII is in the text.
pub(crate) fn has_wide(text: &[u8]) -> bool {
    !text.is_ascii()
}

/// How many columns the text takes. What isn't UTF-8 takes one a byte.
pub(crate) fn columns(text: &[u8]) -> usize {
    if !has_wide(text) {
        return text.len();
    }
    match from_utf8(text) {
        Ok(text) => text.width(),
        Err(_) => text.len(),
    }
}

/// How many tabs the line begins with.
pub(crate) fn tabs_in_front(line: &[u8]) -> usize {
    line.iter().take_while(|byte| **byte == b'\t').count()
}
