//! How many columns of a terminal characters take.
//!
//! Plain code, of which no promise is made but that it is safe and ends: change it by the rows of reports, which judge it.

use unicode_width::UnicodeWidthChar;

/// How many columns a tab takes.
const TAB: usize = 4;

/// Whether the character shows in a terminal: a control character or one without a width doesn't.
pub(crate) fn is_seen(c: char) -> bool {
    c != ' ' && matches!(c.width(), Some(1..))
}

/// How many columns the character takes. A tab takes four, and a control character, shown by another, takes one.
pub(crate) fn width_of(c: char) -> usize {
    match c.width() {
        Some(width) => width,
        None if c == '\t' => TAB,
        None => 1,
    }
}

/// How many columns the text takes.
pub(crate) fn text_width(text: &str) -> usize {
    let mut width: usize = 0;
    for c in text.chars() {
        width = width.saturating_add(width_of(c));
    }
    width
}
