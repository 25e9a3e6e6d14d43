//! Lines and their indentation.

use crate::gaps::between;
use json5_tokens::char::is_json5_line_terminator;

/// Where the line begins on which this offset stands.
pub(crate) fn line_start(text: &str, at: usize) -> usize {
    for (offset, c) in between(text, 0, at).char_indices().rev() {
        if is_json5_line_terminator(c) {
            return offset.saturating_add(c.len_utf8());
        }
    }
    0
}

/// Returns the blanks at the beginning of the line on which this offset stands.
///
/// ```text
/// indentation("{\n  a: 1 }", 7)    // two blanks
/// ```
pub fn indentation(text: &str, at: usize) -> &str {
    let line = between(text, line_start(text, at), text.len());
    for (offset, c) in line.char_indices() {
        if !matches!(c, ' ' | '\t') {
            return between(line, 0, offset);
        }
    }
    line
}

/// Where the next line begins, if the one at this offset is empty; else this offset.
pub(crate) fn after_empty_line(text: &str, at: usize) -> usize {
    for (offset, c) in between(text, at, text.len()).char_indices() {
        if is_json5_line_terminator(c) {
            let end = line_end_at(text, at.saturating_add(offset), c);
            return at.saturating_add(offset).saturating_add(end.len());
        }
        if !matches!(c, ' ' | '\t') {
            return at;
        }
    }
    at
}

/// Returns the line end that the text has first, of LF, CR and both, or else LF. The line ends that a string may hold are
/// none of these.
///
/// ```text
/// line_end("[\r\n]")    // CR and LF
/// ```
pub fn line_end(text: &str) -> &str {
    for (offset, c) in text.char_indices() {
        if matches!(c, '\n' | '\r') {
            return line_end_at(text, offset, c);
        }
    }
    "\n"
}

/// Whether the text has more than one line.
pub(crate) fn has_lines(text: &str) -> bool {
    text.contains('\n') || text.contains('\r')
}

/// The line end at this offset.
fn line_end_at(text: &str, at: usize, c: char) -> &str {
    match c {
        '\u{2028}' => return "\u{2028}",
        '\u{2029}' => return "\u{2029}",
        '\r' => {}
        _ => return "\n",
    }
    if between(text, at, text.len()).starts_with("\r\n") {
        "\r\n"
    } else {
        "\r"
    }
}
