//! The lines of star comments: `/* */` comments whose lines but the first all begin with a star, behind spaces and tabs.

ghost use Rattle.json5_tidy.specs.Lexemes.{IsNextLine};

use crate::layout::blanks::line_end_len;
use crate::layout::lexemes::{line_end_after, part_of};

/// Whether it is a star comment.
pub(crate) fn is_star_comment(comment: &[u8]) -> bool {
    let mut at = 0;
    loop {
        let (_, solid) = next_line(comment, at);
        if solid >= comment.len() {
            return true;
        }
        if comment[solid] != b'*' {
            return false;
        }
        at = solid;
    }
}

/// Where the next line begins, and where the blanks in front of it end; the comment's end twice if there is none.
pub(crate) fn next_line(comment: &[u8], from: usize) -> (usize, usize)
    ensures { IsNextLine comment.now from result.0 result.1 }
{
    let end = line_end_after(comment, from);
    if end >= comment.len() {
        return (end, end);
    }
    let line = end + line_end_len(comment, end).max(1);
    let rest = part_of(comment, line, comment.len());
    let solid = rest.iter().position(|byte| !matches!(*byte, b' ' | b'\t'));
    (line, line + solid.unwrap_or(rest.len()))
}

/// What stands before the end of the text on its last line.
pub(crate) fn last_line(text: &[u8]) -> &[u8] {
    match text.iter().rposition(|byte| matches!(*byte, b'\n' | b'\r')) {
        Some(index) => &text[index + 1..],
        None => text,
    }
}
