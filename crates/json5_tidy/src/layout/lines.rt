//! The ends of lines.

ghost use Rattle.std.specs.Prelude.{◌≤◌, length};

use crate::layout::lexemes::{lexeme_at, part_of};
use memchr::memchr;

/// Whether the first line end between lexemes is CR LF.
pub(crate) fn has_crlf(bytes: &[u8]) -> bool {
    memchr(b'\r', bytes).is_some() && begins_with_crlf(bytes)
}

/// The same, lexeme by lexeme.
fn begins_with_crlf(bytes: &[u8]) -> bool {
    let mut at = 0;
    loop {
        let lexeme = lexeme_at(bytes, at);
        if lexeme.lines > 0 {
            return begins_crlf(part_of(bytes, at, lexeme.start));
        }
        if lexeme.is_end() {
            return false;
        }
        at = lexeme.end;
    }
}

/// Whether the first LF or CR of these blanks is followed by LF.
fn begins_crlf(blanks: &[u8]) -> bool {
    match blanks
        .iter()
        .position(|byte| *byte == b'\n' || *byte == b'\r')
    {
        Some(index) => blanks[index] == b'\r'
            && index + 1 < blanks.len()
            && blanks[index + 1] == b'\n',
        None => false,
    }
}

/// Where the last line of the text begins, after an LF.
pub(crate) fn line_start(text: &[u8]) -> usize
    ensures { result ≤ length text.now }
{
    let mut start = text.len();
    while start > 0 {
        if text[start - 1] == b'\n' {
            return start;
        }
        start -= 1;
    }
    start
}
