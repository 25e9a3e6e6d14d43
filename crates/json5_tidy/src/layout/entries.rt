//! What lies ahead in a collection.

use crate::layout::lexemes::{Kind, Lexeme, after_blanks, kind_and_end, lexeme_at};

/// Whether an element or a member follows before the closing bracket.
pub(crate) fn has_entry(bytes: &[u8], from: usize) -> bool {
    let mut at = from;
    loop {
        let (start, _) = after_blanks(bytes, at);
        if start >= bytes.len() {
            return false;
        }
        match bytes[start] {
            b'/' | b',' => at = kind_and_end(bytes, start).1,
            byte => return !matches!(byte, b']' | b'}'),
        }
    }
}

/// Whether no token but a comma follows on the same line.
pub(crate) fn ends_line(bytes: &[u8], from: usize) -> bool {
    let mut at = from;
    loop {
        let next = lexeme_at(bytes, at);
        if next.lines > 0 || next.is_end() {
            return true;
        }
        match next.kind {
            Kind::Line => return true,
            Kind::Block | Kind::Comma => at = next.end,
            _ => return false,
        }
    }
}

/// What was seen of an array of words.
#[derive(Clone, Copy, Drop)]
struct Words {
    is_begun: bool,
    /// Whether each is a number or null.
    are_numbers: bool,
    /// Whether the next of them is on another line than the last.
    is_apart: bool,
    /// Whether the comma behind the last of them was passed, or is to go before a comment that was.
    has_comma: bool,
    /// Whether two of them were on one line.
    share_lines: bool,
    /// Whether two of them weren't.
    are_over_lines: bool,
}

/// Whether the array whose bracket ends here is laid out in rows: it holds numbers and nulls alone, or words alone that
/// were written in rows, of which one has two. Comments aren't counted.
pub(crate) fn is_in_rows(bytes: &[u8], from: usize) -> bool {
    let mut at = from;
    let mut words = Words {
        is_begun: false,
        are_numbers: true,
        is_apart: false,
        has_comma: false,
        share_lines: false,
        are_over_lines: false,
    };
    loop {
        let next = lexeme_at(bytes, at);
        if next.is_end() {
            return false;
        }
        match next.kind {
            Kind::Close => return words.are_in_rows(),
            Kind::Open | Kind::Colon => return false,
            Kind::Word if next.is_broken => return false,
            Kind::Word => words.take(next.lines, is_number(next.of(bytes))),
            _ => words.pass(next),
        }
        at = next.end;
    }
}

impl Words {
    /// Takes a word after so many line ends.
    #[inline(always)]
    fn take(&mut self, lines: usize, is_number: bool) {
        let is_apart = self.is_apart || lines > 0;
        self.share_lines = self.share_lines || self.is_begun && !is_apart;
        self.are_over_lines = self.are_over_lines || self.is_begun && is_apart;
        self.are_numbers = self.are_numbers && is_number;
        self.is_begun = true;
        self.is_apart = false;
        self.has_comma = false;
    }

    /// Passes a comma or a comment.
    #[inline(always)]
    fn pass(&mut self, next: Lexeme) {
        let starts_line = next.lines > 0;
        match next.kind {
            // Line ends before a comma go.
            Kind::Comma if !self.has_comma => {}
            // It stays before the comma.
            Kind::Block if !self.has_comma && !starts_line => return,
            Kind::Line => self.is_apart = true,
            _ => self.is_apart = self.is_apart || starts_line || next.is_broken,
        }
        self.has_comma = true;
    }

    fn are_in_rows(&self) -> bool {
        self.is_begun && (self.are_numbers || self.share_lines && self.are_over_lines)
    }
}

/// Whether the word, which is no name, is a number or null.
fn is_number(word: &[u8]) -> bool {
    match word.first() {
        Some(b'n') => word == b"null".as_slice(),
        Some(first) => matches!(*first, b'0'..=b'9' | b'+' | b'-' | b'.' | b'I' | b'N'),
        None => false,
    }
}

/// Where the element or the member ends that begins here: after its value.
pub(crate) fn entry_end(bytes: &[u8], from: usize, is_member: bool) -> usize {
    let mut at = from;
    let mut depth: usize = 0;
    let mut is_key = is_member;
    loop {
        let next = lexeme_at(bytes, at);
        if next.is_end() {
            return at;
        }
        at = next.end;
        match next.kind {
            Kind::Open => depth = depth.saturating_add(1),
            Kind::Close => depth = depth.saturating_sub(1),
            Kind::Colon if depth == 0 => is_key = false,
            _ => {}
        }
        if depth == 0 && !is_key && matches!(next.kind, Kind::Word | Kind::Close) {
            return at;
        }
    }
}
