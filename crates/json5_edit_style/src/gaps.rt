//! The blanks and comments between two tokens, by their lines.

use json5_lexemes::{Piece, Pieces};

/// What is known of a gap. Offsets are in bytes of the text that it stands in.
#[derive(Clone, Copy, Drop)]
pub(crate) struct Gap {
    /// Where the first comment begins, or the gap ends.
    pub(crate) first: usize,
    /// Where the last comment on the first line ends, or the gap begins.
    pub(crate) tail: usize,
    /// Where the first line end begins.
    pub(crate) line_end: Option<usize>,
    /// Where the second line begins.
    pub(crate) next_line: usize,
    /// Where the lines of comments begin that stand right before the gap's end, or else the last line.
    pub(crate) lead: usize,
    /// Where the first comment from `lead` on begins, or the gap ends.
    pub(crate) own: usize,
    /// Where the last line begins.
    pub(crate) last_line: usize,
    /// Where the last comment ends, or the gap begins.
    pub(crate) mark: usize,
}

/// Reads a gap.
#[derive(Drop)]
struct Reader {
    gap: Gap,
    /// Whether a comment stands on the line.
    is_marked: bool,
    /// Whether a comment was met, and whether one was since `lead`.
    has_comment: bool,
    has_own: bool,
    until: usize,
}

impl Gap {
    /// Reads the gap between these offsets.
    pub(crate) fn of(text: &str, from: usize, until: usize) -> Gap {
        let mut reader = Reader::new(from, until);
        let mut pieces = Pieces::new(between(text, from, until));
        let mut start = from;
        for _ in from..until {
            let Some(piece) = pieces.next() else {
                break;
            };
            let end = until.saturating_sub(pieces.as_str().len());
            match piece {
                Piece::Blank => {}
                Piece::LineEnd => reader.end_line(start, end),
                Piece::Line | Piece::Block => reader.pass_comment(start, end),
            }
            start = end;
        }
        reader.gap
    }
}

impl Reader {
    fn new(from: usize, until: usize) -> Reader {
        Reader {
            gap: Gap {
                first: until,
                tail: from,
                line_end: None,
                next_line: from,
                lead: from,
                own: until,
                last_line: from,
                mark: from,
            },
            is_marked: false,
            has_comment: false,
            has_own: false,
            until,
        }
    }

    fn pass_comment(&mut self, start: usize, end: usize) {
        if !self.has_comment {
            self.gap.first = start;
        }
        if !self.has_own {
            self.gap.own = start;
        }
        self.has_comment = true;
        self.has_own = true;
        self.is_marked = true;
        self.gap.mark = end;
        if self.gap.line_end.is_none() {
            self.gap.tail = end;
        }
    }

    /// Ends the line, after which the next one begins.
    fn end_line(&mut self, at: usize, next: usize) {
        let is_first = self.gap.line_end.is_none();
        if is_first {
            self.gap.line_end = Some(at);
            self.gap.next_line = next;
        }
        if is_first || !self.is_marked {
            self.gap.lead = next;
            self.gap.own = self.until;
            self.has_own = false;
        }
        self.gap.last_line = next;
        self.is_marked = false;
    }
}

/// The text between two offsets; empty where there is none.
pub(crate) fn between(text: &str, from: usize, until: usize) -> &str {
    match text.get(from..until) {
        Some(part) => part,
        None => "",
    }
}
