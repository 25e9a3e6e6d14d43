//! The bracket of a text that isn't closed where its lines say that it is.
//!
//! Plain code, of which no promise is made but that it is safe and ends: change it by the rows of reports, which judge it.

use crate::lexemes::{Kind, Lexeme, lexeme_at};
use crate::place::line_start;
use json5_tokens::char::is_json5_line_terminator;
use json5_types::Position;
use std::alloc::{AllocError, Global};
use std::fmt;

/// Of how many brackets it is said what closes them.
const MOST: usize = 32;

/// A bracket that is left open, and the token that it is to be closed before.
#[derive(Clone, Copy, Debug)]
pub(crate) struct Unclosed {
    pub(crate) open: usize,
    pub(crate) before: usize,
}

/// The brackets that are open while a text is looked through, each with the blanks in front of its line.
#[derive(Drop)]
struct Nest<'t> {
    text: &'t str,
    open: Vec<(Lexeme, usize)>,
    /// How far the line of the last token is indented.
    indent: usize,
    found: Option<Unclosed>,
    /// Whether the brackets can't be paired.
    is_odd: bool,
}

/// The bracket of the text that is left open, by the other brackets and by how far the lines are indented: the innermost
/// one, if several are to be closed at one place. None where all are closed, or the lines don't fit the brackets.
pub(crate) fn left_open(alloc: Global, text: &str) -> Result<Option<Unclosed>, AllocError> {
    let mut nest = Nest {
        text,
        open: Vec::new(alloc),
        indent: 0,
        found: None,
        is_odd: false,
    };
    let mut token = lexeme_at(text, 0);
    let mut end: usize = 0;
    for _ in 0..text.len() {
        if token.kind == Kind::End {
            break;
        }
        nest.take(token, end)?;
        end = token.end;
        token = lexeme_at(text, end);
    }
    if let Some((open, _)) = nest.open.pop() {
        nest.leave(open, text.len());
    }
    Ok(if nest.is_odd { None } else { nest.found })
}

impl Nest<'_> {
    /// Takes the lexeme after one that ends here.
    fn take(&mut self, token: Lexeme, end: usize) -> Result<(), AllocError> {
        let blanks = self.text.get(end..token.start).unwrap_or("");
        if end == 0 || blanks.contains(is_json5_line_terminator) {
            self.indent = token
                .start
                .saturating_sub(line_start(self.text, token.start));
            if token.kind != Kind::Comment {
                self.close_lines(token, end);
            }
        }
        match token.kind {
            Kind::Open => self.open.push((token, self.indent))?,
            Kind::Close => self.close(token),
            _ => {}
        }
        Ok(())
    }

    /// Closes the brackets that are still open before the first token of a line that is indented no further than theirs:
    /// all but the document's, and that which the token closes. Lines that are no further in right after a bracket tell of
    /// nothing.
    fn close_lines(&mut self, token: Lexeme, end: usize) {
        let is_close = token.kind == Kind::Close;
        for _ in 1..self.open.len() {
            let (open, indent) = match self.open.last() {
                Some(last) => *last,
                None => return,
            };
            if indent < self.indent || indent == self.indent && is_close {
                return;
            }
            self.is_odd = self.is_odd || open.end == end;
            self.leave(open, token.start);
            let _ = self.open.pop();
        }
    }

    /// Closes the innermost bracket by this one, and one within it that is of the other kind.
    fn close(&mut self, token: Lexeme) {
        let Some((open, _)) = self.open.pop() else {
            self.is_odd = true;
            return;
        };
        if token.closes(self.text, open) {
            return;
        }
        self.leave(open, token.start);
        match self.open.pop() {
            Some((outer, _)) if token.closes(self.text, outer) => {}
            _ => self.is_odd = true,
        }
    }

    /// Notes that the bracket isn't closed before the offset.
    fn leave(&mut self, open: Lexeme, before: usize) {
        match self.found {
            None => self.found = Some(Unclosed {
                open: open.start,
                before,
            }),
            Some(found) => self.is_odd = self.is_odd || found.before != before,
        }
    }
}

/// The closing bracket of a text with one too many, and the bracket that it closes too early: one that is the last of its
/// line is to be closed by the first of another. None if there is none that isn't, or several.
pub(crate) fn early_close(
    alloc: Global,
    text: &str,
) -> Result<Option<(Lexeme, Lexeme)>, AllocError> {
    let mut nest = Vec::new(alloc);
    let mut found = None;
    let mut token = lexeme_at(text, 0);
    let mut end: usize = 0;
    for _ in 0..text.len() {
        match token.kind {
            Kind::End => break,
            Kind::Open => nest.push(token)?,
            Kind::Close => {
                let Some(open) = nest.pop() else {
                    break;
                };
                if is_early(text, open, token, end) {
                    if found.is_some() {
                        return Ok(None);
                    }
                    found = Some((token, open));
                }
            }
            _ => {}
        }
        end = token.end;
        token = lexeme_at(text, end);
    }
    Ok(found)
}

/// Whether the bracket, before which a token ends, isn't the first of its line, and closes one that is the last of its own.
fn is_early(text: &str, open: Lexeme, close: Lexeme, end: usize) -> bool {
    let next = lexeme_at(text, open.end);
    let inner = text.get(open.end..next.start).unwrap_or("");
    let before = text.get(end..close.start).unwrap_or("");
    close.closes(text, open)
        && inner.contains(is_json5_line_terminator)
        && !before.contains(is_json5_line_terminator)
}

/// How many closing brackets of the rest, from the offset on, close none that is opened there.
pub(crate) fn closed_after(text: &str, from: usize) -> usize {
    let mut count: usize = 0;
    let mut depth: usize = 0;
    let mut token = lexeme_at(text, from);
    for _ in from..text.len() {
        match token.kind {
            Kind::End => break,
            Kind::Open => depth = depth.saturating_add(1),
            Kind::Close if depth > 0 => depth = depth.saturating_sub(1),
            Kind::Close => count = count.saturating_add(1),
            _ => {}
        }
        token = lexeme_at(text, token.end);
    }
    count
}

/// The bracket that closes the one that is given; an empty lexeme at the text's end if none does.
pub(crate) fn close_of(text: &str, open: Lexeme) -> Lexeme {
    let mut depth: usize = 0;
    let mut token = open;
    for _ in open.start..text.len() {
        match token.kind {
            Kind::End => break,
            Kind::Open => depth = depth.saturating_add(1),
            Kind::Close => depth = depth.saturating_sub(1),
            _ => {}
        }
        if depth == 0 {
            return token;
        }
        token = lexeme_at(text, token.end);
    }
    lexeme_at(text, text.len())
}

/// The last bracket of the text that is opened with so many open around it, and how many are open where the text ends.
pub(crate) fn last_open(text: &str, level: usize) -> (Lexeme, usize) {
    let mut found = lexeme_at(text, text.len());
    let mut depth: usize = 0;
    let mut token = lexeme_at(text, 0);
    for _ in 0..text.len() {
        match token.kind {
            Kind::End => break,
            Kind::Open => {
                if depth == level {
                    found = token;
                }
                depth = depth.saturating_add(1);
            }
            Kind::Close => depth = depth.saturating_sub(1),
            _ => {}
        }
        token = lexeme_at(text, token.end);
    }
    (found, depth)
}

/// What closes the brackets that are open where the text ends.
#[derive(Clone, Copy)]
pub(crate) struct Closers<'t>(pub(crate) &'t str);

/// Prints each closing bracket with its opening one, the innermost first.
impl fmt::Display for Closers<'_> {
    fn fmt<W: fmt::Write>(&self, f: &mut fmt::Formatter<W>) -> fmt::Result {
        let Closers(text) = self;
        let (_, depth) = last_open(text, 0);
        let mut lead = "";
        for index in 0..depth.min(MOST) {
            let level = depth.saturating_sub(1).saturating_sub(index);
            let (open, _) = last_open(text, level);
            let line = Position::after(text.get(..open.start).unwrap_or("")).line as u128 + 1;
            let (opening, closing) = match open.of(text) {
                "[" => ('[', ']'),
                _ => ('{', '}'),
            };
            write!(f, "{lead}`{closing}` for the `{opening}` of line {line}")?;
            lead = ", then ";
        }
        Ok(())
    }
}
