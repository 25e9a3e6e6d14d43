//! A fault of a text, with what is known of its place.
//!
//! Plain code, of which no promise is made but that it is safe and ends: change it by the rows of reports, which judge it.

use crate::advice::{Advice, Stands};
use crate::around::Around;
use crate::found::Found;
use crate::lexemes::{Kind, Lexeme, lexeme_at};
use json5_read::brackets::{BracketKind, OpenBracket};
use json5_types::{ErrorCode, Position};
use json5_walk::next::Next;

/// A fault, and what is around it.
#[derive(Clone, Copy)]
pub(crate) struct Fault<'t> {
    pub(crate) text: &'t str,
    pub(crate) offset: usize,
    pub(crate) code: Option<ErrorCode>,
    pub(crate) message: &'t str,
    pub(crate) found: Found<'t>,
    pub(crate) around: Around,
    /// The innermost open bracket.
    pub(crate) open: Option<OpenBracket>,
    /// What is due.
    pub(crate) due: Next,
    /// How many brackets are open.
    pub(crate) depth: usize,
}

/// The part of a text that is underlined, and a hint.
#[derive(Clone, Copy)]
pub(crate) struct Remark<'t> {
    pub(crate) start: usize,
    pub(crate) end: usize,
    pub(crate) advice: Option<Advice<'t>>,
}

impl<'t> Remark<'t> {
    pub(crate) fn of(part: Lexeme, advice: Advice<'t>) -> Remark<'t> {
        Remark {
            start: part.start,
            end: part.end,
            advice: Some(advice),
        }
    }
}

impl<'t> Fault<'t> {
    /// Whether the text ends too early.
    pub(crate) fn is_end(&self) -> bool {
        match self.code {
            Some(code) => code.as_str().starts_with("EOF"),
            None => false,
        }
    }

    /// The token in which the offset lies.
    pub(crate) fn token(&self) -> Option<Lexeme> {
        match self.around.last {
            Some(last) if last.holds(self.offset) => Some(last),
            _ if self.around.next.start == self.offset && self.around.next.kind != Kind::End => {
                Some(self.around.next)
            }
            _ => None,
        }
    }

    /// The characters of the token at the fault; nothing if none is there.
    pub(crate) fn word(&self) -> &'t str {
        match self.token() {
            Some(token) => token.of(self.text),
            None => "",
        }
    }

    /// The word in which the offset lies, past its first character.
    pub(crate) fn word_inside(&self) -> Option<Lexeme> {
        let token = self.token()?;
        if token.kind == Kind::Word && token.holds(self.offset) {
            return Some(token);
        }
        None
    }

    /// Whether a colon follows the token, and no slash, backslash or colon right after it: that is an address or a path.
    pub(crate) fn is_key(&self, token: Lexeme) -> bool {
        let colon = lexeme_at(self.text, token.end);
        let next = self.text.as_bytes().get(colon.end).copied();
        colon.kind == Kind::Colon && !matches!(next, Some(b'/' | b'\\' | b':'))
    }

    /// The key of a member that is right in an array, if the fault is at the key or at the colon after it.
    pub(crate) fn member(&self) -> Option<Lexeme> {
        self.array_line()?;
        let token = self.token()?;
        let key = if token.kind == Kind::Colon {
            self.around.last?
        } else {
            token
        };
        let is_word = matches!(key.kind, Kind::Word | Kind::Text);
        if is_word && self.is_key(key) {
            Some(key)
        } else {
            None
        }
    }

    /// The line of the innermost open bracket, if that is an array's.
    pub(crate) fn array_line(&self) -> Option<u128> {
        let open = self.open?;
        match open.kind {
            BracketKind::Array => Some(self.line_of(open.start)),
            BracketKind::Object => None,
        }
    }

    /// Whether the last token before the fault is of this kind.
    pub(crate) fn is_after(&self, kind: Kind) -> bool {
        match self.around.last {
            Some(last) => last.kind == kind,
            None => false,
        }
    }

    /// The text between the last token and the fault.
    pub(crate) fn gap(&self) -> &'t str {
        match self.around.last {
            Some(last) => self.text.get(last.end..self.offset).unwrap_or(""),
            None => "",
        }
    }

    /// Where the object begins whose field is at fault: at the offset itself, or it is the innermost one that is open there.
    pub(crate) fn object_start(&self) -> usize {
        match (self.token(), self.open) {
            (Some(token), _) if token.kind == Kind::Open => self.offset,
            (_, Some(bracket)) => bracket.start,
            _ => self.offset,
        }
    }

    /// Where the offset is.
    fn position_of(&self, offset: usize) -> Position {
        Position::after(self.text.get(..offset).unwrap_or(""))
    }

    /// The number of the line that the offset is in, counted from 1.
    pub(crate) fn line_of(&self, offset: usize) -> u128 {
        self.position_of(offset).line as u128 + 1
    }

    /// Where the bracket at the offset stands.
    pub(crate) fn stands(&self, offset: usize) -> Stands {
        let place = self.position_of(offset);
        if place.line == self.position_of(self.offset).line {
            return Stands::InColumn(place.column as u128 + 1);
        }
        Stands::OnLine(place.line as u128 + 1)
    }

    /// The token at the fault without a hint; if the fault is inside of it, only its character.
    pub(crate) fn plain(&self) -> Remark<'t> {
        let end = match self.token() {
            Some(token) if token.start == self.offset => token.end,
            _ => self.offset,
        };
        Remark {
            start: self.offset,
            end,
            advice: None,
        }
    }

    /// The token at the fault, with a hint.
    pub(crate) fn remark(&self, advice: Advice<'t>) -> Remark<'t> {
        match self.token() {
            Some(token) => Remark::of(token, advice),
            None => Remark {
                advice: Some(advice),
                ..self.plain()
            },
        }
    }

    /// The token at the fault, with the hint if there is one.
    pub(crate) fn advised(&self, advice: Option<Advice<'t>>) -> Remark<'t> {
        match advice {
            Some(advice) => self.remark(advice),
            None => self.plain(),
        }
    }
}
