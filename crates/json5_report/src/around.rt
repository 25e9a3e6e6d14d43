//! The lexemes around an offset of a text.
//!
//! Plain code, of which no promise is made but that it is safe and ends: change it by the rows of reports, which judge it.

use crate::lexemes::{Kind, Lexeme, lexeme_at};

/// The lexemes around an offset.
#[derive(Clone, Copy, Debug)]
pub(crate) struct Around {
    /// The last token that begins before the offset.
    pub(crate) last: Option<Lexeme>,
    /// The last colon that begins before the offset.
    pub(crate) colon: Option<Lexeme>,
    /// The last comment after it that begins before the offset.
    pub(crate) comment: Option<Lexeme>,
    /// The lexeme that begins at the offset or after it.
    pub(crate) next: Lexeme,
}

impl Around {
    /// The lexemes around the offset.
    pub(crate) fn of(text: &str, offset: usize) -> Around {
        let mut around = Around {
            last: None,
            colon: None,
            comment: None,
            next: lexeme_at(text, 0),
        };
        for _ in 0..text.len() {
            let next = around.next;
            if next.start >= offset || next.kind == Kind::End {
                break;
            }
            around.comment = if next.kind == Kind::Comment {
                Some(next)
            } else {
                None
            };
            if next.kind != Kind::Comment {
                around.last = Some(next);
            }
            if next.kind == Kind::Colon {
                around.colon = Some(next);
            }
            around.next = lexeme_at(text, next.end);
        }
        around
    }
}
