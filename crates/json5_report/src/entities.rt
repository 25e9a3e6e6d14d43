//! Characters as HTML writes them, which are copied from a page.
//!
//! Plain code, of which no promise is made but that it is safe and ends: change it by the rows of reports, which judge it.

use crate::advice::Advice;
use crate::fault::{Fault, Remark};
use crate::lexemes::{Kind, Lexeme, line_len};
use crate::parts::Part;
use crate::texts::bare_text;
use json5_walk::next::Next;
use std::fmt;

/// How HTML writes some characters.
const ENTITIES: [(&str, &str); 11] = [
    ("&quot;", "\""),
    ("&#34;", "\""),
    ("&ldquo;", "\""),
    ("&rdquo;", "\""),
    ("&apos;", "'"),
    ("&#39;", "'"),
    ("&#039;", "'"),
    ("&#x27;", "'"),
    ("&lt;", "<"),
    ("&gt;", ">"),
    ("&amp;", "&"),
];

/// What is said of a key or a value in which characters stand as HTML writes them.
pub(crate) fn entity_remark<'t>(fault: &Fault<'t>) -> Option<Remark<'t>> {
    let token = fault.token().filter(|token| token.kind == Kind::Word)?;
    fault.code?;
    let rest = fault.text.get(token.start..)?;
    let colon = rest.get(..line_len(rest))?.find(':').unwrap_or(0);
    let part = match fault.due {
        Next::Key | Next::Colon if colon > 0 => Lexeme {
            end: token.start.saturating_add(colon),
            ..token
        },
        _ => bare_text(fault, token.start)?,
    };
    let text = part.of(fault.text);
    let (entity, sign) = entity_at(text.get(text.find('&')?..)?)?;
    let words = if matches!(entity_at(text), Some((_, "\"" | "'"))) {
        "`@` is how HTML writes `@`: write @"
    } else {
        "`@` is how HTML writes `@`: write '@'"
    };
    let (entity, sign) = (Part::Text(entity), Part::Text(sign));
    let parts = [entity, sign, Part::Decoded(text), Part::Nothing];
    Some(Remark::of(part, Advice::with_all(words, parts)))
}

/// The character in front of the text, as HTML writes it and as it is.
fn entity_at(text: &str) -> Option<(&'static str, &'static str)> {
    for (entity, sign) in ENTITIES {
        if text.starts_with(entity) {
            return Some((entity, sign));
        }
    }
    None
}

/// A text in which characters stand as HTML writes them.
#[derive(Clone, Copy)]
pub(crate) struct Decoded<'t>(pub(crate) &'t str);

/// Prints the text with the characters as they are.
impl fmt::Display for Decoded<'_> {
    fn fmt<W: fmt::Write>(&self, f: &mut fmt::Formatter<W>) -> fmt::Result {
        let Decoded(text) = self;
        let mut until: usize = 0;
        for (index, c) in text.char_indices() {
            if index < until {
                continue;
            }
            match entity_at(text.get(index..).unwrap_or("")) {
                Some((entity, sign)) => {
                    f.write_str(sign)?;
                    until = index.saturating_add(entity.len());
                }
                None => f.write_char(c)?,
            }
        }
        Ok(())
    }
}
