//! What a report says of keys, and of the colons after them.
//!
//! Plain code, of which no promise is made but that it is safe and ends: change it by the rows of reports, which judge it.

use crate::advice::Advice;
use crate::bare_texts::placeholder_remark;
use crate::fault::{Fault, Remark};
use crate::found::Found;
use crate::lexemes::{Kind, Lexeme, lexeme_at};
use crate::numbers::parts_remark;
use crate::parts::Part;
use crate::path::unquoted;
use crate::texts::{bare_text, values_at};
use crate::unclosed::closed_after;
use json5_tokens::char::{is_json5_identifier, is_json5_line_terminator};
use json5_walk::next::Next;

/// What is said where a key is expected: a word before a colon needs quotes, and a comma is too many.
pub(crate) fn key_remark<'t>(fault: &Fault<'t>) -> Remark<'t> {
    let Some(token) = fault.token() else {
        return fault.plain();
    };
    if token.kind == Kind::Word && fault.is_key(token) && !token.of(fault.text).starts_with("<<") {
        return Remark::of(
            token,
            Advice::with(
                "this key needs quotes: '@'",
                Part::Text(token.of(fault.text)),
            ),
        );
    }
    if let Some(remark) = parts_remark(fault).or(several_remark(fault)) {
        return remark;
    }
    if let Some(remark) = placeholder_remark(fault) {
        return remark;
    }
    match fault.found {
        Found::Character(',') => fault.remark(Advice::of("a comma too many")),
        Found::Character('(') => fault.remark(Advice::of("a comment begins with `//`")),
        Found::Character('.' | '@' | '…' | '<') => fault.remark(Advice::of(
            "write the fields themselves: a file includes no other",
        )),
        Found::Character('-') => fault.remark(Advice::of(
            "a member has no dash before it: remove this",
        )),
        Found::Character(':') => fault.remark(Advice::of("a colon too many")),
        Found::Character('%') => fault.remark(Advice::of("a comment begins with `//`")),
        Found::Object if fault.is_after(Kind::Open) && fault.gap().is_empty() => {
            fault.remark(Advice::of("a bracket too many: remove this"))
        }
        Found::Array if bracketed_key(fault, token).is_some() => {
            fault.advised(bracketed_key(fault, token))
        }
        Found::Object | Found::Array if closed_after(fault.text, fault.offset) > fault.depth => {
            fault.remark(Advice::of("a bracket too many stands before this: remove it"))
        }
        Found::Object | Found::Array | Found::Number if fault.is_after(Kind::Comma) => {
            fault.remark(Advice::of("a key with its colon is missing before this"))
        }
        Found::Object | Found::Number => {
            let start = match fault.open {
                Some(open) => open.start,
                None => fault.offset,
            };
            fault.remark(Advice::with(
                "elements need brackets, and line @ opens an object",
                Part::Number(fault.line_of(start)),
            ))
        }
        _ => fault.plain(),
    }
}

/// What is said of values behind one key, if the fault is at or behind one that isn't the first.
pub(crate) fn several_remark<'t>(fault: &Fault<'t>) -> Option<Remark<'t>> {
    let is_value = match fault.due {
        Next::Key => matches!(fault.found, Found::Number | Found::String),
        Next::Colon => fault.is_after(Kind::Text),
        _ => false,
    };
    let colon = fault.around.colon?;
    let run = values_at(fault, lexeme_at(fault.text, colon.end).start);
    let text = run.of(fault.text);
    let is_within = run.start < fault.offset && fault.offset <= run.end;
    if !is_value || !is_within || !text.contains(',') {
        return None;
    }
    Some(Remark::of(
        run,
        Advice::with_both(
            "a key has one value: write @, or @ if an array may stand here",
            Part::First(text),
            Part::All(text),
        ),
    ))
}

/// What is said of a key in brackets, or of a section as other files have it.
fn bracketed_key<'t>(fault: &Fault<'t>, open: Lexeme) -> Option<Advice<'t>> {
    let key = lexeme_at(fault.text, open.end);
    let close = lexeme_at(fault.text, key.end);
    let behind = fault.text.get(close.end..).unwrap_or("");
    if close.kind != Kind::Close || !matches!(key.kind, Kind::Word | Kind::Text) {
        return None;
    }
    let name = key.of(fault.text);
    if fault.is_key(close) || behind.trim_start().starts_with('=') {
        return Some(Advice::with("a key has no brackets: @", Part::Text(name)));
    }
    behind.starts_with(is_json5_line_terminator).then_some(Advice::with(
        "a section is written as @: { .. }",
        Part::Text(name),
    ))
}

/// What is said where a colon is expected.
pub(crate) fn colon_remark<'t>(fault: &Fault<'t>) -> Remark<'t> {
    let (Some(token), Some(last)) = (fault.token(), fault.around.last) else {
        return fault.plain();
    };
    if token.holds(fault.offset) {
        return dashed_remark(fault, token);
    }
    if let Some(remark) = torn_remark(fault, last).or(several_remark(fault)) {
        return remark;
    }
    let key = last.of(fault.text);
    let is_apart = fault.gap().contains(is_json5_line_terminator);
    let next = lexeme_at(fault.text, token.end);
    let behind = fault.text.get(token.end..next.start).unwrap_or("");
    let is_value = matches!(next.kind, Kind::Word | Kind::Text | Kind::Open)
        && !fault.is_key(next)
        && !behind.contains(is_json5_line_terminator);
    match fault.found {
        Found::Character('=') => fault.remark(sign_advice(fault, key, next)),
        Found::Character('-') if token.of(fault.text) == "->" => {
            fault.remark(sign_advice(fault, key, next))
        }
        Found::Character(',') if next.kind == Kind::Colon => fault.remark(Advice::of(
            "a comma too many",
        )),
        Found::Character(',') if is_value => fault.remark(sign_advice(fault, key, next)),
        Found::Character(',' | '}') if last.kind == Kind::Word => fault.remark(Advice::with(
            "write `@: ..`",
            Part::Text(key),
        )),
        Found::Character(_) => fault.plain(),
        _ if fault.is_key(token) && is_apart => fault.remark(Advice::with(
            "write `@: ..`",
            Part::Text(key),
        )),
        _ if fault.is_key(token) => {
            let key = Lexeme {
                end: token.end,
                ..last
            };
            Remark::of(
                key,
                Advice::with("this key needs quotes: '@'", Part::Text(key.of(fault.text))),
            )
        }
        Found::String if fault.gap().is_empty() && last.kind == Kind::Word => {
            let end = fault.offset.saturating_add(1);
            Remark {
                end,
                ..Remark::of(
                    last,
                    Advice::with("this key needs quotes: '@'", Part::Text(key)),
                )
            }
        }
        Found::String | Found::Number => fault.remark(Advice::with_both(
            "a colon is missing before this: @: @",
            Part::Text(key),
            Part::Text(fault.word()),
        )),
        _ => fault.remark(Advice::of("a colon is missing before this")),
    }
}

/// What is said of a key that goes on up to the next quote, since its own is missing.
fn torn_remark<'t>(fault: &Fault<'t>, key: Lexeme) -> Option<Remark<'t>> {
    let (name, _) = unquoted(key.of(fault.text)).split_once(':')?;
    let is_torn = key.kind == Kind::Text && key.end == fault.offset;
    is_torn.then_some(Remark::of(
        key,
        Advice::with("a quote is missing behind `@`", Part::Text(name)),
    ))
}

/// What is said of another sign in place of the colon after a key.
fn sign_advice<'t>(fault: &Fault<'t>, key: &'t str, value: Lexeme) -> Advice<'t> {
    let words = "write `:` between a key and its value: @: @";
    let shown = match value.kind {
        Kind::Open => return Advice::with_both(words, Part::Text(key), Part::Text("..")),
        Kind::Text => value,
        Kind::Word if value.of(fault.text) != "=" => {
            bare_text(fault, value.start).unwrap_or(value)
        }
        _ => return Advice::of("write `:` between a key and its value"),
    };
    Advice::with_both(words, Part::Text(key), Part::Element(shown.of(fault.text)))
}

/// What is said of a key whose first characters are a name: it needs quotes, or names a field of a section.
fn dashed_remark<'t>(fault: &Fault<'t>, word: Lexeme) -> Remark<'t> {
    let text = word.of(fault.text);
    Remark::of(
        word,
        match text.split_once('.') {
            Some((section, name)) if !name.contains(|c| !is_json5_identifier(c)) => {
                Advice::with_both("write @: { @: .. }", Part::Text(section), Part::Text(name))
            }
            _ if text.ends_with(['?', '!', '*']) => {
                Advice::with(
                    "write the key alone: @",
                    Part::Text(text.trim_end_matches(['?', '!', '*'])),
                )
            }
            _ => Advice::with("this key needs quotes: '@'", Part::Text(text)),
        },
    )
}
