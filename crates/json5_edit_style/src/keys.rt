//! How keys are spelled.

use crate::collection::Collection;
use crate::gaps::between;
use crate::habits::{Habits, Keys, Names, is_name, quote_of};
use crate::spots::{Which, find_around};
use json5_types::ErrorCode;
use json5_types::error::{Error, Result};
use std::alloc::{AllocError, Global};

/// How a key is spelled.
#[derive(Clone, Copy, Drop)]
struct Habit {
    /// The quote, if it has one.
    quote: char,
    /// Whether it has one, if it is a name.
    quotes_names: bool,
}

/// Another key for a member, and where its old one begins, in bytes.
///
/// ```text
/// Respelling { index: 0, at: 2, key }    // of `{ 'a': 1 }`, where the key is `'b'`
/// ```
#[derive(Drop)]
pub struct Respelling {
    /// How many members come before it.
    pub index: usize,
    pub at: usize,
    pub key: String,
}

/// Returns how the key is spelled for this member of the object: in the same quotes as its old one, or without, if that
/// has none and the new one is a name. If only the old one is a name, it has the quotes of the object's other keys, or
/// of the document's keys, or of its strings, or `"`.
///
/// ```text
/// let map = Collection { document: "{ 'a': 1 }", start: 0, end: 10, names: Names::Quoted };
/// respelling_for(alloc, &map, Which::Key("a"), "b")?    // 'b' at 2
/// ```
///
/// # Errors
///
/// - `Failed`, if there is no such member.
/// - As reading, if the text is no value; `OutOfMemory` where there is no memory for the text.
pub fn respelling_for(
    alloc: Global,
    collection: &Collection<'_>,
    which: Which<'_>,
    key: &str,
) -> Result<Respelling> {
    let text = collection.text();
    let around = find_around(alloc, text, which)?;
    let Some(here) = around.here else {
        return Err(Error::new(ErrorCode::Failed));
    };
    let old = quote_of(between(text, here.start, here.key_end));
    Ok(Respelling {
        index: around.index,
        at: here.start,
        key: spelled(alloc, renaming_habit(alloc, collection, old, key)?, key)?,
    })
}

/// How the key is spelled in the place of one that has this quote or none.
fn renaming_habit(
    alloc: Global,
    collection: &Collection<'_>,
    old: Option<char>,
    key: &str,
) -> Result<Habit> {
    let quote = match old {
        Some(quote) => quote,
        None if is_name(key) => '"',
        None => quote_in(
            Keys::of(alloc, collection.text())?,
            Habits::of(alloc, collection.document)?,
        ),
    };
    Ok(Habit {
        quote,
        quotes_names: old.is_some(),
    })
}

/// The key as the object's other keys are spelled, or where it has none, as those of the document are.
pub(crate) fn key_for(alloc: Global, collection: &Collection<'_>, key: &str) -> Result<String> {
    let habit = inserting_habit(alloc, collection, key)?;
    spelled(alloc, habit, key)
}

/// How the key of a new member is spelled.
fn inserting_habit(alloc: Global, collection: &Collection<'_>, key: &str) -> Result<Habit> {
    let own = Keys::of(alloc, collection.text())?;
    match (own.quotes_names(), own.quote) {
        (Some(false), _) if is_name(key) => Ok(Habit {
            quote: '"',
            quotes_names: false,
        }),
        (Some(quotes_names), Some(quote)) => Ok(Habit {
            quote,
            quotes_names,
        }),
        (quotes_names, _) => {
            let habits = Habits::of(alloc, collection.document)?;
            let there = quotes_names.or(habits.keys.quotes_names());
            Ok(Habit {
                quote: quote_in(own, habits),
                quotes_names: there.unwrap_or(matches!(collection.names, Names::Quoted)),
            })
        }
    }
}

/// The quote of the object's keys, or of the document's keys, or of its strings, or `"`.
fn quote_in(own: Keys, habits: Habits<'_>) -> char {
    own.quote
        .or(habits.keys.quote)
        .or(habits.quote)
        .unwrap_or('"')
}

fn spelled(alloc: Global, habit: Habit, key: &str) -> Result<String> {
    let made = if is_name(key) && !habit.quotes_names {
        String::from_str(alloc, key)
    } else {
        quoted(alloc, habit.quote, key)
    };
    match made {
        Ok(made) => Ok(made),
        Err(_) => Err(Error::new(ErrorCode::OutOfMemory)),
    }
}

/// The key between quotes.
fn quoted(alloc: Global, quote: char, key: &str) -> std::result::Result<String, AllocError> {
    let mut made = String::new(alloc);
    made.push(quote)?;
    for c in key.chars() {
        push_escaped(&mut made, quote, c)?;
    }
    made.push(quote)?;
    Ok(made)
}

/// Appends the character, with a backslash where it may not stand itself.
fn push_escaped(made: &mut String, quote: char, c: char) -> std::result::Result<(), AllocError> {
    match c {
        '\n' => made.push_str("\\n"),
        '\r' => made.push_str("\\r"),
        '\t' => made.push_str("\\t"),
        '\u{8}' => made.push_str("\\b"),
        '\u{c}' => made.push_str("\\f"),
        '\u{2028}' => made.push_str("\\u2028"),
        '\u{2029}' => made.push_str("\\u2029"),
        '\\' => made.push_str("\\\\"),
        _ if c == quote => {
            made.push('\\')?;
            made.push(c)
        }
        _ if c < ' ' => push_control(made, c),
        _ => made.push(c),
    }
}

/// Appends a control character by its code.
fn push_control(made: &mut String, c: char) -> std::result::Result<(), AllocError> {
    made.push_str(if u32::from(c) < 16 {
        "\\u000"
    } else {
        "\\u001"
    })?;
    match char::from_digit(u32::from(c) % 16, 16) {
        Some(digit) => made.push(digit),
        None => Ok(()),
    }
}
