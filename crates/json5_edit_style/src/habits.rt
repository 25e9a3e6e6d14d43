//! How a document is written: its keys, its strings and its lines.

use crate::gaps::{Gap, between};
use crate::lines::indentation;
use crate::spots::{next_spot, opened};
use json5_read::brackets::BracketKind;
use json5_types::ErrorCode;
use json5_types::error::Result;
use json5_types::nesting::Limit;
use json5_walk::next::Next;
use json5_walk::walk::Walk;
use std::alloc::Global;

/// How a name stands as the first key of a document.
///
/// ```text
/// Names::Bare    // `{ port: 80 }` of `{}`
/// ```
#[derive(Clone, Copy, Drop)]
pub enum Names {
    /// Between quotes, as in JSON.
    Quoted,
    /// Without quotes.
    Bare,
}

/// How keys are spelled.
#[derive(Clone, Copy, Drop)]
pub(crate) struct Keys {
    /// The quote of the last one that has one.
    pub(crate) quote: Option<char>,
    /// Whether one has no quotes.
    has_bare: bool,
    /// Whether the last one that is a name has quotes.
    quotes_name: bool,
}

/// How a document is written, as far as it was read.
#[derive(Clone, Copy, Drop)]
pub(crate) struct Habits<'t> {
    pub(crate) keys: Keys,
    /// The quote of the last string that is no key.
    pub(crate) quote: Option<char>,
    /// By how much the first entry is indented that begins a line and is indented at all; none, if no entry is.
    step: Option<&'t str>,
    /// Whether a comma stands before the last bracket that begins a line.
    last_commas: Option<bool>,
    /// Where the opening bracket is, if it was the last token.
    bracket: Option<usize>,
    /// Whether the last token was a comma.
    has_comma: bool,
}

impl Keys {
    fn none() -> Keys {
        Keys {
            quote: None,
            has_bare: false,
            quotes_name: false,
        }
    }

    /// The keys of the object, and not of those within it.
    pub(crate) fn of(alloc: Global, text: &str) -> Result<Keys> {
        let mut walk = opened(alloc, text)?;
        let mut keys = Keys::none();
        for _ in 0..text.len() {
            let Some((spot, key)) = next_spot(&mut walk)? else {
                break;
            };
            keys.add(between(text, spot.start, spot.key_end), key.as_str());
        }
        Ok(keys)
    }

    /// Adds a key that is spelled so.
    fn add(&mut self, spelled: &str, key: &str) {
        let quote = quote_of(spelled);
        self.quote = quote.or(self.quote);
        self.has_bare = self.has_bare || quote.is_none();
        if is_name(key) {
            self.quotes_name = quote.is_some();
        }
    }

    /// Whether a name has quotes among them: as all have them, or have none, or else as the last name has. None if
    /// there is no key.
    pub(crate) fn quotes_names(self) -> Option<bool> {
        match (self.quote, self.has_bare) {
            (None, false) => None,
            (None, true) => Some(false),
            (Some(_), false) => Some(true),
            (Some(_), true) => Some(self.quotes_name),
        }
    }
}

impl<'t> Habits<'t> {
    fn none() -> Habits<'t> {
        Habits {
            keys: Keys::none(),
            quote: None,
            step: None,
            last_commas: None,
            bracket: None,
            has_comma: false,
        }
    }

    /// The habits of the whole document.
    pub(crate) fn of(alloc: Global, document: &'t str) -> Result<Habits<'t>> {
        let mut walk = Walk::new(alloc, document, Limit::full());
        let mut habits = Habits::none();
        for _ in 0..document.len() {
            if !habits.pass_token(document, &mut walk)? {
                break;
            }
        }
        Ok(habits)
    }

    /// Passes over blanks and a token, and says whether there was one.
    fn pass_token(&mut self, document: &'t str, walk: &mut Walk<'_>) -> Result<bool> {
        let from = walk.offset();
        walk.gap()?;
        let start = walk.offset();
        let begins_line = Gap::of(document, from, start).line_end.is_some();
        if walk.close().is_some() {
            self.end_collection(begins_line);
            return Ok(true);
        }
        self.begin_entry(document, start, begins_line);
        match walk.next() {
            Next::Key => {
                let key = walk.key()?;
                self.keys
                    .add(between(document, start, walk.offset()), key.as_str());
                Ok(true)
            }
            Next::Colon => Ok(walk.colon()),
            Next::Comma => {
                self.has_comma = walk.comma();
                Ok(self.has_comma)
            }
            Next::Value | Next::Element => {
                self.pass_value(document, walk)?;
                Ok(true)
            }
            Next::Failed => Err(walk.fault(ErrorCode::Failed)),
        }
    }

    /// Passes over an opening bracket, or over a value that has none.
    fn pass_value(&mut self, document: &str, walk: &mut Walk<'_>) -> Result<()> {
        let start = walk.offset();
        if walk.open(BracketKind::Array) || walk.open(BracketKind::Object) {
            self.bracket = Some(start);
            return Ok(());
        }
        walk.skip()?;
        self.quote = quote_of(between(document, start, walk.offset())).or(self.quote);
        Ok(())
    }

    /// Takes the step from a token that follows an opening bracket.
    fn begin_entry(&mut self, document: &'t str, start: usize, begins_line: bool) {
        if let Some(bracket) = self.bracket
            && begins_line
            && self.step.unwrap_or("").is_empty()
        {
            let outer = indentation(document, bracket);
            self.step = indentation(document, start).strip_prefix(outer);
        }
        self.bracket = None;
        self.has_comma = false;
    }

    /// Takes the habit of last commas from a closing bracket.
    fn end_collection(&mut self, begins_line: bool) {
        if begins_line && self.bracket.is_none() {
            self.last_commas = Some(self.has_comma);
        }
        self.bracket = None;
        self.has_comma = false;
    }
}

/// Returns the blanks of a level in the document: those by which the first entry is indented that begins a line, or two.
///
/// ```text
/// step_of(alloc, "{\n\ta: 1\n}")?    // a tab
/// ```
///
/// # Errors
///
/// As reading, if the text is no document; `OutOfMemory` where there is no memory for a key with an escape.
pub fn step_of(alloc: Global, document: &str) -> Result<&str> {
    match Habits::of(alloc, document) {
        Ok(habits) => Ok(habits.step.unwrap_or("  ")),
        Err(error) => Err(error),
    }
}

/// Returns whether a comma stands before the last closing bracket of the document that has a line of its own; None if
/// there is no such bracket.
///
/// ```text
/// has_last_commas(alloc, "{\n  a: 1,\n}")?    // Some(true)
/// ```
///
/// # Errors
///
/// As [`step_of`].
pub fn has_last_commas(alloc: Global, document: &str) -> Result<Option<bool>> {
    match Habits::of(alloc, document) {
        Ok(habits) => Ok(habits.last_commas),
        Err(error) => Err(error),
    }
}

/// The quote that a spelled key or string begins with, if it does.
pub(crate) fn quote_of(spelled: &str) -> Option<char> {
    match spelled.chars().next() {
        Some('"') => Some('"'),
        Some('\'') => Some('\''),
        _ => None,
    }
}

/// Whether it may stand without quotes: of the names that may, those in ASCII.
pub(crate) fn is_name(key: &str) -> bool {
    let mut is_first = true;
    for c in key.chars() {
        if !(c.is_ascii_alphabetic() || matches!(c, '$' | '_') || c.is_ascii_digit() && !is_first) {
            return false;
        }
        is_first = false;
    }
    !is_first
}
