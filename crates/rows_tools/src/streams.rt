//! Rows of documents one after another: of a text, and of readers that give a few bytes at a time.

use crate::outcomes::Outcome;
use crate::rows::{count_of, text_of};
use json5_convert::{ValueStream, Values, from_lines, to_lines};
use json5_types::ErrorCode;
use json5_types::error::{Error, Result};
use json5_types::value::Value;
use std::alloc::Global;
use std::io::{self, ErrorKind, Read};

/// How many bytes the readers give at a time.
const SIZES: [usize; 5] = [1, 2, 3, 7, usize::MAX];

/// Gives its bytes, at most so many at a time. After them it may fail once.
#[derive(Drop)]
struct Pieces<'b> {
    rest: &'b [u8],
    size: usize,
    fails: bool,
}

impl Read for Pieces<'_> {
    fn read(&mut self, buf: &mut [u8]) -> io::Result<usize> {
        if self.rest.is_empty() && self.fails {
            self.fails = false;
            return Err(io::Error::from(ErrorKind::Other));
        }
        let count = buf.len().min(self.size);
        self.rest.read(&mut buf[..count])
    }
}

/// What comes of the row's text, in every way to read it.
pub(crate) fn outcome_of(alloc: Global, row: &Value) -> Outcome {
    match other(alloc, row) {
        Ok(None) => Outcome::Wanted,
        Ok(Some(other)) => Outcome::Other(other),
        Err(_) => Outcome::NoMemory,
    }
}

/// What comes of the row's text, if it isn't what the row has.
fn other(alloc: Global, row: &Value) -> Result<Option<String>> {
    let text = repeated(alloc, row, text_of(row, "before"))?;
    let wanted = wanted_of(alloc, row)?;
    let (is_bytes, fails) = (is_set(row, "latin_1"), is_set(row, "fails"));
    if !is_bytes && !fails {
        let found = of_text(alloc, text.as_str())?;
        if found.as_str() != wanted.as_str() {
            return Ok(Some(found));
        }
        if let Some(found) = other_at_once(alloc, text.as_str(), wanted.as_str())? {
            return Ok(Some(found));
        }
    }
    let bytes = if is_bytes {
        latin_1(alloc, text.as_str())?
    } else {
        text.into_bytes()
    };
    other_read(alloc, &bytes, fails, wanted.as_str())
}

/// What comes of the bytes in one of the sizes, if it isn't what is wanted.
fn other_read(alloc: Global, bytes: &[u8], fails: bool, wanted: &str) -> Result<Option<String>> {
    for size in SIZES {
        let found = of_reader(
            alloc,
            Pieces {
                rest: bytes,
                size,
                fails,
            },
            bytes.len(),
        )?;
        if found.as_str() != wanted {
            return Ok(Some(format!(in alloc; "{size} bytes at a time: {found}")?));
        }
    }
    Ok(None)
}

/// The documents on lines, and behind them the fault that comes next, if one does.
fn wanted_of(alloc: Global, row: &Value) -> Result<String> {
    let mut wanted = repeated(alloc, row, text_of(row, "after"))?;
    wanted.push_str(text_of(row, "given"))?;
    wanted.push_str(text_of(row, "refused"))?;
    Ok(wanted)
}

/// The text as many times as the row says, which is once if it says nothing.
fn repeated(alloc: Global, row: &Value, text: &str) -> Result<String> {
    let mut all = String::new(alloc);
    for _ in 0..count_of(row, "times").unwrap_or(1) {
        all.push_str(text)?;
    }
    Ok(all)
}

fn is_set(row: &Value, field: &str) -> bool {
    matches!(row.get(field), Some(Value::Bool(true)))
}

/// The bytes that the text's characters are in Latin-1.
fn latin_1(alloc: Global, text: &str) -> Result<Vec<u8>> {
    let mut bytes = Vec::new(alloc);
    for c in text.chars() {
        bytes.push(u8::try_from(c as u32).unwrap_or(b'?'))?;
    }
    Ok(bytes)
}

fn of_text(alloc: Global, text: &str) -> Result<String> {
    let mut values = Values::new(alloc, text);
    let mut list = Vec::new(alloc);
    for _ in 0..=text.len() {
        match values.next() {
            Ok(Some(value)) => list.push(value)?,
            Ok(None) => break,
            Err(fault) => {
                let after = values.next();
                return refused(alloc, list.as_slice(), fault, after);
            }
        }
    }
    to_lines(alloc, list.as_slice())
}

/// What comes of all documents of the text at once, if it isn't what is wanted: of a refusal the fault alone.
fn other_at_once(alloc: Global, text: &str, wanted: &str) -> Result<Option<String>> {
    let (found, is_wanted) = match from_lines(alloc, text) {
        Ok(values) => {
            let lines = to_lines(alloc, values.as_slice())?;
            let is_wanted = lines.as_str() == wanted;
            (lines, is_wanted)
        }
        Err(fault) => {
            let words = format!(in alloc; "{fault}")?;
            let is_wanted = wanted.ends_with(words.as_str());
            (words, is_wanted)
        }
    };
    Ok(if is_wanted { None } else { Some(found) })
}

fn of_reader(alloc: Global, reader: Pieces<'_>, most: usize) -> Result<String> {
    let mut values = ValueStream::new(alloc, reader);
    let mut list = Vec::new(alloc);
    for _ in 0..=most {
        match values.next() {
            Ok(Some(value)) => list.push(value)?,
            Ok(None) => break,
            Err(fault) => {
                let after = values.next();
                return refused(alloc, list.as_slice(), fault, after);
            }
        }
    }
    to_lines(alloc, list.as_slice())
}

/// The documents on lines, and the fault behind them. The call after it has to answer `Failed`.
fn refused(
    alloc: Global,
    list: &[Value],
    fault: Error,
    after: Result<Option<Value>>,
) -> Result<String> {
    let mut shown = to_lines(alloc, list)?;
    let words = format!(in alloc; "{fault}")?;
    shown.push_str(words.as_str())?;
    if !says_failed(&after) {
        shown.push_str(", and it goes on")?;
    }
    Ok(shown)
}

fn says_failed(answer: &Result<Option<Value>>) -> bool {
    match answer {
        Err(fault) => fault.code() == Some(ErrorCode::Failed),
        Ok(_) => false,
    }
}
