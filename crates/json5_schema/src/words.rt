//! What was expected and what was found, in words.
//!
//! Plain code, of which no promise is made but that it is safe and ends: change it by the rows of schemas, which judge it.

use crate::keyword::Assertion;
use crate::kind::{Kind, kind_named};
use crate::limits::{characters_in, elements_in, names_in};
use json5_types::error;
use json5_types::value::Value;
use std::alloc::{AllocError, Global};

/// How many characters of a text or number are shown.
const MAX_SHOWN: usize = 60;

/// How many values or names of a list are shown.
const MAX_LISTED: usize = 12;

/// What fits of the text, between these words.
pub fn cut(alloc: Global, before: &str, text: &str, behind: &str) -> Result<String, AllocError> {
    let (shown, dots) = match text.char_indices().nth(MAX_SHOWN) {
        Some((end, _)) => (text.get(..end).unwrap_or(text), ".."),
        None => (text, ""),
    };
    format!(in alloc; "{before}{shown}{dots}{behind}")
}

/// A text in quotes, as it is shown.
pub fn shown_text(alloc: Global, text: &str) -> Result<String, AllocError> {
    let text = cut(alloc, "", text, "")?;
    format!(in alloc; "{:?}", text.as_str())
}

/// A value, as it is shown.
pub fn shown(alloc: Global, value: &Value) -> Result<String, AllocError> {
    match value {
        Value::Null => String::from_str(alloc, "null"),
        Value::Bool(truth) => format!(in alloc; "{truth}"),
        Value::Whole(number) => format!(in alloc; "{number}"),
        Value::Decimal(number) => {
            let number = format!(in alloc; "{number}")?;
            cut(alloc, "", number.as_str(), "")
        }
        Value::String(text) => shown_text(alloc, text.as_str()),
        Value::Array(_) => String::from_str(alloc, "an array"),
        Value::Object(_) => String::from_str(alloc, "an object"),
    }
}

/// A kind, as it is shown.
fn kind_word(name: &Value) -> &'static str {
    match kind_named(name.as_str().unwrap_or("")) {
        Kind::Null => "null",
        Kind::Boolean => "a boolean",
        Kind::Object => "an object",
        Kind::Array => "an array",
        Kind::Number => "a number",
        Kind::Integer => "an integer",
        Kind::Text => "a string",
        Kind::Unknown => "nothing",
    }
}

/// The words, with `or` between the last two and commas between the others.
pub fn listed(alloc: Global, words: &[String]) -> Result<String, AllocError> {
    let mut list = String::new(alloc);
    for (index, word) in words.iter().enumerate() {
        let between = match words.len() - index {
            _ if index == 0 => "",
            _ if index == MAX_LISTED => ", ..",
            1 => " or ",
            _ => ", ",
        };
        list.push_str(between)?;
        if index == MAX_LISTED {
            break;
        }
        list.push_str(word.as_str())?;
    }
    Ok(list)
}

/// The kinds of `type`, or the values of `enum`, as they are shown.
fn shown_each(alloc: Global, assertion: Assertion, values: &[Value]) -> Result<String, AllocError> {
    let mut words = Vec::new(alloc);
    for value in values {
        let word = match assertion {
            Assertion::Type => String::from_str(alloc, kind_word(value)),
            _ => shown(alloc, value),
        };
        words.push(word?)?;
    }
    listed(alloc, &words)
}

/// What stands before the argument of a limit.
fn limit_word(assertion: Assertion) -> &'static str {
    match assertion {
        Assertion::MultipleOf => "a multiple of ",
        Assertion::ExclusiveMaximum => "less than ",
        Assertion::ExclusiveMinimum => "more than ",
        Assertion::Maximum | Assertion::MaxLength => "at most ",
        Assertion::MaxItems | Assertion::MaxProperties => "at most ",
        Assertion::Minimum | Assertion::MinLength => "at least ",
        Assertion::MinItems | Assertion::MinProperties => "at least ",
        Assertion::Pattern => "a text that matches ",
        Assertion::Format => "a text in the format ",
        _ => "",
    }
}

/// What the argument of a limit counts.
fn counted_word(assertion: Assertion) -> &'static str {
    match assertion {
        Assertion::MaxLength | Assertion::MinLength => " character",
        Assertion::MaxItems | Assertion::MinItems => " element",
        Assertion::MaxProperties | Assertion::MinProperties => " key",
        _ => "",
    }
}

/// What an assertion expects, in words.
pub fn expected_by(
    alloc: Global,
    assertion: Assertion,
    argument: &Value,
) -> Result<String, AllocError> {
    match (assertion, argument) {
        (Assertion::Enum, Value::Array(values)) => shown_each(alloc, assertion, values),
        (Assertion::Type, Value::Array(kinds)) if !kinds.is_empty() => {
            shown_each(alloc, assertion, kinds)
        }
        (Assertion::Type, _) => String::from_str(alloc, kind_word(argument)),
        _ => expected_limit(alloc, assertion, argument),
    }
}

/// What a limit expects, in words.
fn expected_limit(
    alloc: Global,
    assertion: Assertion,
    argument: &Value,
) -> Result<String, AllocError> {
    let (before, behind) = (limit_word(assertion), counted_word(assertion));
    let argument = shown(alloc, argument)?;
    let many = if behind.is_empty() || argument.as_str() == "1" {
        ""
    } else {
        "s"
    };
    format!(in alloc; "{before}{argument}{behind}{many}")
}

/// What an assertion finds, in words: a count where it counts, and else the value.
pub fn found_by(alloc: Global, assertion: Assertion, value: &Value) -> error::Result<String> {
    let count = match assertion {
        Assertion::MaxLength | Assertion::MinLength => characters_in(value),
        Assertion::MaxItems | Assertion::MinItems => elements_in(value),
        Assertion::MaxProperties | Assertion::MinProperties => names_in(alloc, value)?,
        _ => None,
    };
    let words = match count {
        Some(count) => format!(in alloc; "{count}"),
        None => shown(alloc, value),
    };
    Ok(words?)
}
