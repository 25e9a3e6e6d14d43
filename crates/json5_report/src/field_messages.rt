//! What is said of the faulty fields of one object.
//!
//! Plain code, of which no promise is made but that it is safe and ends: change it by the rows of reports, which judge it.

use crate::lexemes::Lexeme;
use crate::members::member_keys;
use crate::path::{is_named, unquoted};
use crate::place::{offset_of, position_of};
use json5_types::error::Error;
use std::alloc::{AllocError, Global};

/// What is said of the faulty fields of the object at the error, if that is one of a field; else nothing.
pub(crate) fn field_messages(
    alloc: Global,
    text: &str,
    error: &Error,
    known: &[&str],
    required: &[&str],
) -> Result<Vec<String>, AllocError> {
    let mut messages = Vec::new(alloc);
    let said = error.message();
    let is_present = said.starts_with("unknown field `") || said.starts_with("duplicate field `");
    if !is_present && !said.starts_with("missing field `") {
        return Ok(messages);
    }
    let keys = member_keys(alloc, text, offset_of(text, position_of(text, error)))?;
    let object = Object {
        alloc,
        text,
        keys: &keys,
    };
    object.present(known, &mut messages)?;
    object.missing(required, &mut messages)?;
    Ok(messages)
}

/// An object of a text, by its keys.
#[derive(Clone, Copy)]
struct Object<'t> {
    alloc: Global,
    text: &'t str,
    keys: &'t [Lexeme],
}

impl Object<'_> {
    /// Adds what is said of the fields that are unknown, or stand twice.
    fn present(self, known: &[&str], messages: &mut Vec<String>) -> Result<(), AllocError> {
        let (alloc, keys) = (self.alloc, self.keys);
        for index in 0..keys.len() {
            let Some(key) = keys.get(index) else {
                return Ok(());
            };
            let field = unquoted(key.of(self.text));
            let before = self.count(keys.get(..index).unwrap_or(keys), field);
            if is_among(known, field) {
                if before == 1 {
                    messages.push(format!(in alloc; "duplicate field `{field}`")?)?;
                }
            } else if before == 0 {
                messages.push(unknown_message(alloc, field, known)?)?;
            }
        }
        Ok(())
    }

    /// Adds what is said of the required fields that are missing.
    fn missing(self, required: &[&str], messages: &mut Vec<String>) -> Result<(), AllocError> {
        let alloc = self.alloc;
        for field in required {
            if self.count(self.keys, *field) == 0 {
                messages.push(format!(in alloc; "missing field `{field}`")?)?;
            }
        }
        Ok(())
    }

    /// How many of the keys have this name.
    fn count(self, keys: &[Lexeme], field: &str) -> usize {
        let mut count: usize = 0;
        for key in keys {
            if is_named(self.text, *key, field) {
                count = count.saturating_add(1);
            }
        }
        count
    }
}

fn is_among(names: &[&str], name: &str) -> bool {
    for one in names {
        if *one == name {
            return true;
        }
    }
    false
}

/// What is said of an unknown field.
fn unknown_message(alloc: Global, field: &str, known: &[&str]) -> Result<String, AllocError> {
    let mut message = format!(in alloc; "unknown field `{field}`")?;
    let mut lead = ", expected one of ";
    for name in known {
        write!(message, "{lead}`{name}`")?;
        lead = ", ";
    }
    Ok(message)
}
