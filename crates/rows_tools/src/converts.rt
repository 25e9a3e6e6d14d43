//! Rows of conversions. JSON that comes has to be read by `serde_json` too, without its comments.

use crate::outcomes::{Outcome, said};
use crate::plain_readers::reads_as_json;
use crate::rows::{text_of, wanted_of};
use crate::streams;
use json5::Layout;
use json5_convert::{
    Keys, LastCommas, Numbers, Quotes, Spelling, from_toml, respell, to_toml, to_toml_with_dates,
};
use json5_read::read_document;
use json5_types::error::Result;
use json5_types::value::Value;
use std::alloc::Global;

/// What comes of the row's text.
pub(crate) fn outcome_of(alloc: Global, row: &Value) -> Outcome {
    let (wanted, before, to) = (wanted_of(row), text_of(row, "before"), text_of(row, "to"));
    if to == "lines" {
        return streams::outcome_of(alloc, row);
    }
    if let Some(made) = written(alloc, row, to, before) {
        return match made {
            Ok(made) => judged(made, wanted),
            Err(error) => said(wanted, format!(in alloc; "{error}").ok()),
        };
    }
    let spelling = spelling_of(row, to);
    match respell(alloc, before, spelling) {
        Ok(made) if is_json(to) && !reads_as_json(alloc, to == "jsonc", made.as_str()) =>
            Outcome::NoJson,
        Ok(made) => judged(made, wanted),
        Err(error) => said(wanted, format!(in alloc; "{error}").ok()),
    }
}

fn is_json(to: &str) -> bool {
    to == "json" || to == "jsonc"
}

fn judged(made: String, wanted: &str) -> Outcome {
    if made.as_str() == wanted {
        Outcome::Wanted
    } else {
        Outcome::Other(made)
    }
}

/// What is written of the text's value, where no token is spelled anew.
fn written(alloc: Global, row: &Value, to: &str, text: &str) -> Option<Result<String>> {
    match (text_of(row, "from"), to) {
        ("toml", "toml") => Some(toml_again(alloc, row, text)),
        ("toml", _) => Some(compact_of_toml(alloc, text)),
        (_, "toml") => Some(toml_of(alloc, row, text)),
        _ => None,
    }
}

/// The value of the TOML text, as JSON5 on one line.
fn compact_of_toml(alloc: Global, text: &str) -> Result<String> {
    json5::to_string_in(alloc, Layout::compact(), &from_toml(alloc, text)?)
}

/// The JSON5 text's value as TOML.
fn toml_of(alloc: Global, row: &Value, text: &str) -> Result<String> {
    made_toml(alloc, row, &read_document(alloc, text)?)
}

/// The TOML text's value as TOML.
fn toml_again(alloc: Global, row: &Value, text: &str) -> Result<String> {
    made_toml(alloc, row, &from_toml(alloc, text)?)
}

/// The value as TOML, with dates where the row asks for them.
fn made_toml(alloc: Global, row: &Value, value: &Value) -> Result<String> {
    match row.get("dates") {
        Some(_) => to_toml_with_dates(alloc, value),
        None => to_toml(alloc, value),
    }
}

/// The spelling of a row, where each choice may be made alone.
fn spelling_of(row: &Value, to: &str) -> Spelling {
    let usual = match to {
        "json" => Spelling::json().without_comments(),
        "jsonc" => Spelling::json(),
        _ => Spelling::json5(),
    };
    Spelling {
        strings: match text_of(row, "strings") {
            "own" => Quotes::Own,
            "json" => Quotes::Json,
            _ => usual.strings,
        },
        keys: match text_of(row, "keys") {
            "own" => Keys::Own,
            "quoted" => Keys::Quoted,
            _ => usual.keys,
        },
        numbers: match text_of(row, "numbers") {
            "json" => Numbers::Json,
            _ => usual.numbers,
        },
        last_commas: match text_of(row, "last_commas") {
            "never" => LastCommas::Never,
            "lines" => LastCommas::Lines,
            _ => usual.last_commas,
        },
        ..usual
    }
}
