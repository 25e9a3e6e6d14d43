//! Rows of tidying. What JSON becomes is read by `serde_json` too, and is to have the value that it had, unless last
//! commas are always to come.

use crate::outcomes::{Outcome, said};
use crate::rows::{count_of, text_of, wanted_of};
use json5_tidy::{LastCommas, LineEnds, Stars, Style, tidy_with};
use json5_types::value::Value;
use std::alloc::Global;

/// What comes of the row's text.
pub(crate) fn outcome_of(alloc: Global, row: &Value) -> Outcome {
    let wanted = wanted_of(row);
    let (style, before) = (style_of(row), text_of(row, "before"));
    match tidy_with(alloc, style, before) {
        Ok(tidy) if tidy.as_str() != wanted => Outcome::Other(tidy),
        Ok(_) if matches!(style.last_commas, LastCommas::Always) => Outcome::Wanted,
        Ok(tidy) => compared(alloc, before, tidy.as_str()),
        Err(error) => said(wanted, format!(in alloc; "{error}").ok()),
    }
}

/// What serde_json makes of the text, a byte order mark in front passed over, and of the wanted one that came.
fn compared(alloc: Global, before: &str, after: &str) -> Outcome {
    let before = before.strip_prefix('\u{FEFF}').unwrap_or(before);
    let Ok(value) = serde_json::Value::from_str(alloc, before) else {
        return Outcome::Wanted;
    };
    match serde_json::Value::from_str(alloc, after) {
        Ok(same) if same == value => Outcome::WantedJson,
        _ => Outcome::OtherJson,
    }
}

/// The style of a row: the usual one, but for what the row says.
fn style_of(row: &Value) -> Style {
    let usual = Style::usual();
    Style {
        indent: count_of(row, "indent").unwrap_or(usual.indent),
        width: count_of(row, "width").unwrap_or(usual.width),
        last_commas: match text_of(row, "last_commas") {
            "always" => LastCommas::Always,
            "never" => LastCommas::Never,
            _ => usual.last_commas,
        },
        tab_width: count_of(row, "tab_width").unwrap_or(usual.tab_width),
        stars: match text_of(row, "stars") {
            "keep" => Stars::Keep,
            _ => usual.stars,
        },
        line_ends: match text_of(row, "line_ends") {
            "lf" => LineEnds::Lf,
            "crlf" => LineEnds::CrLf,
            _ => usual.line_ends,
        },
        final_line_end: text_of(row, "final_line_end") != "no",
    }
}
