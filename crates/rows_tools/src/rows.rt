//! What a row says.

use json5_types::value::Value;

/// The text of a field; none if it has no text.
pub(crate) fn text_of<'v>(row: &'v Value, field: &str) -> &'v str {
    match row.get(field) {
        Some(Value::String(text)) => text.as_str(),
        _ => "",
    }
}

/// The count in a field, if it has one.
pub(crate) fn count_of(row: &Value, field: &str) -> Option<usize> {
    match row.get(field) {
        Some(Value::Whole(whole)) => usize::try_from(whole.as_u128()?).ok(),
        _ => None,
    }
}

/// The text that is to come, or what is to be said where none does.
pub(crate) fn wanted_of(row: &Value) -> &str {
    match row.get("after") {
        Some(_) => text_of(row, "after"),
        None => text_of(row, "refused"),
    }
}
