//! The fault of a row.

use crate::rows::count_of;
use json5_read::read_document;
use json5_types::error::Error;
use json5_types::value::Value;
use json5_types::{ErrorCode, Position};
use std::alloc::{AllocError, Global};

/// The codes of typed reads, which rows name by their words.
const CODES: [ErrorCode; 15] = [
    ErrorCode::ExpectedBool,
    ErrorCode::ExpectedNumber,
    ErrorCode::ExpectedString,
    ErrorCode::ExpectedStringOrObject,
    ErrorCode::ExpectedOpeningBrace,
    ErrorCode::ExpectedOpeningBracket,
    ErrorCode::ExpectedClosingBrace,
    ErrorCode::ExpectedClosingBracket,
    ErrorCode::InvalidBytes,
    ErrorCode::EofParsingNumber,
    ErrorCode::EofParsingString,
    ErrorCode::EofParsingBool,
    ErrorCode::TooDeep,
    ErrorCode::OutOfMemory,
    ErrorCode::Failed,
];

/// The fault that the row names, or that of reading the text as a document; none if it is one.
pub fn error_of(alloc: Global, row: &Value, text: &str) -> Result<Option<Error>, AllocError> {
    let Some(Value::String(said)) = row.get("said") else {
        return Ok(read_document(alloc, text).err());
    };
    let error = match code_of(said.as_str()) {
        Some(code) => Error::new(code),
        None => Error::from_text(String::from_str(alloc, said.as_str())?),
    };
    Ok(Some(placed(error, row)))
}

/// The fault at the position of the row, which counts from 1, if it has one.
fn placed(error: Error, row: &Value) -> Error {
    match (count_of(row, "line"), count_of(row, "column")) {
        (Some(line), Some(column)) => error.at(Position {
            line: line.saturating_sub(1),
            column: column.saturating_sub(1),
        }),
        _ => error,
    }
}

/// The code with these words.
fn code_of(words: &str) -> Option<ErrorCode> {
    for code in &CODES {
        if code.as_str() == words {
            return Some(*code);
        }
    }
    None
}
