//! Rows of documents that a described type takes exactly when its schema does.

use crate::gates::{Gate, Site};
use crate::outcomes::{Outcome, said};
use crate::rows::text_of;
use json5::from_str;
use json5_schema::{Schema, SchemaFault};
use json5_settings::described_schema;
use json5_types::error::Error;
use json5_types::value::Value;
use std::alloc::Global;

/// Whether the schema and the type take the row's text, or the schema itself where it has none.
pub(crate) fn outcome_of(alloc: Global, row: &Value) -> Outcome {
    match answer(alloc, text_of(row, "type"), text_of(row, "text")) {
        Ok(answer) => said(text_of(row, "answer"), Some(answer)),
        Err(error) => said(text_of(row, "answer"), format!(in alloc; "{error}").ok()),
    }
}

fn answer(alloc: Global, name: &str, text: &str) -> Result<String, SchemaFault> {
    let schema = schema_of(alloc, name)?;
    if text.is_empty() {
        return Ok(schema);
    }
    let value: Value = from_str(alloc, schema.as_str())?;
    let schema = Schema::strict(alloc, &value)?;
    let document: Value = from_str(alloc, text)?;
    let accepted = schema.accepts(alloc, &document)?;
    let taken = is_taken(alloc, name, text);
    Ok(format!(in alloc; "schema {accepted}, type {taken}")?)
}

fn schema_of(alloc: Global, name: &str) -> Result<String, Error> {
    match name {
        "site" => described_schema::<Site>(alloc),
        _ => described_schema::<Gate>(alloc),
    }
}

fn is_taken(alloc: Global, name: &str, text: &str) -> bool {
    match name {
        "site" => from_str::<Site>(alloc, text).is_ok(),
        _ => from_str::<Gate>(alloc, text).is_ok(),
    }
}
