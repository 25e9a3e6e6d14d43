//! Rows of schemas.

use crate::outcomes::{Outcome, said};
use crate::rows::text_of;
use json5_schema::{Part, Schema, SchemaFault};
use json5_types::error::Error;
use json5_types::value::Value;
use std::alloc::Global;

/// What comes of the row's schema, and of the documents that conform to it and that don't.
pub(crate) fn outcome_of(alloc: Global, row: &Value) -> Outcome {
    let schema = match taken(alloc, row, row.get("schema").unwrap_or(&Value::Null)) {
        Ok(schema) => schema,
        Err(fault) => return said(text_of(row, "fault"), format!(in alloc; "{fault}").ok()),
    };
    if let (Some(document), Some(Value::Array(lines))) = (row.get("document"), row.get("faults")) {
        return match lines_of(alloc, lines) {
            Ok(wanted) => said(wanted.as_str(), told(alloc, &schema, document).ok()),
            Err(_) => Outcome::NoMemory,
        };
    }
    match other_verdict(alloc, &schema, row) {
        Ok(None) if row.get("fault").is_none() => Outcome::Wanted,
        Ok(None) => said("", String::from_str(alloc, "the schema is taken").ok()),
        Ok(Some(document)) => shown(alloc, document),
        Err(error) => said("", format!(in alloc; "{error}").ok()),
    }
}

/// The row's schema, without keywords that are none if the row is strict, and asserting formats if it has `formats`.
fn taken(alloc: Global, row: &Value, schema: &Value) -> Result<Schema, SchemaFault> {
    match (row.get("strict"), row.get("formats")) {
        (None, None) => Schema::new(alloc, schema),
        (Some(_), None) => Schema::strict(alloc, schema),
        (None, Some(_)) => Schema::with_formats(alloc, schema),
        (Some(_), Some(_)) => Schema::strict_with_formats(alloc, schema),
    }
}

/// The lines that are wanted, one below the other.
fn lines_of(alloc: Global, lines: &[Value]) -> Result<String, Error> {
    let mut text = String::new(alloc);
    for line in lines {
        text.push_str(line.as_str().unwrap_or(""))?;
        text.push('\n')?;
    }
    Ok(text)
}

/// A line for each fault of the document: where it is, by which rule, and what is wrong.
fn told(alloc: Global, schema: &Schema, document: &Value) -> Result<String, Error> {
    let mut text = String::new(alloc);
    for fault in schema.faults(alloc, document)? {
        let pointer = fault.place.pointer(alloc)?;
        let part = match fault.place.part {
            Part::Key => "key of ",
            Part::Value => "",
        };
        let rule = fault.place.rule.as_str();
        text.push_str(format!(in alloc; "{part}`{pointer}` by `{rule}`: {fault}\n")?.as_str())?;
    }
    Ok(text)
}

/// The first document of which the schema says something else than the row.
fn other_verdict<'r>(
    alloc: Global,
    schema: &Schema,
    row: &'r Value,
) -> Result<Option<&'r Value>, Error> {
    match first_with(alloc, schema, row.get("conform"), false)? {
        Some(document) => Ok(Some(document)),
        None => first_with(alloc, schema, row.get("others"), true),
    }
}

/// The first of the documents of which the schema says this.
fn first_with<'r>(
    alloc: Global,
    schema: &Schema,
    documents: Option<&'r Value>,
    verdict: bool,
) -> Result<Option<&'r Value>, Error> {
    if let Some(Value::Array(documents)) = documents {
        for document in documents {
            let has_faults = !schema.faults(alloc, document)?.is_empty();
            if schema.accepts(alloc, document)? == verdict || has_faults != verdict {
                return Ok(Some(document));
            }
        }
    }
    Ok(None)
}

fn shown(alloc: Global, document: &Value) -> Outcome {
    match json5::to_string(alloc, document) {
        Ok(text) => Outcome::Other(text),
        Err(_) => Outcome::NoMemory,
    }
}
