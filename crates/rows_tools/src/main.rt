//! Answers rows of edits, of patches, of tidying, of reports, of schemas, of settings, of conversions, of types, and of schemas
//! of described structs. Standard input has all rows in one document, and what is said of each is whether what came is what
//! the row says.
#![tactic(auto)]

mod converts;
mod described;
mod described_schemas;
mod edits;
mod example;
mod faults;
mod gates;
mod kinds;
mod known;
mod outcomes;
mod patches;
mod plain_readers;
mod reports;
mod rows;
mod schemas;
mod streams;
mod tidies;
mod typed;
mod updates;

use json5_read::read_document;
use json5_types::value::Value;
use outcomes::Outcome;
use rows::text_of;
use std::alloc::Global;
use std::io::{self, Read};
use std::process::ExitCode;

fn main(rt: HostRuntime) -> ExitCode {
    match answer(&rt) {
        Ok(()) => ExitCode::SUCCESS,
        Err(_) => ExitCode::from(2),
    }
}

/// Reads the document, and works on the rows of each tool.
fn answer(rt: &HostRuntime) -> io::Result<()> {
    let text = io::read_to_string(rt.alloc(), rt.stdin())?;
    match read_document(rt.alloc(), text.as_str()) {
        Ok(document) => each_tool(rt, &document),
        Err(error) => println!(rt; "the rows: {error}"),
    }
}

fn each_tool(rt: &HostRuntime, document: &Value) -> io::Result<()> {
    each_row(rt, document, "edit")?;
    each_row(rt, document, "patch")?;
    each_row(rt, document, "tidy")?;
    each_row(rt, document, "report")?;
    each_row(rt, document, "schema")?;
    each_row(rt, document, "update")?;
    each_row(rt, document, "convert")?;
    each_row(rt, document, "typed")?;
    each_row(rt, document, "described")
}

fn each_row(rt: &HostRuntime, document: &Value, tool: &str) -> io::Result<()> {
    let Some(Value::Array(rows)) = document.get(tool) else {
        return println!(rt; "no rows of {tool}");
    };
    for row in rows {
        let name = text_of(row, "name");
        match outcome_of(rt.alloc(), document, tool, row) {
            Outcome::Wanted => println!(rt; "{name}: right")?,
            Outcome::WantedJson => println!(rt; "{name}: right, and the same JSON")?,
            Outcome::NoJson => println!(rt; "{name}: no JSON")?,
            Outcome::OtherJson => println!(rt; "{name}: WRONG: other JSON, or none")?,
            Outcome::Other(other) => println!(rt; "{name}: WRONG: {other:?}")?,
            Outcome::NoMemory => println!(rt; "{name}: out of memory")?,
        }
    }
    Ok(())
}

fn outcome_of(alloc: Global, document: &Value, tool: &str, row: &Value) -> Outcome {
    match tool {
        "edit" => edits::outcome_of(alloc, row),
        "patch" => patches::outcome_of(alloc, row),
        "tidy" => tidies::outcome_of(alloc, row),
        "schema" => schemas::outcome_of(alloc, row),
        "update" => updates::outcome_of(alloc, row),
        "convert" => converts::outcome_of(alloc, row),
        "typed" => typed::outcome_of(alloc, row),
        "described" => described_schemas::outcome_of(alloc, row),
        _ => reports::outcome_of(alloc, text_of(document, "base"), row),
    }
}
