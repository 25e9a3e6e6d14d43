//! Reading a schema.

ghost use Rattle.std.specs.Prelude.{IfOk, Some, string_bytes};
ghost use Rattle.json5_types.specs.ValueMeanings.{value_of};
ghost use Rattle.cli_check.specs.Schemas.{TakesFile, TakesHeld};
ghost use Rattle.cli_check.specs.SchemaSteps.{IsOfRefusal, IsOfValue, TakesDrafted, TakesValue};

use crate::drafts::with_draft;
use crate::faults::report_at;
use crate::options::Options;
use crate::places::{Sought, find_all};
use crate::trouble::{SchemaCause, SchemaTrouble};
use crate::verdict::Source;
use cli_files::{Failure, Reason, Store, read_whole, shown};
use json5_read::read_document;
use json5_report::Report;
use json5_schema::{Problem, Schema, SchemaFault};
use json5_types::error::{Error, Result as Made};
use json5_types::value::Value;
use std::alloc::Global;
use std::io::Read;

/// Reads the schema in the file with this name.
pub(crate) fn read_schema<S: Store>(
    store: &S,
    alloc: Global,
    options: &Options,
    file: &str,
) -> Result<Schema, SchemaTrouble>
    ensures { TakesFile (S.known store.now) options.now file.now result }
{
    match store.open(file) {
        Ok(mut opened) => schema_in(alloc, options, file, &mut opened),
        Err(e) => Err(SchemaTrouble::because(
            SchemaCause::Unopened,
            unopened(alloc, file, Reason::of(&e)),
        )),
    }
}

/// The schema in a reader.
fn schema_in<R: Read>(
    alloc: Global,
    options: &Options,
    file: &str,
    r: &mut R,
) -> Result<Schema, SchemaTrouble>
    ensures { TakesHeld options.now (R.remaining r.old) result }
{
    match read_whole(alloc, r) {
        Ok(bytes) => schema_of_bytes(alloc, options, file, bytes),
        Err(Failure::Read) => Err(SchemaTrouble::Read),
        Err(_) => Err(SchemaTrouble::NoMemory),
    }
}

/// The schema in bytes.
fn schema_of_bytes(
    alloc: Global,
    options: &Options,
    file: &str,
    bytes: Vec<u8>,
) -> Result<Schema, SchemaTrouble>
    ensures { TakesHeld options.now (Some bytes.items) result }
{
    match String::from_utf8(bytes) {
        Ok(text) => schema_of_text(alloc, options, file, text),
        Err(e) => Err(SchemaTrouble::because(
            SchemaCause::NoDocument,
            wrong_bytes(alloc, file, e.as_bytes()),
        )),
    }
}

/// The schema in a text.
fn schema_of_text(
    alloc: Global,
    options: &Options,
    file: &str,
    text: String,
) -> Result<Schema, SchemaTrouble>
    ensures { TakesHeld options.now (Some (string_bytes text)) result }
{
    let source = Source {
        name: file,
        text: text.as_str(),
    };
    match read_document(alloc, text.as_str()) {
        Ok(value) => schema_of_value(alloc, options, source, value),
        Err(error) => Err(refuse(alloc, source, error)),
    }
}

/// Why a text that is refused so isn't taken.
fn refuse(alloc: Global, source: Source<'_>, error: Error) -> SchemaTrouble
    ensures { IsOfRefusal error result }
{
    match Failure::at(error) {
        Failure::Text(error) => SchemaTrouble::because(
            SchemaCause::NoDocument,
            refused(alloc, source, &error),
        ),
        _ => SchemaTrouble::NoMemory,
    }
}

/// The schema that the value of this document is, of the draft that is asked for where it names none.
fn schema_of_value(
    alloc: Global,
    options: &Options,
    source: Source<'_>,
    value: Value,
) -> Result<Schema, SchemaTrouble>
    ensures { TakesValue options.now (value_of value) result }
{
    match with_draft(alloc, options.draft, value) {
        Ok(value) => schema_drafted(alloc, options, source, &value),
        Err(_) => Err(SchemaTrouble::NoMemory),
    }
}

/// The schema that this value is, which names its draft if one is asked for.
fn schema_drafted(
    alloc: Global,
    options: &Options,
    source: Source<'_>,
    value: &Value,
) -> Result<Schema, SchemaTrouble>
    ensures { TakesDrafted options.now (value_of value.now) result }
{
    match taken(alloc, options, value) {
        Ok(schema) => Ok(schema),
        Err(SchemaFault::At(pointer, problem)) => Err(SchemaTrouble::because(
            SchemaCause::Faulty,
            faulty(alloc, source, pointer.as_str(), problem),
        )),
        Err(SchemaFault::Value(_)) => Err(SchemaTrouble::NoMemory),
    }
}

/// Takes the value as a schema: one that asserts formats with `--format assert`, and of known keywords alone with `--strict`.
fn taken(alloc: Global, options: &Options, value: &Value) -> Result<Schema, SchemaFault>
    ensures { IfOk result (IsOfValue options.now (value_of value.now)) }
{
    match (options.is_strict, options.asserts_formats) {
        (false, false) => Schema::new(alloc, value),
        (false, true) => Schema::with_formats(alloc, value),
        (true, false) => Schema::strict(alloc, value),
        (true, true) => Schema::strict_with_formats(alloc, value),
    }
}

/// That the file can't be opened.
fn unopened(alloc: Global, file: &str, why: Reason) -> Made<String> {
    let file = shown(alloc, file)?;
    Ok(format!(in alloc; "{file}: the schema cannot be read{}", why.words())?)
}

/// That the bytes are no text.
fn wrong_bytes(alloc: Global, file: &str, bytes: &[u8]) -> Made<String> {
    let file = shown(alloc, file)?;
    match Report::of_bytes(alloc, file.as_str(), bytes)? {
        Some(report) => Ok(format!(in alloc; "{report}")?),
        None => Ok(format!(in alloc; "{file}: not UTF-8")?),
    }
}

/// That the text is no document.
fn refused(alloc: Global, source: Source<'_>, error: &Error) -> Made<String> {
    let name = shown(alloc, source.name)?;
    let report = Report::new(alloc, name.as_str(), source.text, error)?;
    Ok(format!(in alloc; "{report}")?)
}

/// That the document is no schema.
fn faulty(alloc: Global, source: Source<'_>, pointer: &str, problem: Problem) -> Made<String> {
    let mut place = [Sought::new(alloc, pointer)?];
    find_all(alloc, source.text, &mut place)?;
    let report = report_at(alloc, source, place[0].spot.key, problem)?;
    Ok(format!(in alloc; "{report}")?)
}
