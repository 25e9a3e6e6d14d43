//! One document: read, and held against its schema.

ghost use Rattle.std.specs.Bool.{Decides};
ghost use Rattle.std.specs.Prelude.{◌≡◌, None, string_bytes};
ghost use lib.Chars.{codes};
ghost use Rattle.json5_schema.specs.Views.{schema_of};
ghost use Rattle.json5_types.specs.ValueMeanings.{value_of};
ghost use Rattle.cli_check.specs.Checks.{JudgesBy, JudgesFile, JudgesInput, JudgesText, JudgesValue, given_schema};
ghost use Rattle.cli_check.specs.Troubles.{Refuses, RefusesError};

use crate::choosing::own_schema;
use crate::faults::{show_bytes, show_faults, show_refusal};
use crate::options::Options;
use crate::trouble::{Trouble, Unshown};
use crate::verdict::{Source, Verdict};
use cli_files::{Failure, Reason, Store, read_whole};
use json5_read::read_document;
use json5_schema::Schema;
use json5_types::error::Error;
use json5_types::value::Value;
use std::alloc::Global;
use std::io::{Read, Write};

/// Holds the document in the file with this name, or that in `r` where it is `-`, against the schema that is given, or else its own.
pub(crate) fn check_file<S: Store, R: Read, W: Write>(
    store: &S,
    alloc: Global,
    options: &Options,
    given: Option<&Schema>,
    name: &str,
    r: &mut R,
    w: &mut W,
) -> Result<Verdict, Trouble>
    ensures { JudgesFile (S.known store.now) (given_schema given.entry) options.now
        (R.remaining r.old) name.now (R.remaining r.new) result }
{
    if is_stdin(name) {
        return check_input(store, alloc, options, given, name, r, w);
    }
    match store.open(name) {
        Ok(mut file) => check_input(store, alloc, options, given, name, &mut file, w),
        Err(e) => Err(Trouble::Unopened(Reason::of(&e))),
    }
}

/// Whether the name is that of standard input.
pub(crate) fn is_stdin(name: &str) -> bool
    ensures { Decides result (name.now ≡ codes "-") }
{
    name == "-"
}

/// The same of the document in a reader.
fn check_input<S: Store, R: Read, W: Write>(
    store: &S,
    alloc: Global,
    options: &Options,
    given: Option<&Schema>,
    name: &str,
    r: &mut R,
    w: &mut W,
) -> Result<Verdict, Trouble>
    ensures { JudgesInput (S.known store.now) (given_schema given.entry) options.now name.now (R.remaining r.old) result }
{
    match read_whole(alloc, r) {
        Ok(bytes) => check_bytes(store, alloc, options, given, name, bytes, w),
        Err(failure) => Err(Trouble::of_read(failure)),
    }
}

/// The same of the document in bytes.
fn check_bytes<S: Store, W: Write>(
    store: &S,
    alloc: Global,
    options: &Options,
    given: Option<&Schema>,
    name: &str,
    bytes: Vec<u8>,
    w: &mut W,
) -> Result<Verdict, Trouble>
    ensures { JudgesText (S.known store.now) (given_schema given.entry) options.now name.now bytes.items result }
{
    match String::from_utf8(bytes) {
        Ok(text) => check_text(store, alloc, options, given, name, text, w),
        Err(e) => told(show_bytes(alloc, options, name, e.as_bytes(), w)),
    }
}

/// The same of the document in a text.
fn check_text<S: Store, W: Write>(
    store: &S,
    alloc: Global,
    options: &Options,
    given: Option<&Schema>,
    name: &str,
    text: String,
    w: &mut W,
) -> Result<Verdict, Trouble>
    ensures { JudgesText (S.known store.now) (given_schema given.entry) options.now name.now (string_bytes text) result }
{
    let source = Source {
        name,
        text: text.as_str(),
    };
    match read_document(alloc, text.as_str()) {
        Ok(value) => check_value(store, alloc, options, given, source, &value, w),
        Err(error) => refuse(alloc, options, source, error, w),
    }
}

/// Holds the value of a document against the schema that is given, or else its own.
fn check_value<S: Store, W: Write>(
    store: &S,
    alloc: Global,
    options: &Options,
    given: Option<&Schema>,
    source: Source<'_>,
    value: &Value,
    w: &mut W,
) -> Result<Verdict, Trouble>
    ensures { JudgesValue (S.known store.now) (given_schema given.entry) options.now source.entry.name.now
        (value_of value.now) result }
{
    match given {
        Some(schema) => judge(alloc, options, schema, source, value, w),
        None => check_by_own(store, alloc, options, source, value, w),
    }
}

/// Holds the value of a document against the schema that it names.
fn check_by_own<S: Store, W: Write>(
    store: &S,
    alloc: Global,
    options: &Options,
    source: Source<'_>,
    value: &Value,
    w: &mut W,
) -> Result<Verdict, Trouble>
    ensures { JudgesValue (S.known store.now) None options.now source.entry.name.now (value_of value.now) result }
{
    match own_schema(store, alloc, options, source.name, value) {
        Ok(schema) => judge(alloc, options, &schema, source, value, w),
        Err(trouble) => Err(Trouble::Schema(trouble)),
    }
}

/// Holds the value against the schema, and shows what is wrong with it.
fn judge<W: Write>(
    alloc: Global,
    options: &Options,
    schema: &Schema,
    source: Source<'_>,
    value: &Value,
    w: &mut W,
) -> Result<Verdict, Trouble>
    ensures { JudgesBy (schema_of schema.now) (value_of value.now) result }
{
    match schema.accepts(alloc, value) {
        Ok(true) => Ok(Verdict::Conforms),
        Ok(false) => told(show_faults(alloc, options, schema, source, value, w)),
        Err(error) => Err(Trouble::Undecided(error)),
    }
}

/// What is said of a document of which this was shown.
fn told(shown: Result<(), Unshown>) -> Result<Verdict, Trouble>
    ensures { Refuses result }
{
    match shown {
        Ok(()) => Ok(Verdict::Differs),
        Err(unshown) => Err(Trouble::of_unshown(unshown)),
    }
}

/// Shows why a text is no document, unless it is one and memory ran out.
fn refuse<W: Write>(
    alloc: Global,
    options: &Options,
    source: Source<'_>,
    error: Error,
    w: &mut W,
) -> Result<Verdict, Trouble>
    ensures { RefusesError error result }
{
    match Failure::at(error) {
        Failure::Text(error) => told(show_refusal(alloc, options, source, &error, w)),
        _ => Err(Trouble::NoMemory),
    }
}
