//! The schema that a document names by its key `$schema`.

ghost use Rattle.std.specs.Prelude.{◌≡◌, option_map};
ghost use Rattle.std.specs.Str.{chars};
ghost use Rattle.json5_types.specs.ValueMeanings.{value_of};
ghost use Rattle.cli_check.specs.Naming.{schema_key};
ghost use Rattle.cli_check.specs.Schemas.{TakesNamed, TakesOwn};

use crate::lines::title;
use crate::naming::schema_file;
use crate::options::Options;
use crate::schemas::read_schema;
use crate::trouble::{SchemaCause, SchemaTrouble};
use cli_files::{Store, shown};
use json5_schema::Schema;
use json5_types::error::Result as Made;
use json5_types::value::Value;
use std::alloc::Global;

/// The schema that the document with this name and this value names.
pub(crate) fn own_schema<S: Store>(
    store: &S,
    alloc: Global,
    options: &Options,
    name: &str,
    value: &Value,
) -> Result<Schema, SchemaTrouble>
    ensures { TakesOwn (S.known store.now) options.now name.now (value_of value.now) result }
{
    match schema_key(value) {
        Some(schema) => schema_named(store, alloc, options, name, schema),
        None => Err(SchemaTrouble::because(SchemaCause::Unnamed, unnamed(alloc, name))),
    }
}

/// What the key `$schema` says, if it is a text.
fn schema_key(value: &Value) -> Option<&str>
    ensures { option_map (λ s. chars s.now) result ≡ schema_key (value_of value.now) }
{
    match value.get("$schema") {
        Some(schema) => schema.as_str(),
        None => None,
    }
}

/// The schema that the document with this name calls so.
fn schema_named<S: Store>(
    store: &S,
    alloc: Global,
    options: &Options,
    name: &str,
    schema: &str,
) -> Result<Schema, SchemaTrouble>
    ensures { TakesNamed (S.known store.now) options.now name.now schema.now result }
{
    match schema_file(alloc, options.maps.as_slice(), name, schema) {
        Ok(Some(file)) => read_schema(store, alloc, options, file.as_str()),
        Ok(None) => Err(SchemaTrouble::because(
            SchemaCause::Elsewhere,
            elsewhere(alloc, name, schema),
        )),
        Err(_) => Err(SchemaTrouble::NoMemory),
    }
}

/// That the document names no schema.
fn unnamed(alloc: Global, name: &str) -> Made<String> {
    let name = shown(alloc, title(name))?;
    Ok(format!(in alloc;
        "{name}: names no schema: give one by --schema, or by the key `$schema` in it"
    )?)
}

/// That the document's schema is at a URL.
fn elsewhere(alloc: Global, name: &str, schema: &str) -> Made<String> {
    let name = shown(alloc, title(name))?;
    let schema = shown(alloc, schema)?;
    Ok(format!(in alloc;
        "{name}: its schema isn't fetched: give a file by --schema FILE, or by --map {schema}=FILE"
    )?)
}
