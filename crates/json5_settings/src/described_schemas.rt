//! The schema of a type that is read.

ghost use Rattle.std.specs.Prelude.{IfErr, IfOk, codes, length, string_bytes, true, ◌≡◌};
ghost use Rattle.json5_types.specs.Errors.{LacksMemory};
ghost use Rattle.json5_types.specs.ValueMeanings.{Fields, Items, array, fields_view, items_view, no_field};
ghost use Rattle.json5_de.specs.Convert.{names_bytes};
ghost use Rattle.json5_fields.specs.Named.{one_named};
ghost use Rattle.json5_settings.specs.AddedFields.{MakesBy};
ghost use Rattle.json5_settings.specs.AsciiNames.{are_ascii, fit_together};
ghost use Rattle.json5_settings.specs.DescribedSchemas.{Describes, IsSchemaOf, RefusesSchema, Says, SaysOfTexts, SaysOpenStruct, SaysStruct, fields_keywords, keyword, members_keywords, names_schema, open_struct_schema, struct_schema, texts_of};

use crate::described::{Described, Keywords, keyword_alone, put_keyword, with_kind};
use crate::described_fields::{DescribedFields, FieldSchemas};
use crate::schemas::DRAFT;
use json5_styles::to_json;
use json5_tokens::input::Input;
use json5_types::error::Result;
use json5_types::value::Value;
use std::alloc::Global;

/// Returns a JSON Schema of the values that the type takes. It is JSON, two spaces a level.
///
/// ```text
/// let schema = described_schema::<Server>(alloc)?;
/// ```
///
/// ```text
/// {
///   "$schema": "http://json-schema.org/draft-07/schema#",
///   "type": "object",
///   "properties": {
///     "port": {
///       "type": "integer",
///       "minimum": 0,
///       "maximum": 65535
///     }
///   },
///   "required": [],
///   "additionalProperties": false
/// }
/// ```
///
/// # Errors
///
/// - `TooDeep` where more than 128 brackets are open at once in the schema.
/// - `OutOfMemory` where a request for memory was refused.
pub fn described_schema<T: Described<&'static str>>(alloc: Global) -> Result<String>
    ensures made { IfOk result (λ made. IsSchemaOf T.keywords (string_bytes made)) }
    ensures says { SaysOfTexts T.keywords T.convert }
    ensures refused { IfErr result (RefusesSchema T.keywords) }
{
    written(alloc, T::keywords(alloc))
}

/// The schema with these keywords, as a text.
fn written(alloc: Global, keywords: Result<Keywords>) -> Result<String>
    ensures made { (kw : Fields) → IfOk keywords (λ made. fields_view made.items ≡ kw) → IfOk result (λ made. IsSchemaOf kw (string_bytes made)) }
    ensures refused { (kw : Fields) → IfOk keywords (λ made. fields_view made.items ≡ kw) → IfErr keywords LacksMemory → IfErr result (RefusesSchema kw) }
{
    let mut keywords = keywords?;
    let draft = String::from_str(alloc, DRAFT)?;
    put_keyword(alloc, &mut keywords, "$schema", Value::String(draft))?;
    to_json(alloc, &Value::Object(keywords))
}

/// The keywords of a struct of these fields, as it is read by `read_struct`: other members may have any value.
///
/// ```text
/// fn keywords(alloc: Global) -> Result<Keywords> {
///     struct_keywords::<I, Values, Parts>(alloc, (Required("host"), WithDefault("port", 80)))
/// }
/// ```
///
/// # Errors
///
/// `OutOfMemory` where a request for memory was refused.
pub fn struct_keywords<I: Input, V: Drop, F: DescribedFields<I, V>>(
    alloc: Global,
    fields: F,
) -> Result<Keywords>
    requires { fit_together (F.layout (F.shape fields)).names ≡ true }
    ensures made { IfOk result (λ made. fields_view made.items ≡ open_struct_schema (F.layout (F.shape fields)).names F.kinds) }
    ensures says { SaysOpenStruct (F.layout (F.shape fields)) F.kinds }
    ensures refused { IfErr result LacksMemory }
{
    with_members::<I, V, F>(alloc, fields, Ok(Vec::new(alloc)))
}

/// The keywords of a struct that has these fields alone, as it is read by `read_struct_only`.
///
/// ```text
/// fn keywords(alloc: Global) -> Result<Keywords> {
///     struct_only_keywords::<I, Values, Parts>(alloc, (Required("host"), WithDefault("port", 80)))
/// }
/// ```
///
/// # Errors
///
/// `OutOfMemory` where a request for memory was refused.
pub fn struct_only_keywords<I: Input, V: Drop, F: DescribedFields<I, V>>(
    alloc: Global,
    fields: F,
) -> Result<Keywords>
    requires { fit_together (F.layout (F.shape fields)).names ≡ true }
    ensures made { IfOk result (λ made. fields_view made.items ≡ struct_schema (F.layout (F.shape fields)).names F.kinds) }
    ensures says { SaysStruct (F.layout (F.shape fields)) F.kinds }
    ensures refused { IfErr result LacksMemory }
{
    let no_others = keyword_alone(alloc, "additionalProperties", Value::Bool(false));
    with_members::<I, V, F>(alloc, fields, no_others)
}

/// The keywords of an object of these fields, before others.
fn with_members<I: Input, V: Drop, F: DescribedFields<I, V>>(
    alloc: Global,
    fields: F,
    others: Result<Keywords>,
) -> Result<Keywords>
    ensures made { MakesBy (fields_keywords (F.layout (F.shape fields)).names F.kinds) others result }
    ensures describes { Describes (F.layout (F.shape fields)) F.kinds }
{
    let mut schemas = FieldSchemas {
        properties: Vec::new(alloc),
        required: Vec::new(alloc),
    };
    match fields.describe(alloc, &mut schemas) {
        Ok(()) => put_members(alloc, schemas, others),
        Err(e) => Err(e),
    }
}

/// The keywords of an object of fields with these schemas, before others.
fn put_members(alloc: Global, schemas: FieldSchemas, others: Result<Keywords>) -> Result<Keywords>
    ensures made { MakesBy (members_keywords (fields_view schemas.properties.items) (items_view schemas.required.items)) others result }
{
    let mut keywords = others?;
    let FieldSchemas {
        properties,
        required,
    } = schemas;
    put_keyword(alloc, &mut keywords, "required", Value::Array(required))?;
    put_keyword(
        alloc,
        &mut keywords,
        "properties",
        Value::Object(properties),
    )?;
    with_kind(alloc, "object", keywords)
}

/// The keywords of a string that is one of these names, as it is read by `one_of_names`.
///
/// ```text
/// fn keywords(alloc: Global) -> Result<Keywords> {
///     names_keywords(alloc, &["low", "high"], &[Level::Low, Level::High])
/// }
/// ```
///
/// # Errors
///
/// `OutOfMemory` where a request for memory was refused.
pub fn names_keywords<T: Copy>(alloc: Global, names: &[&str], values: &[T]) -> Result<Keywords>
    requires ascii { are_ascii (names_bytes names.now) ≡ true }
    requires values { length values.now ≡ length names.now }
    ensures made { IfOk result (λ made. fields_view made.items ≡ names_schema (names_bytes names.now)) }
    ensures says { Says (names_schema (names_bytes names.now)) (one_named (names_bytes names.now) values.now) }
    ensures refused { IfErr result LacksMemory }
{
    one_of(alloc, texts_of(alloc, names))
}

/// The keywords of one of these values.
fn one_of(alloc: Global, values: Result<Vec<Value>>) -> Result<Keywords>
    ensures made { (xs : Items) → IfOk values (λ vs. items_view vs.items ≡ xs) → IfOk result (λ ks. fields_view ks.items ≡ keyword (codes "enum") (array xs) no_field) }
    ensures refused { IfErr values LacksMemory → IfErr result LacksMemory }
{
    keyword_alone(alloc, "enum", Value::Array(values?))
}

/// The names as values.
fn texts_of(alloc: Global, names: &[&str]) -> Result<Vec<Value>>
    ensures made { IfOk result (λ made. items_view made.items ≡ texts_of (names_bytes names.now)) }
    ensures refused { IfErr result LacksMemory }
{
    let mut texts = Vec::with_capacity(alloc, names.len())?;
    for name in names {
        let text = String::from_str(alloc, name)?;
        texts.push(Value::String(text))?;
    }
    Ok(texts)
}
