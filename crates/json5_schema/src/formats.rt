//! The formats of texts that a schema may assert, each as an expression of the rules of its RFC.

ghost use Rattle.std.specs.Prelude.{◌≡◌, true, option_map, IfOk, MatchResult};
ghost use Rattle.std.specs.Str.{chars};
ghost use Rattle.json5_types.specs.Errors.{LacksMemory};
ghost use Rattle.json5_types.specs.ValueMeanings.{boolean, object, no_field, field, value_of};
ghost use Rattle.json5_schema.specs.Refusals.{IsCopyRefusal};
ghost use Rattle.json5_schema.specs.Formats.{entirely, mailbox, ipv6_address, uri_text, expression_named, has_format};
ghost use Rattle.json5_schema.specs.Conformance.{format_vocabulary, asserts_formats, format_holds, is_in_format, with_formats};

use crate::patterns::{Pattern, matches};
use json5_types::ErrorCode;
use json5_types::error::{Error, Result};
use json5_types::value::Value;
use std::alloc::Global;

/// The expression of the format with this name, if it has one: `specs/Formats.antt` has it rule by rule.
pub fn expression_named(name: &str) -> Option<&'static str>
    ensures { option_map (λ e. e.now) result ≡ expression_named name.now }
{
    match name {
        "date" => Some(concat!(
            "^(?:(?:[0-9]{4}-(?:(?:0[13578]|1[02])-(?:0[1-9]|[12][0-9]|3[01])|",
            "(?:0[469]|11)-(?:0[1-9]|[12][0-9]|30)|02-(?:0[1-9]|1[0-9]|2[0-8]))|",
            "(?:[0-9]{2}(?:0[48]|[2468][048]|[13579][26])|(?:[02468][048]|[13579][26])00)-02-29))$",
        )),
        "time" => Some(concat!(
            "^(?:",
            "(?:[01][0-9]|2[0-3]):[0-5][0-9]:(?:[0-5][0-9]|60)(?:[.][0-9]+)?(?:[Zz]|[+-](?:[01][0-9]|2[0-3]):[0-5][0-9])",
            ")$",
        )),
        "date-time" => Some(concat!(
            "^(?:(?:[0-9]{4}-(?:(?:0[13578]|1[02])-(?:0[1-9]|[12][0-9]|3[01])|",
            "(?:0[469]|11)-(?:0[1-9]|[12][0-9]|30)|02-(?:0[1-9]|1[0-9]|2[0-8]))|",
            "(?:[0-9]{2}(?:0[48]|[2468][048]|[13579][26])|(?:[02468][048]|[13579][26])00)-02-29)[Tt]",
            "(?:[01][0-9]|2[0-3]):[0-5][0-9]:(?:[0-5][0-9]|60)(?:[.][0-9]+)?(?:[Zz]|[+-](?:[01][0-9]|2[0-3]):[0-5][0-9])",
            ")$",
        )),
        "duration" => Some(concat!(
            "^(?:P(?:(?:[0-9]+D|[0-9]+M(?:[0-9]+D)?|[0-9]+Y(?:[0-9]+M(?:[0-9]+D)?)?)(?:T(?:[0-9]+H(?:",
            "[0-9]+M(?:[0-9]+S)?)?|[0-9]+M(?:[0-9]+S)?|[0-9]+S))?|T(?:[0-9]+H(?:[0-9]+M(?:[0-9]+S)?)?|",
            "[0-9]+M(?:[0-9]+S)?|[0-9]+S)|[0-9]+W))$",
        )),
        "email" => Some(email()),
        "hostname" => Some(concat!(
            "^(?:[0-9A-Za-z](?:[0-9A-Za-z-]{0,61}[0-9A-Za-z])?(?:[.]",
            "[0-9A-Za-z](?:[0-9A-Za-z-]{0,61}[0-9A-Za-z])?)*)$",
        )),
        "ipv4" => Some(concat!(
            "^(?:(?:(?:25[0-5]|2[0-4][0-9]|1[0-9][0-9]|[1-9]?[0-9])[.]){3}",
            "(?:25[0-5]|2[0-4][0-9]|1[0-9][0-9]|[1-9]?[0-9]))$",
        )),
        "ipv6" => Some(ipv6()),
        "uri" => Some(uri()),
        "uuid" => Some(
            "^(?:[0-9A-Fa-f]{8}-[0-9A-Fa-f]{4}-[0-9A-Fa-f]{4}-[0-9A-Fa-f]{4}-[0-9A-Fa-f]{12})$",
        ),
        "json-pointer" => Some("^(?:(?:/(?:[^~/]|~[01])*)*)$"),
        "relative-json-pointer" => Some("^(?:(?:0|[1-9][0-9]*)(?:#|(?:/(?:[^~/]|~[01])*)*))$"),
        _ => None,
    }
}

/// A mailbox, after RFC 5321.
fn email() -> &'static str
    ensures { result.now ≡ entirely mailbox }
{
    concat!(
        "^(?:(?:[0-9A-Za-z!#$%&'*+/=?^_`{|}~-]+(?:[.][0-9A-Za-z!#$%&'*+/=?^_`{|}~-]+",
        ")*|\"(?:[ !#-Z^-~]|\\[|\\]|\\\\[ -~])*\")@(?:[0-9A-Za-z](?:[0-9A-Za-z-]*[0-9A-Za-z])?(?:[.]",
        "[0-9A-Za-z](?:[0-9A-Za-z-]*[0-9A-Za-z])?)*|\\[(?:(?:",
        "(?:25[0-5]|2[0-4][0-9]|1[0-9][0-9]|[1-9]?[0-9])[.]){3}",
        "(?:25[0-5]|2[0-4][0-9]|1[0-9][0-9]|[1-9]?[0-9])|IPv6:(?:(?:[0-9A-Fa-f]{1,4}:){6}(?:",
        "[0-9A-Fa-f]{1,4}:[0-9A-Fa-f]{1,4}|(?:(?:25[0-5]|2[0-4][0-9]|1[0-9][0-9]|[1-9]?[0-9])[.]){3}",
        "(?:25[0-5]|2[0-4][0-9]|1[0-9][0-9]|[1-9]?[0-9]))|::(?:[0-9A-Fa-f]{1,4}:){5}(?:[0-9A-Fa-f]{1,4}:",
        "[0-9A-Fa-f]{1,4}|(?:(?:25[0-5]|2[0-4][0-9]|1[0-9][0-9]|[1-9]?[0-9])[.]){3}",
        "(?:25[0-5]|2[0-4][0-9]|1[0-9][0-9]|[1-9]?[0-9]))|(?:[0-9A-Fa-f]{1,4})?::(?:[0-9A-Fa-f]{1,4}:){4}",
        "(?:[0-9A-Fa-f]{1,4}:[0-9A-Fa-f]{1,4}|(?:(?:25[0-5]|2[0-4][0-9]|1[0-9][0-9]|[1-9]?[0-9])[.]){3}",
        "(?:25[0-5]|2[0-4][0-9]|1[0-9][0-9]|[1-9]?[0-9]))|(?:(?:[0-9A-Fa-f]{1,4}:)?[0-9A-Fa-f]{1,4}",
        ")?::(?:[0-9A-Fa-f]{1,4}:){3}(?:[0-9A-Fa-f]{1,4}:[0-9A-Fa-f]{1,4}|(?:",
        "(?:25[0-5]|2[0-4][0-9]|1[0-9][0-9]|[1-9]?[0-9])[.]){3}",
        "(?:25[0-5]|2[0-4][0-9]|1[0-9][0-9]|[1-9]?[0-9]))|(?:(?:[0-9A-Fa-f]{1,4}:){0,2}[0-9A-Fa-f]{1,4}",
        ")?::(?:[0-9A-Fa-f]{1,4}:){2}(?:[0-9A-Fa-f]{1,4}:[0-9A-Fa-f]{1,4}|(?:",
        "(?:25[0-5]|2[0-4][0-9]|1[0-9][0-9]|[1-9]?[0-9])[.]){3}",
        "(?:25[0-5]|2[0-4][0-9]|1[0-9][0-9]|[1-9]?[0-9]))|(?:(?:[0-9A-Fa-f]{1,4}:){0,3}[0-9A-Fa-f]{1,4}",
        ")?::[0-9A-Fa-f]{1,4}:(?:[0-9A-Fa-f]{1,4}:[0-9A-Fa-f]{1,4}|(?:",
        "(?:25[0-5]|2[0-4][0-9]|1[0-9][0-9]|[1-9]?[0-9])[.]){3}",
        "(?:25[0-5]|2[0-4][0-9]|1[0-9][0-9]|[1-9]?[0-9]))|(?:(?:[0-9A-Fa-f]{1,4}:){0,4}[0-9A-Fa-f]{1,4}",
        ")?::(?:[0-9A-Fa-f]{1,4}:[0-9A-Fa-f]{1,4}|(?:(?:25[0-5]|2[0-4][0-9]|1[0-9][0-9]|[1-9]?[0-9])",
        "[.]){3}(?:25[0-5]|2[0-4][0-9]|1[0-9][0-9]|[1-9]?[0-9]))|(?:(?:[0-9A-Fa-f]{1,4}:){0,5}",
        "[0-9A-Fa-f]{1,4})?::[0-9A-Fa-f]{1,4}|(?:(?:[0-9A-Fa-f]{1,4}:){0,6}[0-9A-Fa-f]{1,4})?::))\\]))$",
    )
}

/// An address of IPv6, after RFC 4291.
fn ipv6() -> &'static str
    ensures { result.now ≡ entirely ipv6_address }
{
    concat!(
        "^(?:(?:(?:[0-9A-Fa-f]{1,4}:){6}(?:[0-9A-Fa-f]{1,4}:[0-9A-Fa-f]{1,4}|(?:",
        "(?:25[0-5]|2[0-4][0-9]|1[0-9][0-9]|[1-9]?[0-9])[.]){3}",
        "(?:25[0-5]|2[0-4][0-9]|1[0-9][0-9]|[1-9]?[0-9]))|::(?:[0-9A-Fa-f]{1,4}:){5}(?:[0-9A-Fa-f]{1,4}:",
        "[0-9A-Fa-f]{1,4}|(?:(?:25[0-5]|2[0-4][0-9]|1[0-9][0-9]|[1-9]?[0-9])[.]){3}",
        "(?:25[0-5]|2[0-4][0-9]|1[0-9][0-9]|[1-9]?[0-9]))|(?:[0-9A-Fa-f]{1,4})?::(?:[0-9A-Fa-f]{1,4}:){4}",
        "(?:[0-9A-Fa-f]{1,4}:[0-9A-Fa-f]{1,4}|(?:(?:25[0-5]|2[0-4][0-9]|1[0-9][0-9]|[1-9]?[0-9])[.]){3}",
        "(?:25[0-5]|2[0-4][0-9]|1[0-9][0-9]|[1-9]?[0-9]))|(?:(?:[0-9A-Fa-f]{1,4}:)?[0-9A-Fa-f]{1,4}",
        ")?::(?:[0-9A-Fa-f]{1,4}:){3}(?:[0-9A-Fa-f]{1,4}:[0-9A-Fa-f]{1,4}|(?:",
        "(?:25[0-5]|2[0-4][0-9]|1[0-9][0-9]|[1-9]?[0-9])[.]){3}",
        "(?:25[0-5]|2[0-4][0-9]|1[0-9][0-9]|[1-9]?[0-9]))|(?:(?:[0-9A-Fa-f]{1,4}:){0,2}[0-9A-Fa-f]{1,4}",
        ")?::(?:[0-9A-Fa-f]{1,4}:){2}(?:[0-9A-Fa-f]{1,4}:[0-9A-Fa-f]{1,4}|(?:",
        "(?:25[0-5]|2[0-4][0-9]|1[0-9][0-9]|[1-9]?[0-9])[.]){3}",
        "(?:25[0-5]|2[0-4][0-9]|1[0-9][0-9]|[1-9]?[0-9]))|(?:(?:[0-9A-Fa-f]{1,4}:){0,3}[0-9A-Fa-f]{1,4}",
        ")?::[0-9A-Fa-f]{1,4}:(?:[0-9A-Fa-f]{1,4}:[0-9A-Fa-f]{1,4}|(?:",
        "(?:25[0-5]|2[0-4][0-9]|1[0-9][0-9]|[1-9]?[0-9])[.]){3}",
        "(?:25[0-5]|2[0-4][0-9]|1[0-9][0-9]|[1-9]?[0-9]))|(?:(?:[0-9A-Fa-f]{1,4}:){0,4}[0-9A-Fa-f]{1,4}",
        ")?::(?:[0-9A-Fa-f]{1,4}:[0-9A-Fa-f]{1,4}|(?:(?:25[0-5]|2[0-4][0-9]|1[0-9][0-9]|[1-9]?[0-9])",
        "[.]){3}(?:25[0-5]|2[0-4][0-9]|1[0-9][0-9]|[1-9]?[0-9]))|(?:(?:[0-9A-Fa-f]{1,4}:){0,5}",
        "[0-9A-Fa-f]{1,4})?::[0-9A-Fa-f]{1,4}|(?:(?:[0-9A-Fa-f]{1,4}:){0,6}[0-9A-Fa-f]{1,4})?::))$",
    )
}

/// The identifier of a resource, after RFC 3986.
fn uri() -> &'static str
    ensures { result.now ≡ entirely uri_text }
{
    concat!(
        "^(?:[A-Za-z][0-9A-Za-z+.-]*:(?://(?:(?:[0-9A-Za-z._~!$&'()*+,;=:-]|%[0-9A-Fa-f]{2})*@)?(?:\\[(?:",
        "(?:(?:[0-9A-Fa-f]{1,4}:){6}(?:[0-9A-Fa-f]{1,4}:[0-9A-Fa-f]{1,4}|(?:",
        "(?:25[0-5]|2[0-4][0-9]|1[0-9][0-9]|[1-9]?[0-9])[.]){3}",
        "(?:25[0-5]|2[0-4][0-9]|1[0-9][0-9]|[1-9]?[0-9]))|::(?:[0-9A-Fa-f]{1,4}:){5}(?:[0-9A-Fa-f]{1,4}:",
        "[0-9A-Fa-f]{1,4}|(?:(?:25[0-5]|2[0-4][0-9]|1[0-9][0-9]|[1-9]?[0-9])[.]){3}",
        "(?:25[0-5]|2[0-4][0-9]|1[0-9][0-9]|[1-9]?[0-9]))|(?:[0-9A-Fa-f]{1,4})?::(?:[0-9A-Fa-f]{1,4}:){4}",
        "(?:[0-9A-Fa-f]{1,4}:[0-9A-Fa-f]{1,4}|(?:(?:25[0-5]|2[0-4][0-9]|1[0-9][0-9]|[1-9]?[0-9])[.]){3}",
        "(?:25[0-5]|2[0-4][0-9]|1[0-9][0-9]|[1-9]?[0-9]))|(?:(?:[0-9A-Fa-f]{1,4}:)?[0-9A-Fa-f]{1,4}",
        ")?::(?:[0-9A-Fa-f]{1,4}:){3}(?:[0-9A-Fa-f]{1,4}:[0-9A-Fa-f]{1,4}|(?:",
        "(?:25[0-5]|2[0-4][0-9]|1[0-9][0-9]|[1-9]?[0-9])[.]){3}",
        "(?:25[0-5]|2[0-4][0-9]|1[0-9][0-9]|[1-9]?[0-9]))|(?:(?:[0-9A-Fa-f]{1,4}:){0,2}[0-9A-Fa-f]{1,4}",
        ")?::(?:[0-9A-Fa-f]{1,4}:){2}(?:[0-9A-Fa-f]{1,4}:[0-9A-Fa-f]{1,4}|(?:",
        "(?:25[0-5]|2[0-4][0-9]|1[0-9][0-9]|[1-9]?[0-9])[.]){3}",
        "(?:25[0-5]|2[0-4][0-9]|1[0-9][0-9]|[1-9]?[0-9]))|(?:(?:[0-9A-Fa-f]{1,4}:){0,3}[0-9A-Fa-f]{1,4}",
        ")?::[0-9A-Fa-f]{1,4}:(?:[0-9A-Fa-f]{1,4}:[0-9A-Fa-f]{1,4}|(?:",
        "(?:25[0-5]|2[0-4][0-9]|1[0-9][0-9]|[1-9]?[0-9])[.]){3}",
        "(?:25[0-5]|2[0-4][0-9]|1[0-9][0-9]|[1-9]?[0-9]))|(?:(?:[0-9A-Fa-f]{1,4}:){0,4}[0-9A-Fa-f]{1,4}",
        ")?::(?:[0-9A-Fa-f]{1,4}:[0-9A-Fa-f]{1,4}|(?:(?:25[0-5]|2[0-4][0-9]|1[0-9][0-9]|[1-9]?[0-9])",
        "[.]){3}(?:25[0-5]|2[0-4][0-9]|1[0-9][0-9]|[1-9]?[0-9]))|(?:(?:[0-9A-Fa-f]{1,4}:){0,5}",
        "[0-9A-Fa-f]{1,4})?::[0-9A-Fa-f]{1,4}|(?:(?:[0-9A-Fa-f]{1,4}:){0,6}[0-9A-Fa-f]{1,4})?::)",
        "|[Vv][0-9A-Fa-f]+[.][0-9A-Za-z._~!$&'()*+,;=:-]+)\\]|(?:[0-9A-Za-z._~!$&'()*+,;=-]|",
        "%[0-9A-Fa-f]{2})*)(?::[0-9]*)?(?:/(?:[0-9A-Za-z._~!$&'()*+,;=:@-]|%[0-9A-Fa-f]{2})*)*|/(?:",
        "(?:[0-9A-Za-z._~!$&'()*+,;=:@-]|%[0-9A-Fa-f]{2})+(?:/(?:[0-9A-Za-z._~!$&'()*+,;=:@-]|",
        "%[0-9A-Fa-f]{2})*)*)?|(?:[0-9A-Za-z._~!$&'()*+,;=:@-]|%[0-9A-Fa-f]{2})+(?:/",
        "(?:[0-9A-Za-z._~!$&'()*+,;=:@-]|%[0-9A-Fa-f]{2})*)*)?(?:[?](?:[0-9A-Za-z._~!$&'()*+,;=:@/?-]|",
        "%[0-9A-Fa-f]{2})*)?(?:#(?:[0-9A-Za-z._~!$&'()*+,;=:@/?-]|%[0-9A-Fa-f]{2})*)?)$",
    )
}

/// The names of the formats.
pub const FORMATS: [&str; 12] = [
    "date",
    "time",
    "date-time",
    "duration",
    "email",
    "hostname",
    "ipv4",
    "ipv6",
    "uri",
    "uuid",
    "json-pointer",
    "relative-json-pointer",
];

/// The vocabulary of asserted formats.
const VOCABULARY: &str = "https://json-schema.org/draft/2020-12/vocab/format-assertion";

/// Whether the text is in the format with this name, if it has an expression.
fn has_format(alloc: Global, patterns: &[Pattern], name: &str, text: &str) -> Result<bool>
    ensures { MatchResult result (λ b. b ≡ has_format (chars name.now) (chars text.now)) LacksMemory }
{
    match expression_named(name) {
        Some(expression) => matches(alloc, patterns, expression, text),
        None => Ok(true),
    }
}

/// Whether the value, if it is a text, is in the format.
fn is_in_format(alloc: Global, patterns: &[Pattern], format: &Value, value: &Value) -> Result<bool>
    ensures { MatchResult result (λ b. b ≡ is_in_format (value_of format.now) (value_of value.now)) LacksMemory }
{
    match (format, value) {
        (Value::String(name), Value::String(text)) => {
            has_format(alloc, patterns, name.as_str(), text.as_str())
        }
        _ => Ok(true),
    }
}

/// What `format` asserts: nothing where the schema doesn't assert formats.
pub fn format_holds(
    alloc: Global,
    patterns: &[Pattern],
    root: &Value,
    format: &Value,
    value: &Value,
) -> Result<bool>
    ensures { MatchResult result (λ b. b ≡ format_holds (value_of root.now) (value_of format.now) (value_of value.now)) LacksMemory }
{
    if !asserts_formats(root) {
        return Ok(true);
    }
    is_in_format(alloc, patterns, format, value)
}

/// Whether the schema asserts formats.
pub fn asserts_formats(root: &Value) -> bool
    ensures { result ≡ asserts_formats (value_of root.now) }
{
    let Some(vocabularies) = root.get("$vocabulary") else {
        return false;
    };
    match vocabularies.get(VOCABULARY) {
        Some(asserted) => asserted.as_bool().unwrap_or(false),
        None => false,
    }
}

/// The schema with the vocabulary of asserted formats in place of its own.
#[tactic(auto, using(crate::proofs::FormatsKnown::vocabulary_put, crate::proofs::FormatsKnown::nothing_put))]
pub fn with_formats(alloc: Global, schema: &Value) -> Result<Value>
    ensures { MatchResult result (λ asserting. value_of asserting ≡ with_formats (value_of schema.now)) (IsCopyRefusal (value_of schema.now)) }
{
    let mut asserting = schema.clone(alloc)?;
    if !asserting.is_object() {
        return Ok(asserting);
    }
    let key = String::from_str(alloc, "$vocabulary")?;
    let Ok(asking) = vocabularies(alloc) else {
        return Err(Error::new(ErrorCode::OutOfMemory));
    };
    match asserting.insert(key, asking) {
        Ok(_) => Ok(asserting),
        Err(_) => Err(Error::new(ErrorCode::OutOfMemory)),
    }
}

/// An object that asks for the vocabulary of asserted formats.
#[tactic(auto, using(crate::proofs::FormatsKnown::vocabulary_made))]
fn vocabularies(alloc: Global) -> Result<Value>
    ensures { IfOk result (λ asking. value_of asking ≡ object (field format_vocabulary (boolean true) no_field)) }
{
    let mut asking = Value::Object(Vec::new(alloc));
    asking.insert(String::from_str(alloc, VOCABULARY)?, Value::Bool(true))?;
    Ok(asking)
}
