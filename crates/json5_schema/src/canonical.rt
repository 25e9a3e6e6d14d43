//! Canonical forms of values: bytes that are the same for equal values, and others for others.

ghost use Rattle.std.specs.Prelude.{◌≡◌, ◌++◌, [], MatchResult};
ghost use Rattle.json5_grammar.specs.Language.Numbers.{decimal};
ghost use Rattle.json5_types.specs.Errors.{LacksMemory};
ghost use Rattle.json5_types.specs.ValueMeanings.{number, array, object, value_of, items_view, fields_view};
ghost use Rattle.json5_schema.specs.CanonicalForms.{kind_byte, shows_minus, members_form, read, text_form, AddsForm, HoldsForms};

use json5_numbers::DecimalExt;
use json5_types::decimal::Decimal;
use json5_types::error::Result;
use json5_types::value::Value;
use std::alloc::Global;
use std::collections::BTreeMap;

/// Ends a text in a form: no byte of a text is like it.
const END: u8 = 0xFF;

/// Returns the canonical form of a value: the same bytes for each value that is equal to it.
///
/// Each kind of value begins with a byte of its own, and each form shows where it ends, so values that aren't equal have
/// other forms. No promise is made of that: where forms are the same, the values have still to be compared.
pub fn canonical_form(alloc: Global, value: &Value) -> Result<Vec<u8>>
    ensures { MatchResult result (λ form. AddsForm [] form.items (value_of value.now)) LacksMemory }
{
    let mut form = Vec::new(alloc);
    push_value(alloc, value, &mut form)?;
    Ok(form)
}

/// Adds the form of a value.
#[cycle(push_value)]
fn push_value(alloc: Global, value: &Value, form: &mut Vec<u8>) -> Result<()>
    ensures { MatchResult result (λ _. AddsForm form.old.items form.new.items (value_of value.now)) LacksMemory }
{
    match value {
        Value::Null => Ok(form.push(b'n')?),
        Value::Bool(true) => Ok(form.push(b't')?),
        Value::Bool(false) => Ok(form.push(b'f')?),
        Value::Whole(number) => push_number(&Decimal::from_whole(alloc, *number)?, form),
        Value::Decimal(number) => push_number(number, form),
        Value::String(text) => push_text(text.as_str(), form),
        Value::Array(items) => push_items(alloc, items, form),
        Value::Object(members) => push_object(alloc, members, form),
    }
}

/// A byte for the kind of a number.
fn kind_byte(number: &Decimal) -> u8
    ensures { result ≡ kind_byte number.now }
{
    if number.is_nan() {
        b'?'
    } else if number.is_infinite() {
        b'I'
    } else {
        b'#'
    }
}

/// Whether the number has a minus that counts: that of zero doesn't.
fn shows_minus(number: &Decimal) -> bool
    ensures { result ≡ shows_minus number.now }
{
    number.is_negative() && (number.is_nan() || number.is_infinite() || !number.digits().is_empty())
}

/// Adds the form of a number: its kind, its sign, the power of ten and the digits.
fn push_number(value: &Decimal, form: &mut Vec<u8>) -> Result<()>
    ensures { MatchResult result (λ _. AddsForm form.old.items form.new.items (number (decimal value.now))) LacksMemory }
{
    let sign = if shows_minus(value) { b'-' } else { b'+' };
    form.push(kind_byte(value))?;
    form.push(sign)?;
    form.extend_from_slice(&value.exponent().to_be_bytes())?;
    form.extend_from_slice(value.digits().as_bytes())?;
    Ok(())
}

/// Adds the form of a text: a quote, the text, and the byte that ends it.
fn push_text(text: &str, form: &mut Vec<u8>) -> Result<()>
    ensures { MatchResult result (λ _. form.new.items ≡ form.old.items ++ text_form text.now) LacksMemory }
{
    form.push(b'"')?;
    form.extend_from_slice(text.as_bytes())?;
    form.push(END)?;
    Ok(())
}

/// Adds the form of an array: those of its elements in brackets.
#[cycle(push_value)]
fn push_items(alloc: Global, items: &[Value], form: &mut Vec<u8>) -> Result<()>
    ensures { MatchResult result (λ _. AddsForm form.old.items form.new.items (array (items_view items.now))) LacksMemory }
{
    form.push(b'[')?;
    for item in items {
        push_value(alloc, item, form)?;
    }
    form.push(b']')?;
    Ok(())
}

/// Adds the form of an object: its names in order, each with the form of its value, in brackets.
#[cycle(push_value)]
fn push_object(alloc: Global, members: &[(String, Value)], form: &mut Vec<u8>) -> Result<()>
    ensures { MatchResult result (λ _. AddsForm form.old.items form.new.items (object (fields_view members.now))) LacksMemory }
{
    let forms = forms_by_name(alloc, members)?;
    form.push(b'{')?;
    push_members(&forms, form)?;
    form.push(b'}')?;
    Ok(())
}

/// The forms of the members by their names. Of equal names the last counts.
#[cycle(push_value)]
fn forms_by_name<'a>(
    alloc: Global,
    members: &'a [(String, Value)],
) -> Result<BTreeMap<&'a str, Vec<u8>>>
    ensures { MatchResult result (λ forms. HoldsForms forms (fields_view members.now)) LacksMemory }
{
    let mut forms = BTreeMap::new(alloc);
    for (name, value) in members {
        let mut form = Vec::new(alloc);
        push_value(alloc, value, &mut form)?;
        forms.insert(name.as_str(), form)?;
    }
    Ok(forms)
}

/// Adds the names, each with its form.
fn push_members(forms: &BTreeMap<&str, Vec<u8>>, form: &mut Vec<u8>) -> Result<()>
    ensures { MatchResult result (λ _. form.new.items ≡ form.old.items ++ members_form (read forms.now.entries)) LacksMemory }
{
    for (name, value) in forms {
        push_text(name, form)?;
        form.extend_from_slice(value)?;
    }
    Ok(())
}
