//! Writing of values of any kind. It returns small values, so that no frame of it holds an `Error`.

ghost use Rattle.std.specs.Str.{chars};
ghost use Rattle.std.specs.Prelude.{string_bytes};
ghost use Rattle.json5_write.specs.WrittenTrees.{integer, named, array, object, elements_of, fields_of};
ghost use Rattle.json5_write.specs.ValueTrees.{value_tree, key_of_string};
ghost use Rattle.json5_write.specs.Commas.{comma_before, member_line};
ghost use Rattle.json5_write.specs.ShortWrites.{Puts, PutsTree};

use crate::Printer;
use crate::brackets::Brackets;
use crate::literals::bool_name;
use crate::refusal::Put;
use json5_types::value::Value;
use json5_types::whole::Whole;
use std::io::Write;

/// Writes a value of any kind; equal keys are kept.
#[cycle(tree)]
pub fn put_value<W: Write + Drop>(value: &Value, printer: &mut Printer<W>) -> Put
    ensures { PutsTree (value_tree value.now) printer.old result printer.new }
{
    match value {
        Value::Null => printer.put_piece("null"),
        Value::Bool(truth) => printer.put_piece(bool_name(*truth)),
        Value::Whole(number) => put_whole_number(*number, printer),
        Value::Decimal(number) => printer.put_decimal(number),
        Value::String(text) => printer.put_str(text.as_str()),
        Value::Array(items) => put_elements(items, printer),
        Value::Object(fields) => put_members(fields, printer),
    }
}

/// Writes an array of the values.
#[cycle(tree)]
fn put_elements<W: Write + Drop>(items: &[Value], printer: &mut Printer<W>) -> Put
    ensures { PutsTree (array (elements_of value_tree items.now)) printer.old result printer.new }
{
    printer.open_brackets(Brackets::Square)?;
    let mut comma_due = false;
    for item in items {
        printer.start_line(comma_due)?;
        put_value(item, printer)?;
        comma_due = true;
    }
    printer.close_brackets(comma_due, Brackets::Square)
}

/// Writes an object of the members, in their order.
#[cycle(tree)]
fn put_members<W: Write + Drop>(fields: &[(String, Value)], printer: &mut Printer<W>) -> Put
    ensures { PutsTree (object (fields_of key_of_string value_tree fields.now)) printer.old result printer.new }
{
    printer.open_brackets(Brackets::Curly)?;
    let mut comma_due = false;
    for (key, value) in fields {
        put_member(comma_due, key, value, printer)?;
        comma_due = true;
    }
    printer.close_brackets(comma_due, Brackets::Curly)
}

/// Writes the line of a member, without the comma after it.
#[cycle(tree)]
fn put_member<W: Write + Drop>(
    comma_due: bool,
    key: &str,
    value: &Value,
    printer: &mut Printer<W>,
) -> Put
    ensures { Puts (comma_before comma_due (member_line printer.old.limit printer.old.depth (named (chars key.now)) (value_tree value.now))) printer.old result printer.new }
{
    printer.start_line(comma_due)?;
    printer.put_key(key)?;
    printer.put_piece(": ")?;
    put_value(value, printer)
}

/// Writes the decimal digits of a whole number of either sign.
fn put_whole_number<W: Write + Drop>(value: Whole, printer: &mut Printer<W>) -> Put
    ensures { PutsTree (integer value) printer.old result printer.new }
{
    if let Some(positive) = value.as_u128() {
        return printer.put_unsigned(positive);
    }
    let negative = value.as_i128();
    printer.put_signed(negative.unwrap())
}
