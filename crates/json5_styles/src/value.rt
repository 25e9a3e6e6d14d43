//! Values in a layout. Calls return small values, so that no frame holds an `Error`.

ghost use Rattle.std.specs.Prelude.{◌≡◌, true, ◌+◌, ◌≤◌, ◌<◌, ◌∷◌, pos, IfSome, OnOk};
ghost use Rattle.json5_grammar.specs.Language.Documents.{max_depth};
ghost use Rattle.json5_grammar.specs.Language.Numbers.{whole};
ghost use Rattle.json5_grammar.specs.Written.NumberText.{number_text, IsNumber};
ghost use Rattle.json5_types.specs.ValueLookups.{datum_depth, items_depth, fields_depth};
ghost use Rattle.json5_types.specs.ValueMeanings.{array, object, value_of, items_view, fields_view};
ghost use Rattle.json5_write.specs.Brackets.{sign_of};
ghost use Rattle.json5_write.specs.Out.{piece};
ghost use Rattle.json5_write.specs.ShortWrites.{Puts, PutsTree};
ghost use Rattle.json5_write.specs.WrittenTrees.{integer};
ghost use Rattle.json5_styles.specs.LaidBack.{HasNumbers};
ghost use Rattle.json5_styles.specs.LaidPuts.{PutsLaid};
ghost use Rattle.json5_styles.specs.Layouts.{is_compact, laid_in};

use crate::layout::{Form, Layout};
use crate::lines::{Line, end_lines};
use crate::strings::{put_key, put_string, put_string_after};
use json5_types::value::Value;
use json5_types::whole::Whole;
use json5_write::Printer;
use json5_write::brackets::BeforeElement;
use json5_write::joined_write::JoinedWrite;
use json5_write::literals::bool_name;
use json5_write::refusal::Put;

/// Writes a value within so many brackets.
#[cycle(laid)]
#[inline(always)]
pub(crate) fn put_value<W: JoinedWrite + Drop>(
    value: &Value,
    form: &Form,
    depth: usize,
    printer: &mut Printer<W>,
) -> Put
    requires shallow { datum_depth (value_of value.now) + depth ≤ max_depth }
    ensures { PutsLaid form.now depth (value_of value.now) printer.old result printer.new }
{
    match value {
        Value::Null => printer.put_piece("null"),
        Value::Bool(truth) => printer.put_piece(bool_name(*truth)),
        Value::Whole(number) => put_whole(*number, printer),
        Value::Decimal(number) => printer.put_decimal(number),
        Value::String(text) => put_string(text.as_str(), form.spelling, printer),
        Value::Array(items) => put_array(items, form, depth, printer),
        Value::Object(fields) => put_object(fields, form, depth, printer),
    }
}

/// Writes the decimal digits of a whole number of either sign.
#[inline(always)]
fn put_whole<W: JoinedWrite + Drop>(number: Whole, printer: &mut Printer<W>) -> Put
    ensures { PutsTree (integer number) printer.old result printer.new }
{
    if let Some(positive) = number.as_u128() {
        return printer.put_unsigned(positive);
    }
    let negative = number.as_i128();
    printer.put_signed(negative.unwrap())
}

/// Writes an array of the values.
#[cycle(laid)]
#[inline(always)]
fn put_array<W: JoinedWrite + Drop>(
    items: &[Value],
    form: &Form,
    depth: usize,
    printer: &mut Printer<W>,
) -> Put
    requires shallow { items_depth (items_view items.now) + depth < max_depth }
    ensures { PutsLaid form.now depth (array (items_view items.now)) printer.old result printer.new }
{
    match form.layout {
        Layout::Compact => put_items_on_line(items, form, depth, printer),
        _ => put_items(items, form, depth, printer),
    }
}

/// Writes an array on one line.
#[cycle(laid)]
fn put_items_on_line<W: JoinedWrite + Drop>(
    items: &[Value],
    form: &Form,
    depth: usize,
    printer: &mut Printer<W>,
) -> Put
    requires shallow { items_depth (items_view items.now) + depth < max_depth }
    requires on_line { is_compact form.now.layout ≡ true }
    ensures { PutsLaid form.now depth (array (items_view items.now)) printer.old result printer.new }
{
    let mut before = BeforeElement::Bracket;
    for item in items {
        put_item_after(before, item, form, depth + 1, printer)?;
        before = BeforeElement::Comma;
    }
    match before {
        BeforeElement::Bracket => printer.put_piece("[]"),
        BeforeElement::Comma => printer.put_piece("]"),
    }
}

/// Writes what stands before an element, and any element after it. A string that needs no escape, and a whole number that
/// fits a `u64`, are put in one piece with what stands before.
#[cycle(laid)]
#[inline(always)]
fn put_item_after<W: JoinedWrite + Drop>(
    before: BeforeElement,
    item: &Value,
    form: &Form,
    depth: usize,
    printer: &mut Printer<W>,
) -> Put
    requires shallow { datum_depth (value_of item.now) + depth ≤ max_depth }
    ensures text { Puts (piece (sign_of before ∷ laid_in form.now depth (value_of item.now))) printer.old result printer.new }
    ensures numbers { OnOk result (HasNumbers (value_of item.now)) }
{
    match item {
        Value::Whole(number) => put_whole_after(before, *number, printer),
        Value::String(text) => put_string_after(before, text.as_str(), form.spelling, printer),
        _ => {
            printer.put_piece(before.text())?;
            put_value(item, form, depth, printer)
        }
    }
}

/// Writes what stands before an element, and a whole number.
#[inline(always)]
fn put_whole_after<W: JoinedWrite + Drop>(
    before: BeforeElement,
    number: Whole,
    printer: &mut Printer<W>,
) -> Put
    ensures text { Puts (piece (sign_of before ∷ number_text (whole number))) printer.old result printer.new }
    ensures numbers { OnOk result (IsNumber (whole number)) }
{
    if let Some(narrow) = as_u64(number) {
        return printer.put_number_after(before, narrow);
    }
    printer.put_piece(before.text())?;
    put_whole(number, printer)
}

/// The number as a `u64`, if it fits.
#[inline(always)]
fn as_u64(number: Whole) -> Option<u64>
    ensures { IfSome result (λ narrow. number ≡ pos narrow) }
{
    u64::try_from(number.as_u128()?).ok()
}

/// Writes an array of which each element begins a line.
#[cycle(laid)]
fn put_items<W: JoinedWrite + Drop>(
    items: &[Value],
    form: &Form,
    depth: usize,
    printer: &mut Printer<W>,
) -> Put
    requires shallow { items_depth (items_view items.now) + depth < max_depth }
    ensures { PutsLaid form.now depth (array (items_view items.now)) printer.old result printer.new }
{
    printer.put_piece("[")?;
    let line = Line::within(form.layout, depth + 1);
    let mut started = false;
    for item in items {
        line.put(started, printer)?;
        put_value(item, form, depth + 1, printer)?;
        started = true;
    }
    end_lines(form, depth, started, printer)?;
    printer.put_piece("]")
}

/// Writes an object of the members, in their order.
#[cycle(laid)]
fn put_object<W: JoinedWrite + Drop>(
    fields: &[(String, Value)],
    form: &Form,
    depth: usize,
    printer: &mut Printer<W>,
) -> Put
    requires shallow { fields_depth (fields_view fields.now) + depth < max_depth }
    ensures { PutsLaid form.now depth (object (fields_view fields.now)) printer.old result printer.new }
{
    printer.put_piece("{")?;
    let line = Line::within(form.layout, depth + 1);
    let mut started = false;
    for (key, value) in fields {
        line.put(started, printer)?;
        put_key(key, form, printer)?;
        put_value(value, form, depth + 1, printer)?;
        started = true;
    }
    end_lines(form, depth, started, printer)?;
    printer.put_piece("}")
}
