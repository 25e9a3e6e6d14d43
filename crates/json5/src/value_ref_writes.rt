//! Writing of borrowed values, each as the [`Value`](json5_types::value::Value) that means the same.

ghost use Rattle.std.specs.Str.{chars};
ghost use Rattle.json5_write.specs.Commas.{comma_before, element_line, member_line};
ghost use Rattle.json5_write.specs.ShortWrites.{Puts, PutsTree};
ghost use Rattle.json5_write.specs.WrittenTrees.{named, array, object, elements_of, fields_of};
ghost use Rattle.json5.specs.ValueRefTrees.{ref_tree, key_of_cow};

use crate::value_ref::ValueRef;
use json5_ser::refusal::Put;
use json5_ser::trees::{PutTree, put_tree};
use json5_ser::{Serialize, Serializer};
use json5_types::cow_str::CowStr;
use json5_types::error::Result;
use json5_types::value::Value;
use json5_write::Printer;
use json5_write::brackets::Brackets;
use json5_write::literals::bool_name;
use json5_write::value::put_value;
use std::io::Write;

/// Writes a borrowed value as the `Value` that means the same; equal keys are kept. It takes no memory.
impl Serialize for ValueRef<'_> {
    ghost use Rattle.json5.specs.ValueRefTrees.{ref_tree};

    ghost tree = { ref_tree };

    fn serialize<W: Write + Drop>(&self, ser: &mut Serializer<W>) -> Result<()> {
        Ok(put_tree(self, ser)?)
    }

    fn put<W: Write + Drop>(&self, ser: &mut Serializer<W>) -> Put {
        put_tree(self, ser)
    }
}

impl PutTree for ValueRef<'_> {
    ghost use Rattle.json5.specs.ValueRefTrees.{ref_tree};

    ghost tree = { ref_tree };

    fn put_tree<W: Write + Drop>(&self, printer: &mut Printer<W>) -> Put {
        put_ref(self, printer)
    }
}

/// Writes a value.
#[cycle(refs)]
fn put_ref<W: Write + Drop>(value: &ValueRef<'_>, printer: &mut Printer<W>) -> Put
    ensures { PutsTree (ref_tree value.now) printer.old result printer.new }
{
    match value {
        ValueRef::Null => printer.put_piece("null"),
        ValueRef::Bool(truth) => printer.put_piece(bool_name(*truth)),
        ValueRef::Whole(number) => put_value(&Value::Whole(*number), printer),
        ValueRef::Decimal(number) => printer.put_decimal(number),
        ValueRef::String(text) => printer.put_str(text.as_str()),
        ValueRef::Array(items) => put_elements(items, printer),
        ValueRef::Object(members) => put_members(members, printer),
    }
}

/// Writes an array of the values.
#[cycle(refs)]
fn put_elements<W: Write + Drop>(items: &[ValueRef<'_>], printer: &mut Printer<W>) -> Put
    ensures { PutsTree (array (elements_of ref_tree items.now)) printer.old result printer.new }
{
    printer.open_brackets(Brackets::Square)?;
    let mut comma_due = false;
    for item in items {
        put_element(comma_due, item, printer)?;
        comma_due = true;
    }
    printer.close_brackets(comma_due, Brackets::Square)
}

/// Writes the line of an element, without the comma after it.
#[cycle(refs)]
fn put_element<W: Write + Drop>(
    comma_due: bool,
    value: &ValueRef<'_>,
    printer: &mut Printer<W>,
) -> Put
    ensures { Puts (comma_before comma_due (element_line printer.old.limit printer.old.depth (ref_tree value.now))) printer.old result printer.new }
{
    printer.start_line(comma_due)?;
    put_ref(value, printer)
}

/// Writes an object of the members, in their order.
#[cycle(refs)]
fn put_members<W: Write + Drop>(
    members: &[(CowStr<'_>, ValueRef<'_>)],
    printer: &mut Printer<W>,
) -> Put
    ensures { PutsTree (object (fields_of key_of_cow ref_tree members.now)) printer.old result printer.new }
{
    printer.open_brackets(Brackets::Curly)?;
    let mut comma_due = false;
    for (key, value) in members {
        put_member(comma_due, key.as_str(), value, printer)?;
        comma_due = true;
    }
    printer.close_brackets(comma_due, Brackets::Curly)
}

/// Writes the line of a member, without the comma after it.
#[cycle(refs)]
fn put_member<W: Write + Drop>(
    comma_due: bool,
    key: &str,
    value: &ValueRef<'_>,
    printer: &mut Printer<W>,
) -> Put
    ensures { Puts (comma_before comma_due (member_line printer.old.limit printer.old.depth (named (chars key.now)) (ref_tree value.now))) printer.old result printer.new }
{
    printer.start_line(comma_due)?;
    printer.put_key(key)?;
    printer.put_piece(": ")?;
    put_ref(value, printer)
}
