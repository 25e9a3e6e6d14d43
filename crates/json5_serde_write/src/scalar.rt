//! Values without brackets.

ghost use Rattle.json5_serde_write.specs.Scalars.{scalar_tree};
ghost use Rattle.json5_write.specs.ShortWrites.{PutsTree};

use json5_types::decimal::Decimal;
use json5_write::Printer;
use json5_write::literals::bool_name;
use json5_write::refusal::Put;
use json5_write::string_writer::StringWriter;

/// A value without brackets.
#[derive(Clone, Copy)]
pub(crate) enum Scalar<'a> {
    Null,
    Bool(bool),
    Unsigned(u128),
    Signed(i128),
    Decimal(&'a Decimal),
    Text(&'a str),
}

/// Writes it.
#[inline(always)]
pub(crate) fn put_scalar(scalar: Scalar<'_>, printer: &mut Printer<StringWriter>) -> Put
    ensures { PutsTree (scalar_tree scalar.entry) printer.old result printer.new }
{
    match scalar {
        Scalar::Null => printer.put_piece("null"),
        Scalar::Bool(truth) => printer.put_piece(bool_name(truth)),
        Scalar::Unsigned(number) => printer.put_unsigned(number),
        Scalar::Signed(number) => printer.put_signed(number),
        Scalar::Decimal(number) => printer.put_decimal(number),
        Scalar::Text(text) => printer.put_str(text),
    }
}
