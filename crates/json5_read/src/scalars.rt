//! Values that are no collection: null, booleans, numbers and strings (JSON5 sections 2, 5 and 6). A call that is refused returns
//! None, and leaves its error in `fault`.

ghost use Rattle.std.specs.Prelude.{◌≡◌, ℕ};
ghost use Rattle.json5_types.specs.NumberMeanings.{number_of};
ghost use Rattle.json5_types.specs.ValueMeanings as datum;
ghost use Rattle.json5_types.specs.ValueMeanings.{value_of};
ghost use Rattle.json5_tokens.specs.ShortWays.{TakesShortDecimal};
ghost use Rattle.json5_read.specs.OwnedReads.{KeepsShort, ReadsScalar, datum_of_literal};
ghost use Rattle.json5_read.specs.Opening.{AtScalar};
ghost use Rattle.json5_read.specs.SkipSteps.{PassesShort};
ghost use Rattle.json5_read.specs.ModelSteps.{Steps, answered, value_at};

use crate::faults::{leave_error, leave_here};
use crate::kinds::{Literal, ValueKind, kind_at, short_literal, skip_literal};
use json5_tokens::input::Input;
use json5_tokens::scanner::Scanner;
use json5_types::ErrorCode;
use json5_types::decimal::Decimal;
use json5_types::error::Error;
use json5_types::number::Number;
use json5_types::value::Value;
use json5_types::whole::Whole;

#[inline(always)]
fn value_of_literal(literal: Literal) -> Value
    ensures { value_of result ≡ datum_of_literal literal }
{
    match literal {
        Literal::Null => Value::Null,
        Literal::True => Value::Bool(true),
        Literal::False => Value::Bool(false),
    }
}

#[inline(always)]
fn value_of_number(number: Number) -> Value
    ensures { value_of result ≡ datum.number (number_of number) }
{
    match number {
        Number::Whole(whole) => Value::Whole(whole),
        Number::Decimal(decimal) => Value::Decimal(decimal),
    }
}

/// Takes a value that is no collection and begins with the character, whether or not it has a short way.
#[cold]
#[inline(never)]
pub(crate) fn read_scalar<I: Input>(
    scanner: &mut Scanner<I>,
    c: char,
    fault: &mut Error,
) -> Option<Value>
    requires { AtScalar c scanner.old }
    ensures { ReadsScalar scanner.old scanner.new (answered result fault.new) }
{
    // Goals below need what `offset` promises: what is unread is of scalar values.
    let _offset = scanner.offset();
    match kind_at(c) {
        ValueKind::Literal(literal) => {
            leave_error(skip_literal(scanner, literal), fault)?;
            Some(value_of_literal(literal))
        }
        ValueKind::String => {
            let text = leave_error(scanner.string_owned(), fault)?;
            Some(Value::String(text))
        }
        ValueKind::Number => {
            let number = leave_error(scanner.number(), fault)?;
            Some(value_of_number(number))
        }
        ValueKind::Other => {
            leave_here(scanner, ErrorCode::ExpectedValue, fault);
            None
        }
    }
}

/// Takes a decimal whose digits take no memory. It isn't inlined, since it has more locals than the loops that need it.
#[inline(never)]
fn short_decimal<I: Input>(scanner: &mut Scanner<I>) -> Option<Decimal>
    ensures { TakesShortDecimal scanner.old scanner.new result }
{
    scanner.short_decimal()
}

/// Takes a value that is no collection and begins with the character, if it has a short way. The result holds no error, so a loop over
/// values sets nothing to zero for one that has a short way.
#[inline(always)]
pub(crate) fn short_value<I: Input>(scanner: &mut Scanner<I>, c: char) -> Option<Value>
    requires { AtScalar c scanner.old }
    ensures { KeepsShort scanner.old scanner.new result }
{
    // Goals below need what `offset` promises: what is unread is of scalar values.
    let _offset = scanner.offset();
    match kind_at(c) {
        ValueKind::Literal(literal) => {
            if short_literal(scanner, literal) {
                return Some(value_of_literal(literal));
            }
            None
        }
        ValueKind::String => {
            let text = scanner.short_string_owned()?;
            Some(Value::String(text))
        }
        ValueKind::Number => match scanner.short_whole(i128::MIN, i128::MAX) {
            Some(number) => Some(Value::Whole(Whole::from_i128(number))),
            None => {
                let decimal = short_decimal(scanner)?;
                Some(Value::Decimal(decimal))
            }
        },
        ValueKind::Other => None,
    }
}

/// Passes over a value that is no collection and begins with the character, whether or not it has a short way.
#[inline(never)]
pub(crate) fn skip_scalar<I: Input>(
    scanner: &mut Scanner<I>,
    c: char,
    fault: &mut Error,
) -> Option<()>
    requires { AtScalar c scanner.old }
    ensures { (room : ℕ) → Steps (value_at room scanner.old) scanner.old scanner.new (answered result fault.new) }
{
    match kind_at(c) {
        ValueKind::Literal(literal) => leave_error(skip_literal(scanner, literal), fault),
        ValueKind::String => leave_error(scanner.skip_string(), fault),
        ValueKind::Number => {
            leave_error(scanner.skip_number(), fault)?;
            Some(())
        }
        ValueKind::Other => {
            leave_here(scanner, ErrorCode::ExpectedValue, fault);
            None
        }
    }
}

/// Passes over a literal, a string without an escape or a number of few digits that begins with the character, and says whether one
/// is in front.
#[inline(always)]
pub(crate) fn short_scalar<I: Input>(scanner: &mut Scanner<I>, c: char) -> bool
    requires { AtScalar c scanner.old }
    ensures { PassesShort scanner.old scanner.new result }
{
    match kind_at(c) {
        ValueKind::Literal(literal) => short_literal(scanner, literal),
        ValueKind::String => scanner.short_string().is_some(),
        ValueKind::Number => scanner.short_number(),
        ValueKind::Other => false,
    }
}
