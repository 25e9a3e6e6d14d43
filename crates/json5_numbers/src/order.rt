//! The order of decimals.

ghost use Rattle.std.specs.Prelude.{◌≡◌, ◌&&◌, pos, ◌+ℤ◌, length, false, Some};
ghost use Rattle.std.specs.Ordering.{int_cmp};
ghost use Rattle.json5_grammar.specs.Written.NumberText.{IsNormal};
ghost use Rattle.json5_types.specs.NumberDecimals.{is_not_a_number};
ghost use Rattle.json5_numbers.specs.Orders.{decimal_cmp};
ghost use Rattle.json5_numbers.specs.SizeOrders.{digits_cmp, size_cmp, is_zero, signed_cmp};

use json5_types::decimal::Decimal;
use std::cmp::Ordering;

/// The place of the first digit: the power of ten above it.
fn place(digits: &str, exponent: i16) -> i128
    ensures { result ≡ pos (length digits.now) +ℤ exponent }
{
    digits.len() as i128 + i128::from(exponent)
}

/// The order of the places of the first digits.
fn places_order(digits: &str, exponent: i16, others: &str, power: i16) -> Ordering
    ensures { result ≡ int_cmp (pos (length digits.now) +ℤ exponent) (pos (length others.now) +ℤ power) }
{
    place(digits, exponent).cmp(&place(others, power))
}

/// The order of two sizes. Where their first digits stand at one place, the digits are compared one by one.
fn digits_order(digits: &str, exponent: i16, others: &str, power: i16) -> Ordering
    requires first { IsNormal digits.now exponent }
    requires second { IsNormal others.now power }
    ensures { result ≡ digits_cmp digits.now exponent others.now power }
{
    if digits.is_empty() || others.is_empty() {
        return others.is_empty().cmp(&digits.is_empty());
    }
    let order = places_order(digits, exponent, others, power);
    order.then(digits.cmp(others))
}

/// The order of two sizes, whatever the signs; infinity is above all others.
fn size_order(number: &Decimal, other: &Decimal) -> Ordering
    ensures { result ≡ size_cmp number.now other.now }
{
    if number.is_infinite() || other.is_infinite() {
        return number.is_infinite().cmp(&other.is_infinite());
    }
    digits_order(
        number.digits(),
        number.exponent(),
        other.digits(),
        other.exponent(),
    )
}

/// Whether it is zero, of either sign; of no matter at not-a-number.
fn is_zero(number: &Decimal) -> bool
    ensures { result ≡ is_zero number.now }
{
    !number.is_infinite() && number.digits().is_empty()
}

/// Whether both are zero.
fn are_zero(number: &Decimal, other: &Decimal) -> bool
    ensures { result ≡ (is_zero number.now && is_zero other.now) }
{
    is_zero(number) && is_zero(other)
}

/// The order of two numbers with these signs, by the order of their sizes, and whether both are zero.
fn signed_order(negative: bool, other_negative: bool, zeros: bool, sizes: Ordering) -> Ordering
    ensures { result ≡ signed_cmp negative other_negative zeros sizes }
{
    match (negative, other_negative) {
        (false, false) => sizes,
        (true, true) => sizes.reverse(),
        _ if zeros => Ordering::Equal,
        (true, false) => Ordering::Less,
        (false, true) => Ordering::Greater,
    }
}

/// The order of two numbers, neither of which is not-a-number.
pub(crate) fn order(number: &Decimal, other: &Decimal) -> Ordering
    requires first { is_not_a_number number.now ≡ false }
    requires second { is_not_a_number other.now ≡ false }
    ensures { decimal_cmp number.now other.now ≡ Some result }
{
    let sizes = size_order(number, other);
    let zeros = are_zero(number, other);
    signed_order(number.is_negative(), other.is_negative(), zeros, sizes)
}
