//! Numbers of both kinds.

use crate::decimal::Decimal;
use crate::whole::Whole;

/// What a number means (JSON5 section 6): a whole number from `i128::MIN` to `u128::MAX` where it has neither point nor
/// exponent, or is hexadecimal; else a decimal.
#[derive(Drop)]
pub enum Number {
    /// A whole number: `12`, `-0x1F`.
    Whole(Whole),
    /// Any other: `1.5`, `1e3`, `Infinity`, `NaN`, or a whole number in decimal digits that is out of that range.
    Decimal(Decimal),
}
