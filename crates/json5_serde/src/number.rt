//! Fields that are spelled as a whole number, by `Display` and `FromStr`: `#[serde(with = "json5_serde::number")]`.
//!
//! ```text
//! #[derive(Drop, Serialize, Deserialize)]
//! struct Pool {
//!     #[serde(with = "json5_serde::number")]
//!     workers: NonZeroU16,
//! }
//! ```
//!
//! `{ workers: 0x10 }` is read, and `16` written.

use serde::{Deserializer, Format, Kind, Serializer};
use std::alloc::Global;
use std::fmt::{Display, InlineText};
use std::str::FromStr;

/// The digits of a whole number, and its sign.
type Digits = InlineText<40>;

/// Sends the whole number that `Display` prints.
///
/// # Errors
///
/// - `not a whole number`, a custom fault, where it prints anything else.
/// - As the serializer's.
pub fn serialize<T: Display, S: Serializer>(x: &T, out: &mut S) -> Result<(), S::Error> {
    let digits = Digits::of(x);
    if let Ok(n) = u128::from_str(digits.as_str()) {
        return out.u128(n);
    }
    match i128::from_str(digits.as_str()) {
        Ok(n) => out.i128(n),
        Err(_) => Err(out.custom("not a whole number")),
    }
}

/// Reads a whole number, and gives its decimal digits to `FromStr`.
///
/// # Errors
///
/// - What `FromStr` says of a number that it refuses, as far as 128 bytes, at the number.
/// - As the format's, where no whole number stands.
pub fn deserialize<'de, T: FromStr + Drop, F: Format>(
    _alloc: Global,
    from: &mut Deserializer<'de, '_, F>,
) -> Result<T, F::Error>
where
    T::Err: Display + Drop,
{
    let digits = digits(from)?;
    match T::from_str(digits.as_str()) {
        Ok(x) => Ok(x),
        Err(error) => Err(from.custom(InlineText::<128>::of(error).as_str())),
    }
}

/// The digits of the whole number that is next.
fn digits<F: Format>(from: &mut Deserializer<'_, '_, F>) -> Result<Digits, F::Error> {
    match from.peek()? {
        Kind::Unsigned => Ok(Digits::of(from.u128()?)),
        _ => Ok(Digits::of(from.i128()?)),
    }
}
