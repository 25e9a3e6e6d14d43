//! Numbers with more digits than a float keeps.

use serde::{Case, Serializer};
use std::fmt::Display;

/// The name by which a number is sent as its text: no variant has it.
const RAW_NUMBER: &str = "\0json5 number";

/// Sends a number by its text, which has to be a number of JSON5. Only the serializer of this crate knows this step.
///
/// ```text
/// json5_serde::raw_number(&price, out)?;    // 0.10000000000000000001, a Decimal, with all its digits
/// ```
///
/// # Errors
///
/// As the serializer's: what is printed is no number.
pub fn raw_number<T: Display, S: Serializer>(number: &T, out: &mut S) -> Result<(), S::Error> {
    out.str_cased(RAW_NUMBER, Case::AsIs)?;
    out.collect_str(number)
}

/// Whether this name says that a number comes.
pub(crate) fn is_raw_number(name: &str) -> bool {
    name == RAW_NUMBER
}
