//! The floats nearest to numbers.

use fast_float::FastFloat;
use json5_types::number::Number;
use json5_types::whole::Whole;

/// The float nearest to a number that stands so in the text.
pub(crate) fn nearest<F: FastFloat>(number: &Number, text: &str) -> Option<F> {
    match number {
        Number::Whole(whole) => nearest_whole(*whole, text.starts_with('-')),
        Number::Decimal(_) => fast_float::parse::<F, _>(text).ok(),
    }
}

/// The float nearest to a whole number, by its decimal digits: a cast would have to be exact. Zero has the sign that stands
/// before it.
fn nearest_whole<F: FastFloat>(whole: Whole, has_minus: bool) -> Option<F> {
    let mut buffer = itoa::Buffer::new();
    let digits = match whole.as_u128() {
        Some(0) if has_minus => "-0",
        Some(n) => buffer.format(n),
        None => buffer.format(whole.as_i128()?),
    };
    fast_float::parse::<F, _>(digits).ok()
}
