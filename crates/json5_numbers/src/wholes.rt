//! Floats of whole numbers.

ghost use Rattle.std.specs.Prelude.{◌≡◌, ◌^◌, ◌<◌};
ghost use Rattle.std.specs.Float.{binary64};
ghost use Rattle.std.specs.Float.Ieee.{round};
ghost use Rattle.json5_types.specs.NumberWholes.{is_below_zero, distance};
ghost use Rattle.json5_numbers.specs.Floats.{nearest_to_whole};

use fast_float::Numeral;
use itoa::Buffer;
use json5_types::whole::Whole;

/// Whether the number is below zero, and its distance from zero.
pub fn sign_and_size(number: Whole) -> (bool, u128)
    ensures sign { result.0 ≡ is_below_zero number }
    ensures size { result.1 ≡ distance number }
    ensures bound { distance number < 2 ^ 128 }
{
    match number.as_u128() {
        Some(size) => (false, size),
        None => (true, number.as_i128().unwrap().unsigned_abs()),
    }
}

/// The float nearest to a whole number, with ties to even. It takes no memory.
pub(crate) fn nearest_float(number: Whole) -> f64
    ensures { result ≡ nearest_to_whole binary64 number }
{
    let (negative, size) = sign_and_size(number);
    match u64::try_from(size) {
        Ok(few) => fast_float::from_parts(negative, few, 0),
        Err(_) => nearest_wide(negative, size),
    }
}

/// The float nearest to a number with this sign and this size.
fn nearest_wide(negative: bool, size: u128) -> f64
    ensures { result ≡ round binary64 negative size 1 }
{
    let mut buffer = Buffer::new();
    let digits = buffer.format(size);
    Numeral::scan(digits.as_bytes()).to_float(negative)
}
