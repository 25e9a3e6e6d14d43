//! Whole numbers of 128 bits, signed or not.

ghost use Rattle.std.specs.Prelude.{◌≡◌, ◌^◌, ◌≤◌, ◌↔◌, ℤ, pos, ◌≤ℤ◌, ◌<ℤ◌, IsSome, IfSome, Some};
ghost use Rattle.std.specs.Fmt.{signed_decimal};
ghost use Rattle.json5_grammar.specs.Language.Numbers.{signed, InWhole};
ghost use Rattle.json5_types.specs.NumberWholes.{Converts};

use crate::u128_halves::Wide;
use std::fmt;
use std::marker::Model;

/// A whole number from `i128::MIN` to `u128::MAX`. Each has only one `Whole`, so zero has no sign.
///
/// ```text
/// Whole::from_u128(u128::MAX).as_i128()    // None
/// Whole::from_i128(-7).as_u128()           // None
/// ```
#[derive(Clone, Copy, Debug, PartialEq, Eq, Hash)]
pub struct Whole {
    negative: bool,
    magnitude: Wide,
}

impl Model for Whole {
    ghost use Rattle.std.specs.Prelude.{ℤ};
    ghost use Rattle.json5_grammar.specs.Language.Numbers.{signed};
    ghost use Rattle.json5_types.specs.NumberWholes.{is_below_zero, distance, IsSignedWhole};

    ghost Value = { ℤ };

    ghost view = { λ w. signed w.negative w.magnitude };

    ghost invariant = { λ w. IsSignedWhole w.negative w.magnitude };

    ghost inverse = { λ z. record { negative = is_below_zero z; magnitude = distance z } };
}

impl Whole {
    /// Returns the whole number that this is.
    ///
    /// ```text
    /// Value::Whole(Whole::from_u128(80))    // what `80` is read as
    /// ```
    pub fn from_u128(number: u128) -> Whole
        ensures { result ≡ pos number }
    {
        Whole {
            negative: false,
            magnitude: Wide::new(number),
        }
    }

    /// Returns the whole number that this is.
    ///
    /// ```text
    /// Whole::from_i128(-7)    // what `-7` is read as, in a `Value`
    /// ```
    pub fn from_i128(number: i128) -> Whole
        ensures { result ≡ number }
    {
        Whole {
            negative: number < 0,
            magnitude: Wide::new(number.unsigned_abs()),
        }
    }

    /// Returns the number with this sign and this distance from zero; None if it is below `i128::MIN`.
    pub fn from_parts(negative: bool, magnitude: u128) -> Option<Whole>
        ensures in_range { IsSome result ↔ InWhole (signed negative magnitude) }
        ensures value { IfSome result (λ w. w ≡ signed negative magnitude) }
    {
        if !negative || magnitude == 0 {
            Some(Whole::from_u128(magnitude))
        } else if magnitude <= 1 << 127 {
            Some(Whole {
                negative,
                magnitude: Wide::new(magnitude),
            })
        } else {
            None
        }
    }

    /// Returns the number, or None where it is below zero.
    ///
    /// ```text
    /// Whole::from_i128(-7).as_u128()    // None
    /// ```
    pub fn as_u128(self) -> Option<u128>
        ensures { Converts pos (λ z. pos 0 ≤ℤ z) self result }
    {
        if self.negative {
            None
        } else {
            Some(self.magnitude.get())
        }
    }

    /// Returns the number, or None where it is above `i128::MAX`.
    ///
    /// ```text
    /// Whole::from_u128(u128::MAX).as_i128()    // None
    /// ```
    pub fn as_i128(self) -> Option<i128>
        ensures { Converts (λ number. number) (λ z. z <ℤ pos (2 ^ 127)) self result }
    {
        let magnitude = self.magnitude.get();
        if self.negative {
            let above = (magnitude - 1) as i128;
            Some(-1 - above)
        } else if magnitude < 1 << 127 {
            Some(magnitude as i128)
        } else {
            None
        }
    }
}

impl fmt::Display for Whole {
    ghost output = { λ z. Some (signed_decimal z) };

    /// Prints the number's decimal digits, after a minus where it is below zero.
    fn fmt<W: fmt::Write>(&self, f: &mut fmt::Formatter<W>) -> fmt::Result {
        match self.as_i128() {
            Some(number) => number.fmt(f),
            None => self.magnitude.get().fmt(f),
        }
    }
}
