//! Numbers within bounds.

ghost use Rattle.std.specs.Prelude.{◌≡◌, ◌^◌, ◌≤ℤ◌, ℤ};
ghost use Rattle.json5_de.specs.Convert.{signed_below};
ghost use Rattle.json5_de.specs.ConvertLists.{if_some};
ghost use Rattle.json5_de.specs.Refinement.{refined, RefusesOwn};
ghost use Rattle.json5_ser.specs.WrittenTrees.{integer};
ghost use Rattle.json5_settings_types.specs.Bounds.{if_within, NumberReadsBack};

use crate::faults::fault_at;
use json5_de::{Deserialize, Deserializer, Spanned};
use json5_ser::{Serialize, Serializer};
use json5_tokens::input::Input;
use json5_types::error::Result;
use std::io::Write;

/// A whole number from `LOW` to `HIGH`, both included: `Within<1024, 65535>`.
#[derive(Clone, Copy, Debug, PartialEq, Eq, PartialOrd, Ord, Hash)]
pub struct Within<const LOW: i64, const HIGH: i64> {
    /// The number. One that is read, or made by `new`, is within the bounds.
    pub number: i64,
}

impl<const LOW: i64, const HIGH: i64> Within<LOW, HIGH> {
    /// The number, if it is within the bounds.
    ///
    /// ```text
    /// let port = Within::<1024, 65535>::new(8080).unwrap();
    /// ```
    pub fn new(number: i64) -> Option<Self>
        ensures { if_some (λ w. w.number) result ≡ if_within LOW HIGH number }
    {
        if number < LOW || HIGH < number {
            return None;
        }
        Some(Within { number })
    }
}

/// A number; one that isn't within the bounds is refused at its position: `expected a number from 1 to 9, found 10`.
impl<I: Input, const LOW: i64, const HIGH: i64> Deserialize<I> for Within<LOW, HIGH> {
    ghost Content = { ℤ };

    ghost content = { λ w. w.number };

    ghost convert = { refined (signed_below (2 ^ 63)) (if_within LOW HIGH) };

    ghost refuses = { RefusesOwn (signed_below (2 ^ 63)) (if_within LOW HIGH) ⟦<Spanned<i64> as Deserialize<I>>⟧.refuses };

    fn deserialize(de: &mut Deserializer<I>) -> Result<Self> {
        let read = match Spanned::<i64>::deserialize(de) {
            Ok(read) => read,
            Err(e) => return Err(e),
        };
        let found = read.value;
        let Some(within) = Within::new(found) else {
            let message = format_args!("expected a number from {LOW} to {HIGH}, found {found}");
            return Err(fault_at(de, read.start, message));
        };
        Ok(within)
    }
}

/// Its decimal digits, after a minus where it is negative.
impl<const LOW: i64, const HIGH: i64> Serialize for Within<LOW, HIGH> {
    ghost tree = { λ w. integer w.number };

    fn serialize<W: Write + Drop>(&self, ser: &mut Serializer<W>) -> Result<()> {
        ser.serialize_i64(self.number)
    }
}

/// The law of numbers within bounds: what is written of one reads back. The call does nothing.
pub fn numbers_read_back()
    ensures { (low high z : ℤ) → low ≤ℤ z → z ≤ℤ high → NumberReadsBack low high z }
{}
