//! Floats.

ghost use Rattle.std.specs.Prelude.{◌≡◌, Some, MatchResult};
ghost use Rattle.std.specs.Float.Ieee as ieee;
ghost use Rattle.json5_grammar.specs.Language.Numbers as numbers;
ghost use Rattle.json5_de.specs.Convert.{decimal_of};
ghost use Rattle.json5_de.specs.ConvertLists.{if_some};
ghost use Rattle.json5_de.specs.Refinement.{refined, RefusesOwn};
ghost use Rattle.json5_ser.specs.WrittenTrees.{number};
ghost use Rattle.json5_types.specs.Errors.{LacksMemory};
ghost use Rattle.json5_settings_types.specs.Floats.{FloatsReadBack, if_finite, nearest_if_finite};

use crate::faults::fault_at;
use json5_de::{Deserialize, Deserializer, Spanned};
use json5_numbers::DecimalExt;
use json5_ser::{Serialize, Serializer};
use json5_tokens::input::Input;
use json5_types::decimal::Decimal;
use json5_types::error::Result;
use std::alloc::Global;
use std::io::Write;

/// A finite float, and the number that it was read from.
#[derive(Drop)]
pub struct Float {
    /// The float nearest to the number, with ties to even.
    pub float: f64,
    /// The number with each of its digits, which is written again.
    pub decimal: Decimal,
    ghost nearest: { nearest_if_finite decimal ≡ Some float },
}

impl Float {
    /// The float with the shortest digits that read back as it, if it is finite.
    ///
    /// ```text
    /// let ratio = Float::new(alloc, 0.5)?.unwrap();
    /// ```
    ///
    /// # Errors
    ///
    /// `OutOfMemory` where a request for memory was refused. It has no position.
    pub fn new(alloc: Global, float: f64) -> Result<Option<Self>>
        ensures { MatchResult result (λ made. if_some (λ f. f.float) made ≡ if_finite float) LacksMemory }
    {
        let decimal = Decimal::from_f64(alloc, float)?;
        if !float.is_finite() {
            return Ok(None);
        }
        Ok(Some(Float { float, decimal }))
    }
}

/// A number; one that isn't finite, or to which no finite float is nearest, is refused at its position: `expected a finite
/// number, found Infinity`.
impl<I: Input> Deserialize<I> for Float {
    ghost Content = { ieee.Float };

    ghost content = { λ f. f.float };

    ghost convert = { refined decimal_of nearest_if_finite };

    ghost refuses = { RefusesOwn decimal_of nearest_if_finite ⟦<Spanned<Decimal> as Deserialize<I>>⟧.refuses };

    fn deserialize(de: &mut Deserializer<I>) -> Result<Self> {
        let read = match Spanned::<Decimal>::deserialize(de) {
            Ok(read) => read,
            Err(e) => return Err(e),
        };
        let decimal = read.value;
        let float = match decimal.to_f64(de.allocator()) {
            Ok(float) => float,
            Err(e) => return Err(e),
        };
        if !float.is_finite() {
            let message = format_args!("expected a finite number, found {decimal}");
            return Err(fault_at(de, read.start, message));
        }
        Ok(Float { float, decimal })
    }
}

/// The number in plain notation with a point.
impl Serialize for Float {
    ghost tree = { λ f. number (numbers.decimal f.decimal) };

    fn serialize<W: Write + Drop>(&self, ser: &mut Serializer<W>) -> Result<()> {
        self.decimal.serialize(ser)
    }
}

/// The law of floats: what is written of one reads back. The call does nothing.
pub fn floats_read_back()
    ensures { FloatsReadBack }
{}
