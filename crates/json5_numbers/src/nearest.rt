//! The float nearest to a number of any kind.

ghost use Rattle.std.specs.Prelude.{◌≡◌, MatchResult, option_map};
ghost use Rattle.std.specs.Float.{binary64};
ghost use Rattle.json5_types.specs.Errors.{LacksMemory};
ghost use Rattle.json5_numbers.specs.Floats.{nearest_to_number};

use crate::decimals::to_f64;
use crate::wholes::nearest_float;
use json5_types::decimal::Decimal;
use json5_types::error::Result;
use json5_types::number::Number;
use json5_types::value::Value;
use json5_types::whole::Whole;
use std::alloc::Global;

/// What may have a nearest float: a `Value`, a `Number`, a `Decimal` or a `Whole`.
///
/// ```text
/// use json5::AsF64;
/// settings.get("ratio")?.as_f64(alloc)?    // Some(0.5) of `{ratio: 0.5}`, Some(2.0) of `{ratio: 2}`, None of `{ratio: '2'}`
/// ```
pub trait AsF64 {
    ghost use Rattle.std.specs.Prelude.{Option};
    ghost use Rattle.json5_grammar.specs.Language.Numbers.{Number};

    /// The number that it is, if it is one.
    ghost number: { Self → Option Number };

    /// Returns the float nearest to the number, with ties to even, or None for what is no number. It is an infinity where the
    /// number is too large, and zero with its sign where it is too small. Only a decimal of more than 19 digits takes memory.
    ///
    /// # Errors
    ///
    /// - `OutOfMemory`, without a position, where a request for memory was refused.
    fn as_f64(&self, alloc: Global) -> Result<Option<f64>>
        ensures { MatchResult result (λ x. x ≡ option_map (nearest_to_number binary64) (number self.now)) LacksMemory };
}

impl AsF64 for Whole {
    ghost use Rattle.std.specs.Prelude.{Some};
    ghost use Rattle.json5_grammar.specs.Language.Numbers.{whole};

    ghost number = { λ z. Some (whole z) };

    fn as_f64(&self, _alloc: Global) -> Result<Option<f64>> {
        Ok(Some(nearest_float(*self)))
    }
}

impl AsF64 for Decimal {
    ghost use Rattle.std.specs.Prelude.{Some};
    ghost use Rattle.json5_grammar.specs.Language.Numbers.{decimal};

    ghost number = { λ d. Some (decimal d) };

    fn as_f64(&self, alloc: Global) -> Result<Option<f64>> {
        Ok(Some(to_f64(alloc, self)?))
    }
}

impl AsF64 for Number {
    ghost use Rattle.std.specs.Prelude.{Some};
    ghost use Rattle.json5_types.specs.NumberMeanings.{number_of};

    ghost number = { λ n. Some (number_of n) };

    fn as_f64(&self, alloc: Global) -> Result<Option<f64>> {
        match self {
            Number::Whole(number) => number.as_f64(alloc),
            Number::Decimal(number) => number.as_f64(alloc),
        }
    }
}

impl AsF64 for Value {
    ghost use Rattle.json5_types.specs.ValueMeanings.{value_of};
    ghost use Rattle.json5_types.specs.ValueKinds.{number_in};

    ghost number = { λ v. number_in (value_of v) };

    fn as_f64(&self, alloc: Global) -> Result<Option<f64>> {
        match self {
            Value::Whole(number) => number.as_f64(alloc),
            Value::Decimal(number) => number.as_f64(alloc),
            _ => Ok(None),
        }
    }
}
