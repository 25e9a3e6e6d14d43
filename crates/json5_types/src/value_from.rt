//! Values that are made of what Rattle's own types hold.

ghost use Rattle.std.specs.Prelude.{◌≡◌, pos, string_bytes, MatchResult};
ghost use Rattle.std.specs.Str.{chars};
ghost use Rattle.json5_grammar.specs.Language.Numbers.{whole, decimal};
ghost use Rattle.json5_types.specs.Errors.{LacksMemory};
ghost use Rattle.json5_types.specs.ValueMeanings as datum;
ghost use Rattle.json5_types.specs.ValueMeanings.{value_of, items_view, fields_view};

use crate::decimal::Decimal;
use crate::error::Result;
use crate::value::Value;
use crate::whole::Whole;
use std::alloc::Global;

impl Value {
    /// Makes a string with a copy of this text.
    ///
    /// ```text
    /// settings.insert(key, Value::text(alloc, "localhost")?)?;
    /// ```
    ///
    /// # Errors
    ///
    /// - `OutOfMemory`, without a position, where a request for memory was refused.
    pub fn text(alloc: Global, content: &str) -> Result<Value>
        ensures { MatchResult result (λ v. value_of v ≡ datum.text (chars content.now)) LacksMemory }
    {
        Ok(Value::String(String::from_str(alloc, content)?))
    }
}

impl From<bool> for Value {
    ghost from_gives = { λ truth v. value_of v ≡ datum.boolean truth };

    fn from(truth: bool) -> Value {
        Value::Bool(truth)
    }
}

impl From<u8> for Value {
    ghost from_gives = { λ n v. value_of v ≡ datum.number (whole (pos n)) };

    fn from(number: u8) -> Value {
        Value::Whole(Whole::from_u128(u128::from(number)))
    }
}

impl From<u16> for Value {
    ghost from_gives = { λ n v. value_of v ≡ datum.number (whole (pos n)) };

    fn from(number: u16) -> Value {
        Value::Whole(Whole::from_u128(u128::from(number)))
    }
}

impl From<u32> for Value {
    ghost from_gives = { λ n v. value_of v ≡ datum.number (whole (pos n)) };

    fn from(number: u32) -> Value {
        Value::Whole(Whole::from_u128(u128::from(number)))
    }
}

impl From<u64> for Value {
    ghost from_gives = { λ n v. value_of v ≡ datum.number (whole (pos n)) };

    fn from(number: u64) -> Value {
        Value::Whole(Whole::from_u128(u128::from(number)))
    }
}

impl From<u128> for Value {
    ghost from_gives = { λ n v. value_of v ≡ datum.number (whole (pos n)) };

    fn from(number: u128) -> Value {
        Value::Whole(Whole::from_u128(number))
    }
}

impl From<usize> for Value {
    ghost from_gives = { λ n v. value_of v ≡ datum.number (whole (pos n)) };

    fn from(number: usize) -> Value {
        Value::Whole(Whole::from_u128(number as u128))
    }
}

impl From<i8> for Value {
    ghost from_gives = { λ z v. value_of v ≡ datum.number (whole z) };

    fn from(number: i8) -> Value {
        Value::Whole(Whole::from_i128(i128::from(number)))
    }
}

impl From<i16> for Value {
    ghost from_gives = { λ z v. value_of v ≡ datum.number (whole z) };

    fn from(number: i16) -> Value {
        Value::Whole(Whole::from_i128(i128::from(number)))
    }
}

impl From<i32> for Value {
    ghost from_gives = { λ z v. value_of v ≡ datum.number (whole z) };

    fn from(number: i32) -> Value {
        Value::Whole(Whole::from_i128(i128::from(number)))
    }
}

impl From<i64> for Value {
    ghost from_gives = { λ z v. value_of v ≡ datum.number (whole z) };

    fn from(number: i64) -> Value {
        Value::Whole(Whole::from_i128(i128::from(number)))
    }
}

impl From<i128> for Value {
    ghost from_gives = { λ z v. value_of v ≡ datum.number (whole z) };

    fn from(number: i128) -> Value {
        Value::Whole(Whole::from_i128(number))
    }
}

impl From<isize> for Value {
    ghost from_gives = { λ z v. value_of v ≡ datum.number (whole z) };

    fn from(number: isize) -> Value {
        Value::Whole(Whole::from_i128(number as i128))
    }
}

impl From<Whole> for Value {
    ghost from_gives = { λ z v. value_of v ≡ datum.number (whole z) };

    fn from(number: Whole) -> Value {
        Value::Whole(number)
    }
}

impl From<Decimal> for Value {
    ghost from_gives = { λ d v. value_of v ≡ datum.number (decimal d) };

    fn from(number: Decimal) -> Value {
        Value::Decimal(number)
    }
}

impl From<String> for Value {
    ghost from_gives = { λ s v. value_of v ≡ datum.text (chars (string_bytes s)) };

    fn from(content: String) -> Value {
        Value::String(content)
    }
}

impl From<Vec<Value>> for Value {
    ghost from_gives = { λ vs v. value_of v ≡ datum.array (items_view vs.items) };

    fn from(items: Vec<Value>) -> Value {
        Value::Array(items)
    }
}

impl From<Vec<(String, Value)>> for Value {
    ghost from_gives = { λ fs v. value_of v ≡ datum.object (fields_view fs.items) };

    fn from(fields: Vec<(String, Value)>) -> Value {
        Value::Object(fields)
    }
}
