//! Expressions in a literal.

ghost use Rattle.std.specs.Prelude.{◌≡◌, [], ◌∷◌, pos, MatchOption, MatchResult, string_bytes};
ghost use Rattle.std.specs.Str.{chars};
ghost use Rattle.json5_grammar.specs.Language.Numbers.{whole, decimal};
ghost use Rattle.json5_types.specs.Errors.{LacksMemory};
ghost use Rattle.json5_types.specs.ValueMeanings.{null, boolean, number, text, array, object, value_of, items_view, fields_view};

use json5_types::decimal::Decimal;
use json5_types::error::Result;
use json5_types::value::Value;
use json5_types::whole::Whole;
use std::alloc::Global;

/// What `json5!` takes as an expression: all that `Value` is made of by `From`, a `Value`, a `&str`, a `&String`, a `char`, and
/// an `Option` of what it takes, whose `None` is null.
///
/// A float is none, since few floats are the decimal that was written. A decimal is an expression of type `Decimal`.
///
/// ```text
/// json5!(in alloc; [80, -1, "a text", 'c', (ports.len()), (Value::text(alloc, name)?)])?
/// ```
pub trait ToValue {
    ghost use Rattle.json5_types.specs.declared.value.Value.{Value};

    // Holds of an expression's value and each `Value` that may be made of it.
    ghost gives: { Self → Value → Type 0 };

    /// Makes the value.
    ///
    /// # Errors
    ///
    /// - `OutOfMemory`, without a position, where a request for memory was refused.
    fn to_value(self, alloc: Global) -> Result<Value>
        ensures { MatchResult result (gives self) LacksMemory };
}

impl ToValue for Value {
    ghost gives = { λ x v. value_of v ≡ value_of x };

    fn to_value(self, _alloc: Global) -> Result<Value> {
        Ok(self)
    }
}

impl ToValue for () {
    ghost gives = { λ _ v. value_of v ≡ null };

    fn to_value(self, _alloc: Global) -> Result<Value> {
        Ok(Value::Null)
    }
}

impl<T: ToValue> ToValue for Option<T> {
    ghost gives = { λ o v. MatchOption o (value_of v ≡ null) (λ x. T.gives x v) };

    fn to_value(self, alloc: Global) -> Result<Value> {
        match self {
            Some(content) => content.to_value(alloc),
            None => Ok(Value::Null),
        }
    }
}

impl ToValue for bool {
    ghost gives = { λ truth v. value_of v ≡ boolean truth };

    fn to_value(self, _alloc: Global) -> Result<Value> {
        Ok(Value::from(self))
    }
}

impl ToValue for u8 {
    ghost gives = { λ n v. value_of v ≡ number (whole (pos n)) };

    fn to_value(self, _alloc: Global) -> Result<Value> {
        Ok(Value::from(self))
    }
}

impl ToValue for u16 {
    ghost gives = { λ n v. value_of v ≡ number (whole (pos n)) };

    fn to_value(self, _alloc: Global) -> Result<Value> {
        Ok(Value::from(self))
    }
}

impl ToValue for u32 {
    ghost gives = { λ n v. value_of v ≡ number (whole (pos n)) };

    fn to_value(self, _alloc: Global) -> Result<Value> {
        Ok(Value::from(self))
    }
}

impl ToValue for u64 {
    ghost gives = { λ n v. value_of v ≡ number (whole (pos n)) };

    fn to_value(self, _alloc: Global) -> Result<Value> {
        Ok(Value::from(self))
    }
}

impl ToValue for u128 {
    ghost gives = { λ n v. value_of v ≡ number (whole (pos n)) };

    fn to_value(self, _alloc: Global) -> Result<Value> {
        Ok(Value::from(self))
    }
}

impl ToValue for usize {
    ghost gives = { λ n v. value_of v ≡ number (whole (pos n)) };

    fn to_value(self, _alloc: Global) -> Result<Value> {
        Ok(Value::from(self))
    }
}

impl ToValue for i8 {
    ghost gives = { λ z v. value_of v ≡ number (whole z) };

    fn to_value(self, _alloc: Global) -> Result<Value> {
        Ok(Value::from(self))
    }
}

impl ToValue for i16 {
    ghost gives = { λ z v. value_of v ≡ number (whole z) };

    fn to_value(self, _alloc: Global) -> Result<Value> {
        Ok(Value::from(self))
    }
}

impl ToValue for i32 {
    ghost gives = { λ z v. value_of v ≡ number (whole z) };

    fn to_value(self, _alloc: Global) -> Result<Value> {
        Ok(Value::from(self))
    }
}

impl ToValue for i64 {
    ghost gives = { λ z v. value_of v ≡ number (whole z) };

    fn to_value(self, _alloc: Global) -> Result<Value> {
        Ok(Value::from(self))
    }
}

impl ToValue for i128 {
    ghost gives = { λ z v. value_of v ≡ number (whole z) };

    fn to_value(self, _alloc: Global) -> Result<Value> {
        Ok(Value::from(self))
    }
}

impl ToValue for isize {
    ghost gives = { λ z v. value_of v ≡ number (whole z) };

    fn to_value(self, _alloc: Global) -> Result<Value> {
        Ok(Value::from(self))
    }
}

impl ToValue for Whole {
    ghost gives = { λ z v. value_of v ≡ number (whole z) };

    fn to_value(self, _alloc: Global) -> Result<Value> {
        Ok(Value::from(self))
    }
}

impl ToValue for Decimal {
    ghost gives = { λ d v. value_of v ≡ number (decimal d) };

    fn to_value(self, _alloc: Global) -> Result<Value> {
        Ok(Value::from(self))
    }
}

impl ToValue for String {
    ghost gives = { λ s v. value_of v ≡ text (chars (string_bytes s)) };

    fn to_value(self, _alloc: Global) -> Result<Value> {
        Ok(Value::from(self))
    }
}

impl ToValue for Vec<Value> {
    ghost gives = { λ vs v. value_of v ≡ array (items_view vs.items) };

    fn to_value(self, _alloc: Global) -> Result<Value> {
        Ok(Value::from(self))
    }
}

impl ToValue for Vec<(String, Value)> {
    ghost gives = { λ fs v. value_of v ≡ object (fields_view fs.items) };

    fn to_value(self, _alloc: Global) -> Result<Value> {
        Ok(Value::from(self))
    }
}

impl ToValue for &str {
    ghost gives = { λ x v. value_of v ≡ text (chars x.now) };

    fn to_value(self, alloc: Global) -> Result<Value> {
        Value::text(alloc, self)
    }
}

impl ToValue for &String {
    ghost gives = { λ x v. value_of v ≡ text (chars (string_bytes x.now)) };

    fn to_value(self, alloc: Global) -> Result<Value> {
        Value::text(alloc, self.as_str())
    }
}

impl ToValue for char {
    ghost gives = { λ c v. value_of v ≡ text (c ∷ []) };

    fn to_value(self, alloc: Global) -> Result<Value> {
        let mut bytes = [0u8; 4];
        Value::text(alloc, self.encode_utf8(&mut bytes))
    }
}
