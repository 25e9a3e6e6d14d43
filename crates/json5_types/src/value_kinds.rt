//! Which kind a value is, and how many it holds.

ghost use Rattle.std.specs.Prelude.{◌≡◌, is_some};
ghost use Rattle.json5_types.specs.ValueMeanings.{value_of, fields_view};
ghost use Rattle.json5_types.specs.ValueLookups.{boolean_of, whole_of, decimal_in, text_in, items_in, fields_in};
ghost use Rattle.json5_types.specs.ValueKinds.{number_in, len_of, members_of};

use crate::value::Value;

impl Value {
    /// Says whether it is a boolean.
    pub fn is_boolean(&self) -> bool
        ensures { result ≡ is_some (boolean_of (value_of self.now)) }
    {
        matches!(self, Value::Bool(_))
    }

    /// Says whether it is a number of either kind: whole, or a decimal.
    pub fn is_number(&self) -> bool
        ensures { result ≡ is_some (number_in (value_of self.now)) }
    {
        matches!(self, Value::Whole(_) | Value::Decimal(_))
    }

    /// Says whether it is a whole number: see [`as_whole`](Value::as_whole).
    pub fn is_whole(&self) -> bool
        ensures { result ≡ is_some (whole_of (value_of self.now)) }
    {
        matches!(self, Value::Whole(_))
    }

    /// Says whether it is a decimal: see [`as_decimal`](Value::as_decimal).
    pub fn is_decimal(&self) -> bool
        ensures { result ≡ is_some (decimal_in (value_of self.now)) }
    {
        matches!(self, Value::Decimal(_))
    }

    /// Says whether it is a string.
    pub fn is_string(&self) -> bool
        ensures { result ≡ is_some (text_in (value_of self.now)) }
    {
        matches!(self, Value::String(_))
    }

    /// Says whether it is an array.
    pub fn is_array(&self) -> bool
        ensures { result ≡ is_some (items_in (value_of self.now)) }
    {
        matches!(self, Value::Array(_))
    }

    /// Says whether it is an object.
    pub fn is_object(&self) -> bool
        ensures { result ≡ is_some (fields_in (value_of self.now)) }
    {
        matches!(self, Value::Object(_))
    }

    /// Returns how many elements an array has or how many members an object, those with equal keys counted each; None for any
    /// other value.
    ///
    /// ```text
    /// settings.get("ports")?.len()    // Some(2) of `{ports: [80, 443]}`
    /// ```
    pub fn len(&self) -> Option<usize>
        ensures { result ≡ len_of (value_of self.now) }
    {
        match self {
            Value::Array(items) => Some(items.len()),
            Value::Object(fields) => Some(fields.len()),
            _ => None,
        }
    }

    /// Returns the members of an object in their order, each a key's text and its value. A value that is no object has none.
    ///
    /// ```text
    /// for (name, port) in settings.entries() { .. }
    /// ```
    pub fn entries(&self) -> &[(String, Value)]
        ensures { fields_view result.now ≡ members_of (value_of self.now) }
    {
        match self {
            Value::Object(fields) => fields.as_slice(),
            _ => &[],
        }
    }
}
