//! Places in a value that are changed through a reference.

ghost use Rattle.std.specs.Prelude.{◌≡◌, option_map};
ghost use Rattle.std.specs.Str.{chars};
ghost use Rattle.std.specs.Borrow.{LendsIf, sem};
ghost use Rattle.json5_types.specs.contracts.value.Value.{the_row};
ghost use Rattle.json5_types.specs.declared.value.Value.{Array, Object};
ghost use Rattle.json5_types.specs.ValueMeanings.{value_of, items_view, fields_view};
ghost use Rattle.json5_types.specs.ValueLookups.{items_in, fields_in, last_named};
ghost use Rattle.json5_types.specs.LentValues.{items_row, fields_row, LendsMember};

use crate::value::Value;
use crate::value_changes::last_place;

impl Value {
    /// Returns the elements, if it is an array, so that they can be changed.
    ///
    /// ```text
    /// ports.as_array_mut()?.clear();
    /// ```
    pub fn as_array_mut(&mut self) -> Option<&mut Vec<Value>>
        ensures* writes_back { sem 𝓛 (LendsIf the_row items_row self.entry result Array self.old) }
        ensures value { option_map (λ items. items_view items.now.items) result ≡ items_in (value_of self.old) }
    {
        if let Value::Array(items) = self {
            Some(items)
        } else {
            None
        }
    }

    /// Returns the members, if it is an object, so that they can be changed.
    ///
    /// ```text
    /// let members = settings.as_object_mut()?;
    /// ```
    pub fn as_object_mut(&mut self) -> Option<&mut Vec<(String, Value)>>
        ensures* writes_back { sem 𝓛 (LendsIf the_row fields_row self.entry result Object self.old) }
        ensures value { option_map (λ fields. fields_view fields.now.items) result ≡ fields_in (value_of self.old) }
    {
        if let Value::Object(fields) = self {
            Some(fields)
        } else {
            None
        }
    }
}

/// Returns the value of the last member with this key, so that it can be changed.
///
/// ```text
/// *member_mut(settings.as_object_mut()?, "port")? = Value::from(8080u16);
/// ```
pub fn member_mut<'v>(fields: &'v mut Vec<(String, Value)>, key: &str) -> Option<&'v mut Value>
    ensures* writes_back { sem 𝓛 (LendsMember (chars key.now) fields.entry result) }
    ensures found { option_map (λ v. value_of v.now) result ≡ last_named (chars key.now) (fields_view fields.old.items) }
{
    let place = last_place(fields, key)?;
    let field = &mut fields[place];
    Some(&mut field.1)
}
