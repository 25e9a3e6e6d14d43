//! Changes of a value in place.

ghost use Rattle.std.specs.Prelude.{◌≡◌, ◌<◌, option_map, string_bytes, IfOk, IfNone, OnSome, vec_len};
ghost use Rattle.std.specs.Str.{chars};
ghost use Rattle.json5_grammar.specs.declared.error_code.ErrorCode.TheVariants as codes;
ghost use Rattle.json5_types.specs.ValueMeanings.{null, value_of, fields_view};
ghost use Rattle.json5_types.specs.ValueLookups.{last_named, named_of};
ghost use Rattle.json5_types.specs.ValueChanges.{Changes, pushed, inserted, removed, without_named};
ghost use Rattle.json5_types.specs.MemberPlaces.{FindsLast, PutsMember};

use crate::error::{Error, Result};
use crate::value::Value;
use json5_grammar::error_code::ErrorCode;
use std::mem;

impl Value {
    /// Takes the value out, and leaves `null` in its place.
    ///
    /// ```text
    /// let first = member_mut(settings.as_object_mut()?, "first")?.take();
    /// ```
    pub fn take(&mut self) -> Value
        ensures taken { value_of result ≡ value_of self.old }
        ensures left { value_of self.new ≡ null }
    {
        mem::replace(self, Value::Null)
    }

    /// Adds an element at the end of an array.
    ///
    /// ```text
    /// ports.push(Value::from(8080u16))?;    // `[80, 8080]` of `[80]`
    /// ```
    ///
    /// # Errors
    ///
    /// Neither has a position, and after either the value is as before.
    /// - `ExpectedOpeningBracket` if it is no array.
    /// - `OutOfMemory` where a request for memory was refused.
    pub fn push(&mut self, value: Value) -> Result<()>
        ensures { Changes (pushed (value_of value)) codes.ExpectedOpeningBracket (value_of self.old) result (value_of self.new) }
    {
        match self.as_array_mut() {
            Some(items) => Ok(items.push(value)?),
            None => Err(Error::new(ErrorCode::ExpectedOpeningBracket)),
        }
    }

    /// Puts a member into an object. If it has members with this key, the last of them gets the value and keeps its place, and the
    /// value that it had is returned; otherwise the member goes to the end. `get` finds what was put.
    ///
    /// ```text
    /// settings.insert(String::from_str(alloc, "port")?, Value::from(8080u16))?;
    /// ```
    ///
    /// # Errors
    ///
    /// Neither has a position, and after either the value is as before.
    /// - `ExpectedOpeningBrace` if it is no object.
    /// - `OutOfMemory` where a request for memory was refused.
    pub fn insert(&mut self, key: String, value: Value) -> Result<Option<Value>>
        ensures change { Changes (inserted (chars (string_bytes key)) (value_of value)) codes.ExpectedOpeningBrace (value_of self.old) result (value_of self.new) }
        ensures replaced { IfOk result (λ found. option_map value_of found ≡ named_of (chars (string_bytes key)) (value_of self.old)) }
    {
        match self.as_object_mut() {
            Some(fields) => put_member(fields, key, value),
            None => Err(Error::new(ErrorCode::ExpectedOpeningBrace)),
        }
    }

    /// Removes all members with this key from an object, and returns the last one's value, which is what `get` finds. Nothing is
    /// removed from a value that is no object.
    ///
    /// ```text
    /// let old = settings.remove("port");    // `get("port")` is None from now on
    /// ```
    pub fn remove(&mut self, key: &str) -> Option<Value>
        ensures found { option_map value_of result ≡ named_of (chars key.now) (value_of self.old) }
        ensures left { value_of self.new ≡ removed (chars key.now) (value_of self.old) }
    {
        remove_named(self.as_object_mut()?, key)
    }
}

/// The place of the last member with this key.
pub(crate) fn last_place(fields: &[(String, Value)], key: &str) -> Option<usize>
    ensures { FindsLast (chars key.now) fields.now result }
{
    let mut end = fields.len();
    while end > 0 {
        end -= 1;
        if fields[end].0.as_str() == key {
            return Some(end);
        }
    }
    None
}

/// Puts the value in place of that of the last member with this key, or else a new member after the others.
fn put_member(fields: &mut Vec<(String, Value)>, key: String, value: Value) -> Result<Option<Value>>
    ensures { PutsMember (chars (string_bytes key)) (value_of value) fields.old.items result fields.new.items }
{
    let place = last_place(fields, key.as_str());
    match place {
        Some(place) => {
            let (_, found) = mem::replace(&mut fields[place], (key, value));
            Ok(Some(found))
        }
        None => {
            fields.push((key, value))?;
            Ok(None)
        }
    }
}

/// Removes the last member with this key, and returns its value.
fn remove_last(fields: &mut Vec<(String, Value)>, key: &str) -> Option<Value>
    ensures found { option_map value_of result ≡ last_named (chars key.now) (fields_view fields.old.items) }
    ensures others { without_named (chars key.now) (fields_view fields.new.items) ≡ without_named (chars key.now) (fields_view fields.old.items) }
    ensures fewer { OnSome result (vec_len fields.new < vec_len fields.old) }
    ensures same { IfNone result (fields.new.items ≡ fields.old.items) }
{
    let place = last_place(fields, key)?;
    let (_, value) = fields.remove(place);
    Some(value)
}

/// Removes all members with this key, and returns the last one's value.
fn remove_named(fields: &mut Vec<(String, Value)>, key: &str) -> Option<Value>
    ensures found { option_map value_of result ≡ last_named (chars key.now) (fields_view fields.old.items) }
    ensures left { fields_view fields.new.items ≡ without_named (chars key.now) (fields_view fields.old.items) }
{
    let found = remove_last(fields, key);
    while remove_last(fields, key).is_some() {}
    found
}
