//! What a borrowed value is, and what is found in it, each as a [`Value`](json5_types::value::Value) has it.

ghost use Rattle.std.specs.Prelude.{◌≡◌, option_map, pos, ◌^◌, FitsSigned};
ghost use Rattle.std.specs.Int.{w64};
ghost use Rattle.std.specs.Str.{chars};
ghost use Rattle.json5_types.specs.ValueKinds.{ReadsWhole, IsBelow, len_of, members_of};
ghost use Rattle.json5_types.specs.ValueLookups.{is_null, boolean_of, whole_of, decimal_in, text_in, items_in, fields_in, element_of, last_named, named_of};
ghost use Rattle.json5.specs.ValueRefs.{ref_of, refs_view, members_view};

use crate::value_ref::ValueRef;
use json5_numbers::AsF64;
use json5_types::cow_str::CowStr;
use json5_types::decimal::Decimal;
use json5_types::error::Result;
use json5_types::whole::Whole;
use std::alloc::Global;

impl<'de> ValueRef<'de> {
    /// Returns the value of an object's member with this key, or None. Of members with equal keys the last counts.
    ///
    /// ```text
    /// settings.get("server")?.get("port")?.as_u64()
    /// ```
    pub fn get(&self, key: &str) -> Option<&ValueRef<'de>>
        ensures { option_map (λ v. ref_of v.now) result ≡ named_of (chars key.now) (ref_of self.now) }
    {
        last_named(self.as_object()?, key)
    }

    /// Returns the element of an array at this index, counted from 0, or None.
    ///
    /// ```text
    /// settings.get("ports")?.at(0)?.as_u64()
    /// ```
    pub fn at(&self, index: usize) -> Option<&ValueRef<'de>>
        ensures { option_map (λ v. ref_of v.now) result ≡ element_of index (ref_of self.now) }
    {
        self.as_array()?.get(index)
    }

    /// Says whether it is `null`.
    pub fn is_null(&self) -> bool
        ensures { result ≡ is_null (ref_of self.now) }
    {
        matches!(self, ValueRef::Null)
    }

    /// Returns the boolean, if it is one.
    ///
    /// ```text
    /// settings.get("verbose")?.as_bool()    // Some(true) of `{verbose: true}`
    /// ```
    pub fn as_bool(&self) -> Option<bool>
        ensures { result ≡ boolean_of (ref_of self.now) }
    {
        match self {
            ValueRef::Bool(truth) => Some(*truth),
            _ => None,
        }
    }

    /// Returns the whole number, if it is one.
    ///
    /// ```text
    /// settings.get("port")?.as_whole()?.as_u128()    // Some(80) of `{port: 80}`
    /// ```
    pub fn as_whole(&self) -> Option<Whole>
        ensures { result ≡ whole_of (ref_of self.now) }
    {
        match self {
            ValueRef::Whole(number) => Some(*number),
            _ => None,
        }
    }

    /// Returns the decimal, if it is one: a number with a point or an exponent, or past the range of `Whole`, infinity and
    /// not-a-number included.
    ///
    /// ```text
    /// settings.get("price")?.as_decimal()?.digits()    // 15 of `{price: 1.50}`
    /// ```
    pub fn as_decimal(&self) -> Option<&Decimal>
        ensures { option_map (λ number. number.now) result ≡ decimal_in (ref_of self.now) }
    {
        match self {
            ValueRef::Decimal(number) => Some(number),
            _ => None,
        }
    }

    /// Returns the whole number, if it is one from 0 to `u64::MAX`. A decimal such as `80.0` is none.
    ///
    /// ```text
    /// settings.get("port")?.as_u64()    // Some(80) of `{port: 80}`, None of `{port: -1}`
    /// ```
    pub fn as_u64(&self) -> Option<u64>
        ensures { ReadsWhole pos (IsBelow (2 ^ 64)) (ref_of self.now) result }
    {
        let number = self.as_whole()?.as_u128()?;
        u64::try_from(number).ok()
    }

    /// Returns the whole number, if it is one from `i64::MIN` to `i64::MAX`.
    ///
    /// ```text
    /// settings.get("offset")?.as_i64()    // Some(-7) of `{offset: -7}`
    /// ```
    pub fn as_i64(&self) -> Option<i64>
        ensures { ReadsWhole (λ number. number) (FitsSigned w64) (ref_of self.now) result }
    {
        let number = self.as_whole()?.as_i128()?;
        i64::try_from(number).ok()
    }

    /// Returns the text, if it is a string, borrowed or not.
    ///
    /// ```text
    /// settings.get("host")?.as_str()    // Some of `localhost` for `{host: 'localhost'}`
    /// ```
    pub fn as_str(&self) -> Option<&str>
        ensures { option_map (λ s. chars s.now) result ≡ text_in (ref_of self.now) }
    {
        match self {
            ValueRef::String(text) => Some(text.as_str()),
            _ => None,
        }
    }

    /// Returns the elements in their order, if it is an array.
    ///
    /// ```text
    /// for port in settings.get("ports")?.as_array()? { .. }
    /// ```
    pub fn as_array(&self) -> Option<&[ValueRef<'de>]>
        ensures { option_map (λ items. refs_view items.now) result ≡ items_in (ref_of self.now) }
    {
        match self {
            ValueRef::Array(items) => Some(items.as_slice()),
            _ => None,
        }
    }

    /// Returns the members in their order, if it is an object.
    ///
    /// ```text
    /// for (name, value) in settings.as_object()? { .. }
    /// ```
    pub fn as_object(&self) -> Option<&[(CowStr<'de>, ValueRef<'de>)]>
        ensures { option_map (λ members. members_view members.now) result ≡ fields_in (ref_of self.now) }
    {
        match self {
            ValueRef::Object(members) => Some(members.as_slice()),
            _ => None,
        }
    }

    /// Returns how many elements an array has or how many members an object, those with equal keys counted each; None for any
    /// other value.
    ///
    /// ```text
    /// settings.get("ports")?.len()    // Some(2) of `{ports: [80, 443]}`
    /// ```
    pub fn len(&self) -> Option<usize>
        ensures { result ≡ len_of (ref_of self.now) }
    {
        match self {
            ValueRef::Array(items) => Some(items.len()),
            ValueRef::Object(members) => Some(members.len()),
            _ => None,
        }
    }

    /// Returns the members of an object in their order, each a key's text and its value. A value that is no object has none.
    ///
    /// ```text
    /// for (name, port) in settings.entries() { .. }
    /// ```
    pub fn entries(&self) -> &[(CowStr<'de>, ValueRef<'de>)]
        ensures { members_view result.now ≡ members_of (ref_of self.now) }
    {
        match self {
            ValueRef::Object(members) => members.as_slice(),
            _ => &[],
        }
    }
}

/// The value of the last member with this key.
fn last_named<'v, 'de>(
    members: &'v [(CowStr<'de>, ValueRef<'de>)],
    key: &str,
) -> Option<&'v ValueRef<'de>>
    ensures { option_map (λ v. ref_of v.now) result ≡ last_named (chars key.now) (members_view members.now) }
{
    let mut found = None;
    for (name, value) in members {
        if name.as_str() == key {
            found = Some(value);
        }
    }
    found
}

impl AsF64 for ValueRef<'_> {
    ghost use Rattle.json5_types.specs.ValueKinds.{number_in};
    ghost use Rattle.json5.specs.ValueRefs.{ref_of};

    ghost number = { λ v. number_in (ref_of v) };

    fn as_f64(&self, alloc: Global) -> Result<Option<f64>> {
        match self {
            ValueRef::Whole(number) => number.as_f64(alloc),
            ValueRef::Decimal(number) => number.as_f64(alloc),
            _ => Ok(None),
        }
    }
}
