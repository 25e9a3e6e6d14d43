//! A value merged into another, as settings are into their defaults.

ghost use Rattle.std.specs.Prelude.{◌≡◌, IfOk, OnOk, IfErr, string_bytes, reverse};
ghost use Rattle.std.specs.Str.{chars};
ghost use Rattle.json5_types.specs.Errors.{LacksMemory};
ghost use Rattle.json5_types.specs.ValueMeanings.{object, value_of, fields_view};
ghost use Rattle.json5_types.specs.ValueChanges.{merged, fields_merged};
ghost use Rattle.json5_types.specs.MemberSpots.{keys_in, FindsPlaces, place_of, spots_of, spot_at, MergesAt};

use crate::error::Result;
use crate::value::Value;
use std::alloc::Global;
use std::collections::BTreeMap;
use std::mem;

/// Where a member goes that is merged into others.
#[derive(Clone, Copy, Drop)]
enum Spot {
    /// Nowhere: a later member has its key.
    Passed,
    /// Into the member at this place.
    Known(usize),
    /// After the others.
    New,
}

impl Value {
    /// Merges another value into this one, as settings into their defaults. An object gets the other object's members: where both
    /// have a key, the two values are merged, and a member with a new key goes to the end. Anything else is replaced by the other
    /// value: so are arrays, and also what only one of the two has as an object.
    ///
    /// Of members with equal keys the last counts: in the other object it alone is merged, and here it alone is changed.
    ///
    /// ```text
    /// settings.merge(changes)?;    // `{a: {x: 1, y: 2}}` and `{a: {y: 3}}` make `{a: {x: 1, y: 3}}`
    /// ```
    ///
    /// # Errors
    ///
    /// - `OutOfMemory`, without a position, where a request for memory was refused. A part may have been merged then.
    pub fn merge(&mut self, other: Value) -> Result<()>
        ensures merges { OnOk result (value_of self.new ≡ merged (value_of self.old) (value_of other)) }
        ensures refused { IfErr result LacksMemory }
    {
        merge_value(other, self)
    }
}

/// Merges a value into one.
#[cycle(merge)]
fn merge_value(other: Value, value: &mut Value) -> Result<()>
    ensures merges { OnOk result (value_of value.new ≡ merged (value_of value.old) (value_of other)) }
    ensures refused { IfErr result LacksMemory }
{
    match other {
        Value::Object(others) => merge_object(others, value),
        other => {
            *value = other;
            Ok(())
        }
    }
}

/// Merges an object of these members into a value.
#[cycle(merge)]
fn merge_object(others: Vec<(String, Value)>, value: &mut Value) -> Result<()>
    ensures merges { OnOk result (value_of value.new ≡ merged (value_of value.old) (object (fields_view others.items))) }
    ensures refused { IfErr result LacksMemory }
{
    if let Some(fields) = value.as_object_mut() {
        return merge_members(others, fields);
    }
    *value = Value::Object(others);
    Ok(())
}

/// Merges the members, of those with equal keys the last.
#[cycle(merge)]
fn merge_members(others: Vec<(String, Value)>, fields: &mut Vec<(String, Value)>) -> Result<()>
    ensures merges { OnOk result (fields_view fields.new.items ≡ fields_merged (fields_view fields.old.items) (fields_view others.items)) }
    ensures refused { IfErr result LacksMemory }
{
    let alloc = *others.allocator();
    let mut spots = spots_from_last(alloc, &others, fields)?;
    let mut rest = others;
    rest.reverse();
    while let Some((key, value)) = rest.pop() {
        let spot = spots.pop().unwrap_or(Spot::Passed);
        merge_member(key, value, spot, fields)?;
    }
    Ok(())
}

/// Merges a member where it goes.
#[cycle(merge)]
fn merge_member(
    key: String,
    value: Value,
    spot: Spot,
    fields: &mut Vec<(String, Value)>,
) -> Result<()>
    ensures merges { OnOk result (MergesAt spot (chars (string_bytes key)) (value_of value) fields.old.items fields.new.items) }
    ensures refused { IfErr result LacksMemory }
{
    match spot {
        Spot::Passed => Ok(()),
        Spot::Known(place) => {
            if fields.len() <= place {
                return Ok(());
            }
            let (key, mut base) = mem::replace(&mut fields[place], (key, Value::Null));
            let outcome = merge_value(value, &mut base);
            fields[place] = (key, base);
            outcome
        }
        Spot::New => Ok(fields.push((key, value))?),
    }
}

/// Where the other members go, one after another, the last of them first.
fn spots_from_last(
    alloc: Global,
    others: &[(String, Value)],
    fields: &[(String, Value)],
) -> Result<Vec<Spot>>
    ensures spots { IfOk result (λ s. reverse s.items ≡ spots_of (keys_in others.now) (keys_in fields.now)) }
    ensures refused { IfErr result LacksMemory }
{
    let theirs = last_places(alloc, others)?;
    let ours = last_places(alloc, fields)?;
    let mut spots = Vec::new(alloc);
    let mut left = others.len();
    while left > 0 {
        left -= 1;
        spots.push(find_spot(&theirs, &ours, others[left].0.as_str(), left))?;
    }
    Ok(spots)
}

/// Where a member goes that has this place among the others.
fn find_spot(
    theirs: &BTreeMap<&str, usize>,
    ours: &BTreeMap<&str, usize>,
    key: &str,
    place: usize,
) -> Spot
    ensures { result ≡ spot_at place (place_of theirs.now key.now) (place_of ours.now key.now) }
{
    if theirs.get(key) != Some(&place) {
        return Spot::Passed;
    }
    match ours.get(key) {
        Some(&known) => Spot::Known(known),
        None => Spot::New,
    }
}

/// The place of the last member with each key.
fn last_places(alloc: Global, fields: &[(String, Value)]) -> Result<BTreeMap<&str, usize>>
    ensures found { IfOk result (FindsPlaces fields.now) }
    ensures refused { IfErr result LacksMemory }
{
    let mut places = BTreeMap::new(alloc);
    for place in 0..fields.len() {
        places.insert(fields[place].0.as_str(), place)?;
    }
    Ok(places)
}
