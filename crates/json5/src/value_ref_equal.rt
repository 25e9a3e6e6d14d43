//! Which values a borrowed value is equal to.

ghost use Rattle.std.specs.Prelude.{◌≡◌, ◌↔◌, IsTrue};
ghost use Rattle.json5_types.specs.ValueEquality.{datum_eq, items_eq, fields_eq};
ghost use Rattle.json5_types.specs.ValueMeanings.{value_of, items_view, fields_view};
ghost use Rattle.json5.specs.ValueRefs.{ref_of, refs_view, members_view};

use crate::value_ref::ValueRef;
use json5_types::cow_str::CowStr;
use json5_types::value::Value;

impl<'de> ValueRef<'de> {
    /// Says whether the value means the same, as `==` says it of two values that own their texts.
    ///
    /// ```text
    /// settings.get("port")?.equals(&Value::from(8080u16))
    /// ```
    #[tactic(auto, using(crate::proofs::RefsCompared::refs_compared))]
    pub fn equals(&self, other: &Value) -> bool
        ensures gives { result ≡ datum_eq (ref_of self.now) (value_of other.now) }
        ensures same { IsTrue result ↔ (ref_of self.now ≡ value_of other.now) }
    {
        equal(self, other)
    }
}

/// Whether both mean the same.
#[cycle(equal)]
#[tactic(auto, using(crate::proofs::RefsCompared::refs_compared))]
fn equal(value: &ValueRef<'_>, other: &Value) -> bool
    ensures { result ≡ datum_eq (ref_of value.now) (value_of other.now) }
{
    match (value, other) {
        (ValueRef::Null, Value::Null) => true,
        (ValueRef::Bool(truth), Value::Bool(other)) => truth == other,
        (ValueRef::Whole(number), Value::Whole(other)) => number == other,
        (ValueRef::Decimal(number), Value::Decimal(other)) => number == other,
        (ValueRef::String(text), Value::String(other)) => text.as_str() == other.as_str(),
        (ValueRef::Array(items), Value::Array(others)) => equal_items(items, others),
        (ValueRef::Object(members), Value::Object(fields)) => equal_members(members, fields),
        _ => false,
    }
}

/// Whether the elements mean the same, one by one.
#[cycle(equal)]
fn equal_items(items: &[ValueRef<'_>], others: &[Value]) -> bool
    ensures { result ≡ items_eq (refs_view items.now) (items_view others.now) }
{
    if items.len() != others.len() {
        return false;
    }
    for (item, other) in items.iter().zip(others) {
        if !equal(item, other) {
            return false;
        }
    }
    true
}

/// Whether the members have the same keys and mean the same, one by one.
#[cycle(equal)]
fn equal_members(members: &[(CowStr<'_>, ValueRef<'_>)], fields: &[(String, Value)]) -> bool
    ensures { result ≡ fields_eq (members_view members.now) (fields_view fields.now) }
{
    if members.len() != fields.len() {
        return false;
    }
    for (member, field) in members.iter().zip(fields) {
        if member.0.as_str() != field.0.as_str() {
            return false;
        }
        if !equal(&member.1, &field.1) {
            return false;
        }
    }
    true
}
