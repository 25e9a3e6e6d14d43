//! The members of objects. Of equal keys the last counts.

ghost use Rattle.std.specs.Prelude.{◌≡◌, if◌then◌else◌, nat_eq, None, reverse, MatchResult};
ghost use Rattle.std.specs.Cmp.Lexicographic.{pointwise};
ghost use Rattle.std.specs.Str.{chars};
ghost use Rattle.json5_types.specs.ValueMeanings.{value_of, items_view, fields_view};
ghost use Rattle.json5_types.specs.ValueLookups.{last_named};
ghost use Rattle.json5_schema.specs.Conformance.{has_name, has_names, has_required, has_dependent, has_dependents, has_all_dependents, latest};
ghost use Rattle.json5_numbers.specs.Sameness.{is_named};
ghost use Rattle.json5_types.specs.Errors.{LacksMemory};
ghost use Rattle.json5_schema.specs.Views.{members_view, part_view};

use json5_types::error::Result;
use json5_types::value::Value;
use std::alloc::Global;
use std::collections::BTreeSet;

/// Whether the two texts are equal. Most that aren't differ in length.
fn is_same(text: &str, other: &str) -> bool
    ensures { result ≡ pointwise nat_eq text.now other.now }
{
    text.len() == other.len() && text == other
}

/// The value of the last member with this key, looked for from the end on.
pub fn find<'v>(members: &'v [(String, Value)], key: &str) -> Option<&'v Value>
    ensures { part_view result ≡ last_named (chars key.now) (fields_view members.now) }
{
    let mut index = members.len();
    while index > 0 {
        index -= 1;
        let member = &members[index];
        if is_same(member.0.as_str(), key) {
            return Some(&member.1);
        }
    }
    None
}

/// Whether a member has this key.
pub fn is_named(members: &[(String, Value)], key: &str) -> bool
    ensures { result ≡ is_named (chars key.now) (fields_view members.now) }
{
    find(members, key).is_some()
}

/// What was found in a member, unless one after it has the same key.
pub fn unless_named<'a>(
    found: Option<&'a Value>,
    after: &[(String, Value)],
    key: &str,
) -> Option<&'a Value>
    ensures { part_view result ≡ (if is_named (chars key.now) (fields_view after.now) then None else part_view found.entry) }
{
    if found.is_some() && is_named(after, key) {
        return None;
    }
    found
}

/// A member of an object, and how many come before it.
#[derive(Clone, Copy)]
pub struct Member<'a> {
    pub index: usize,
    pub name: &'a str,
    pub value: &'a Value,
}

/// The members without those whose key a later one has.
pub fn latest<'a>(alloc: Global, members: &'a [(String, Value)]) -> Result<Vec<Member<'a>>>
    ensures { MatchResult result (λ found. members_view found.items ≡ latest (fields_view members.now)) LacksMemory }
{
    let mut found = latest_first(alloc, members)?;
    found.reverse();
    Ok(found)
}

/// The same, the last of them first.
fn latest_first<'a>(alloc: Global, members: &'a [(String, Value)]) -> Result<Vec<Member<'a>>>
    ensures { MatchResult result (λ found. members_view (reverse found.items) ≡ latest (fields_view members.now)) LacksMemory }
{
    let mut seen = BTreeSet::new(alloc);
    let mut found = Vec::new(alloc);
    let mut index = members.len();
    while index > 0 {
        index -= 1;
        let name = members[index].0.as_str();
        if seen.insert(name)? {
            found.push(Member {
                index,
                name,
                value: &members[index].1,
            })?;
        }
    }
    Ok(found)
}

/// Whether a member has the key that this text is.
fn has_name(members: &[(String, Value)], name: &Value) -> bool
    ensures { result ≡ has_name (value_of name.now) (fields_view members.now) }
{
    match name {
        Value::String(name) => is_named(members, name.as_str()),
        _ => true,
    }
}

/// Whether there is a member for each of the names.
fn has_names(names: &[Value], members: &[(String, Value)]) -> bool
    ensures { result ≡ has_names (items_view names.now) (fields_view members.now) }
{
    for name in names {
        if !has_name(members, name) {
            return false;
        }
    }
    true
}

/// What `required` asserts.
pub fn has_required(names: &Value, value: &Value) -> bool
    ensures { result ≡ has_required (value_of names.now) (value_of value.now) }
{
    match (names, value) {
        (Value::Array(names), Value::Object(members)) => has_names(names, members),
        _ => true,
    }
}

/// Whether there is a member for each of the names, if there is one for this name, unless a later one has the name.
fn has_dependent(
    name: &str,
    names: &Value,
    after: &[(String, Value)],
    members: &[(String, Value)],
) -> bool
    ensures { result ≡ has_dependent (chars name.now) (value_of names.now) (fields_view after.now) (fields_view members.now) }
{
    if is_named(after, name) || !is_named(members, name) {
        return true;
    }
    match names {
        Value::Array(names) => has_names(names, members),
        _ => true,
    }
}

/// The same for each of the names that others ask for.
fn has_dependents(dependents: &[(String, Value)], members: &[(String, Value)]) -> bool
    ensures { result ≡ has_dependents (fields_view dependents.now) (fields_view members.now) }
{
    for (index, dependent) in dependents.iter().enumerate() {
        let after = &dependents[index + 1..];
        if !has_dependent(dependent.0.as_str(), &dependent.1, after, members) {
            return false;
        }
    }
    true
}

/// What `dependentRequired` asserts.
pub fn has_all_dependents(dependents: &Value, value: &Value) -> bool
    ensures { result ≡ has_all_dependents (value_of dependents.now) (value_of value.now) }
{
    match (dependents, value) {
        (Value::Object(dependents), Value::Object(members)) => has_dependents(dependents, members),
        _ => true,
    }
}
