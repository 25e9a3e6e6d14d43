//! A value that is changed as another was.

ghost use Rattle.std.specs.Prelude.{◌≡◌, false, Some, IfOk, OnOk};
ghost use Rattle.std.specs.Str.{chars};
ghost use Rattle.json5_types.specs.ValueMeanings.{value_of, fields_view, items_view};
ghost use Rattle.json5_types.specs.ValueChanges.{has_key};
ghost use Rattle.json5_types.specs.ValueEquality.{datum_eq};
ghost use Rattle.json5_settings.specs.Follows.{are_as_many, elements_followed, followed, member_followed, members_followed, unless_named, value_in, was, with_member, without_gone};

use json5_types::error::Result;
use json5_types::value::Value;
use std::alloc::Global;

/// What was there before, changed as the old value became the new one.
#[cycle(follow)]
pub(crate) fn followed(
    alloc: Global,
    old: Option<&Value>,
    new: &Value,
    before: Option<&Value>,
) -> Result<Value>
    ensures { IfOk result (λ v. value_of v ≡ followed (value_in old.entry) (value_of new.now) (value_in before.entry)) }
{
    let (Some(old), Some(before)) = (old, before) else {
        return new.clone(alloc);
    };
    if old == new {
        return before.clone(alloc);
    }
    changed(alloc, old, new, before)
}

/// The same where the new value isn't as the old one was.
#[cycle(follow)]
fn changed(alloc: Global, old: &Value, new: &Value, before: &Value) -> Result<Value>
    requires { datum_eq (value_of old.now) (value_of new.now) ≡ false }
    ensures { IfOk result (λ v. value_of v ≡ followed (Some (value_of old.now)) (value_of new.now) (Some (value_of before.now))) }
{
    match (old, new, before) {
        (Value::Object(olds), Value::Object(news), Value::Object(_)) => {
            let mut value = before.clone(alloc)?;
            follow_members(alloc, old, news.as_slice(), &mut value)?;
            drop_members(olds.as_slice(), new, &mut value);
            Ok(value)
        }
        (Value::Array(olds), Value::Array(news), Value::Array(befores)) => {
            if are_as_many(olds, news, befores) {
                return Ok(Value::Array(follow_elements(alloc, olds, news, befores)?));
            }
            new.clone(alloc)
        }
        _ => new.clone(alloc),
    }
}

/// Whether each array has as many elements.
fn are_as_many(olds: &[Value], news: &[Value], befores: &[Value]) -> bool
    ensures { result ≡ are_as_many (items_view olds.now) (items_view news.now) (items_view befores.now) }
{
    olds.len() == news.len() && news.len() == befores.len()
}

/// Changes each of the new elements.
#[cycle(follow)]
fn follow_elements(
    alloc: Global,
    olds: &[Value],
    news: &[Value],
    befores: &[Value],
) -> Result<Vec<Value>>
    ensures { IfOk result (λ v. items_view v.items ≡ elements_followed 0 (items_view olds.now) (items_view news.now) (items_view befores.now)) }
{
    let mut values = Vec::new(alloc);
    let mut rest = news;
    while let Some((new, behind)) = rest.split_first() {
        let index = values.len();
        values.push(followed(alloc, olds.get(index), new, befores.get(index))?)?;
        rest = behind;
    }
    Ok(values)
}

/// Changes each of the new members.
#[cycle(follow)]
fn follow_members(
    alloc: Global,
    old: &Value,
    news: &[(String, Value)],
    value: &mut Value,
) -> Result<()>
    ensures { OnOk result (value_of value.new ≡ members_followed (value_of old.now) (fields_view news.now) (value_of value.old)) }
{
    let mut rest = news;
    while let Some(((key, new), behind)) = rest.split_first() {
        if !has_key(behind, key.as_str()) {
            follow_member(alloc, old, key.as_str(), new, value)?;
        }
        rest = behind;
    }
    Ok(())
}

/// Changes the member with this key, unless the new one is as the old one.
#[cycle(follow)]
fn follow_member(
    alloc: Global,
    old: &Value,
    key: &str,
    new: &Value,
    value: &mut Value,
) -> Result<()>
    ensures { OnOk result (value_of value.new ≡ member_followed (chars key.now) (value_of old.now) (value_of new.now) (value_of value.old)) }
{
    let was = old.get(key);
    if is_same(was, new) {
        return Ok(());
    }
    let part = followed(alloc, was, new, value.get(key))?;
    put_member(alloc, key, part, value)
}

/// Whether there was this value before.
fn is_same(old: Option<&Value>, new: &Value) -> bool
    ensures { result ≡ was (value_in old.entry) (value_of new.now) }
{
    match old {
        Some(old) => old == new,
        None => false,
    }
}

/// Whether one of the members has this key.
fn has_key(fields: &[(String, Value)], key: &str) -> bool
    ensures { result ≡ has_key (chars key.now) (fields_view fields.now) }
{
    let mut rest = fields;
    while let Some(((name, _), behind)) = rest.split_first() {
        if name.as_str() == key {
            return true;
        }
        rest = behind;
    }
    false
}

/// Puts a member in place of the last with its key, or behind the others.
fn put_member(alloc: Global, key: &str, part: Value, value: &mut Value) -> Result<()>
    ensures { OnOk result (value_of value.new ≡ with_member (chars key.now) (value_of part) (value_of value.old)) }
{
    if value.is_object() {
        value.insert(String::from_str(alloc, key)?, part)?;
    }
    Ok(())
}

/// Takes out the members that the new value lacks, of the old ones.
fn drop_members(olds: &[(String, Value)], new: &Value, value: &mut Value)
    ensures { value_of value.new ≡ without_gone (fields_view olds.now) (value_of new.now) (value_of value.old) }
{
    let mut rest = olds;
    while let Some(((key, _), behind)) = rest.split_first() {
        drop_member(key.as_str(), new, value);
        rest = behind;
    }
}

/// Takes out the member with this key, if the new value lacks it.
fn drop_member(key: &str, new: &Value, value: &mut Value)
    ensures { value_of value.new ≡ unless_named (chars key.now) (value_of new.now) (value_of value.old) }
{
    if new.get(key).is_none() {
        value.remove(key);
    }
}
