//! Which member is set.

ghost use Rattle.std.specs.Prelude.{◌≡◌, ◌++◌, IfOk, OnOk, string_bytes};
ghost use Rattle.std.specs.Str.{chars};
ghost use Rattle.json5_types.specs.ValueMeanings.{fields_view, value_of};
ghost use Rattle.json5_settings.specs.Keys.{FindsKey, HasKeys, MeansKeys, SplitsWord, member_in, place_of};
ghost use Rattle.json5_settings.specs.Words.{is_dropped, key_meant, lower, lowered};

use crate::faults::{self, SettingError};
use json5_edit::{Path, Step};
use json5_types::ErrorCode;
use json5_types::error::Error;
use json5_types::value::Value;
use std::alloc::{AllocError, Global};

/// The keys of a path, which has one.
pub(crate) fn keys_of(alloc: Global, path: &Path) -> faults::Result<Vec<String>>
    ensures { HasKeys result }
{
    let mut keys = Vec::new(alloc);
    let Ok(steps) = path.steps_in(alloc, "{}") else {
        return Err(SettingError::Text(Error::new(ErrorCode::OutOfMemory)));
    };
    for step in &steps {
        let Step::Key(key) = step else {
            return Err(SettingError::NoMember);
        };
        let key = String::from_str(alloc, key).map_err(Error::from)?;
        keys.push(key).map_err(Error::from)?;
    }
    if keys.is_empty() {
        return Err(SettingError::NoMember);
    }
    Ok(keys)
}

/// The keys that the words of a variable mean in this value.
pub(crate) fn variable_keys(
    alloc: Global,
    value: &Value,
    words: &str,
) -> faults::Result<Vec<String>>
    ensures { MeansKeys (value_of value.now) words.now result }
{
    let mut keys = Vec::new(alloc);
    let mut place = Some(value);
    let mut left = Some(words);
    while let Some(name) = left {
        let (word, others) = split_word(name);
        if word.is_empty() {
            return Err(SettingError::NoMember);
        }
        let key = key_meant(alloc, place, word).map_err(Error::from)?;
        place = member_of(place, &key);
        keys.push(key).map_err(Error::from)?;
        left = others;
    }
    Ok(keys)
}

/// The first word of a name, and the others if there are any.
fn split_word(name: &str) -> (&str, Option<&str>)
    ensures { SplitsWord name.now result.0.now result.1 }
{
    match name.split_once("__") {
        Some((word, others)) => (word, Some(others)),
        None => (name, None),
    }
}

/// The value of the member with this key.
fn member_of<'v>(value: Option<&'v Value>, key: &str) -> Option<&'v Value>
    ensures { place_of result ≡ member_in (chars key.now) (place_of value.entry) }
{
    value?.get(key)
}

/// The key that a word means in a value: that of a member, or the word in lower case where there is none.
fn key_meant(alloc: Global, value: Option<&Value>, word: &str) -> Result<String, AllocError>
    ensures { IfOk result (λ key. chars (string_bytes key) ≡ key_meant (place_of value.entry) (chars word.now)) }
{
    if let Some(value) = value {
        if let Some(key) = key_like(alloc, value.entries(), word)? {
            return String::from_str(alloc, key);
        }
    }
    lower_case(alloc, word, true)
}

/// The first key that differs from the word in case, `_` and `-` alone.
fn key_like<'v>(
    alloc: Global,
    members: &'v [(String, Value)],
    word: &str,
) -> Result<Option<&'v str>, AllocError>
    ensures { IfOk result (FindsKey (chars word.now) (fields_view members.now)) }
{
    let wanted = lower_case(alloc, word, false)?;
    for (name, _) in members {
        let plain = lower_case(alloc, name, false)?;
        if plain.as_str() == wanted.as_str() {
            return Ok(Some(name));
        }
    }
    Ok(None)
}

/// The name in lower case, with `_` and `-` or without.
fn lower_case(alloc: Global, name: &str, with_marks: bool) -> Result<String, AllocError>
    ensures { IfOk result (λ s. chars (string_bytes s) ≡ lower with_marks (chars name.now)) }
{
    let mut lower = String::new(alloc);
    for c in name.chars() {
        push_lower(&mut lower, c, with_marks)?;
    }
    Ok(lower)
}

/// Appends the character in lower case, unless it is a mark that is dropped.
fn push_lower(text: &mut String, c: char, with_marks: bool) -> Result<(), AllocError>
    ensures { OnOk result (chars (string_bytes text.new) ≡ chars (string_bytes text.old) ++ lowered with_marks c) }
{
    if is_dropped(c, with_marks) {
        return Ok(());
    }
    text.push(c.to_ascii_lowercase())?;
    Ok(())
}

/// Whether it is `_` or `-`, and these are dropped.
fn is_dropped(c: char, with_marks: bool) -> bool
    ensures { result ≡ is_dropped with_marks c }
{
    !with_marks && (c == '_' || c == '-')
}
