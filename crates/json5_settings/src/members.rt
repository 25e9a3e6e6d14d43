//! The document that sets one member alone.

ghost use Rattle.std.specs.Prelude.{◌≡◌, ◌↔◌, ◌++◌, [], true, false, IfOk, MatchBool, codes, string_bytes};
ghost use Rattle.std.specs.Str.{chars};
ghost use Rattle.std.specs.Str.Iter.{HasSubslice};
ghost use Rattle.json5_tokens.specs.Cursor.{IsOutOfMemory};
ghost use Rattle.json5_settings.specs.Keys.{key_texts};
ghost use Rattle.json5_settings.specs.MemberTexts.{ClosesText, IsNested, IsNoDocument, member_spelled};
ghost use Rattle.json5_settings.specs.Stacks.{IsDocument};

use json5_read::check_document;
use json5_styles::to_json_string;
use json5_types::ErrorCode;
use json5_types::error::Error;
use std::alloc::{AllocError, Global};

/// A document whose only member, at these keys, has this value: JSON5 if it reads as that, else the content of a string.
pub(crate) fn member_text(alloc: Global, keys: &[String], value: &str) -> Result<String, AllocError>
    ensures { IfOk result (λ s. IsNested (key_texts keys.now) (chars value.now) (chars (string_bytes s))) }
{
    let mut text = given_text(alloc, value)?;
    let mut left = keys;
    while let Some((key, outer)) = left.split_last() {
        text = member_around(alloc, key, &text)?;
        left = outer;
    }
    Ok(text)
}

/// The value as JSON5.
fn given_text(alloc: Global, value: &str) -> Result<String, AllocError>
    ensures { IfOk result (λ s. IsNested [] (chars value.now) (chars (string_bytes s))) }
{
    if is_document(alloc, value)? {
        return closed(alloc, value);
    }
    match to_json_string(alloc, value) {
        Ok(text) => Ok(text),
        Err(_) => Err(AllocError),
    }
}

fn is_document(alloc: Global, text: &str) -> Result<bool, AllocError>
    ensures { IfOk result (λ is. MatchBool is (IsDocument text.now) (IsNoDocument (chars text.now))) }
{
    match check_document(alloc, text) {
        Ok(()) => Ok(true),
        Err(error) => is_refused(error),
    }
}

/// Says no of a text that was refused, unless memory ran out.
#[tactic(auto, using(crate::proofs::MembersMade::memory_said))]
pub(crate) fn is_refused(error: Error) -> Result<bool, AllocError>
    ensures { IfOk result (λ is. (is ≡ false) × (IsOutOfMemory error → ⊥)) }
{
    match error.code() {
        Some(ErrorCode::OutOfMemory) => Err(AllocError),
        _ => Ok(false),
    }
}

/// The text, with a line end if it may end in a `//` comment.
fn closed(alloc: Global, text: &str) -> Result<String, AllocError>
    ensures { IfOk result (λ s. ClosesText text.now (string_bytes s)) }
{
    let mut closed = String::from_str(alloc, text)?;
    if !has_slashes(text) {
        return Ok(closed);
    }
    closed.push_str("\n")?;
    Ok(closed)
}

fn has_slashes(text: &str) -> bool
    ensures { (result ≡ true) ↔ HasSubslice text.now (codes "//") }
{
    text.contains("//")
}

/// An object whose only member has this key, and this value.
fn member_around(alloc: Global, key: &str, value: &str) -> Result<String, AllocError>
    ensures { IfOk result (λ s. chars (string_bytes s) ≡ member_spelled (chars key.now) (chars value.now)) }
{
    match to_json_string(alloc, key) {
        Ok(key) => in_braces(alloc, key.as_str(), value),
        Err(_) => Err(AllocError),
    }
}

fn in_braces(alloc: Global, key: &str, value: &str) -> Result<String, AllocError>
    ensures { IfOk result (λ s. string_bytes s ≡ codes "{ " ++ (key.now ++ (codes ": " ++ (value.now ++ codes " }")))) }
{
    format!(in alloc; "{{ {key}: {value} }}")
}
