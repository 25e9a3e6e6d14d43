//! A merge patch (RFC 7396) that is made on a text.

ghost use Rattle.std.specs.Prelude.{true, IfOk, string_bytes};
ghost use Rattle.json5_types.specs.ValueMeanings.{value_of};
ghost use Rattle.json5_edit.specs.Changes.{ChangesBy};
ghost use Rattle.json5_edit_values.specs.Merges.{Merges};
ghost use Rattle.json5_edit_values.specs.News.{IsMergedOf, IsTakenOut, JoinsMerged, LeadsSo, MergesFieldInto, MergesFieldsInto, MergesInto};

use crate::patch::adding::{insert_at, set_at};
use crate::patch::new_values::{New, owned};
use crate::patch::steps::{further, is_object};
use json5_edit::{EditError, Names, Result, Step, find, remove};
use json5_read::{check_document, read_document};
use json5_types::value::Value;
use std::alloc::Global;

/// Returns the text after the merge patch: of an object each member is merged into that with its key, one that is null takes
/// it out, and one that is new goes to the end; anything else replaces what is there. Each change is an edit of json5_edit:
/// all comments and blanks stay but those of what is removed or replaced, and a text that is JSON stays so.
///
/// ```text
/// merge_patch(alloc, "{ port: 80, host: 'a' } // web", &patch)?    // { port: 8080 } // web, of { port: 8080, host: null }
/// ```
///
/// # Errors
///
/// - `Text` with the fault of reading, if the text is no document.
/// - `Value`, if a value is nested too deep for its place.
/// - `NoMemory` where there is no memory for the text.
pub fn merge_patch(alloc: Global, text: &str, patch: &Value) -> Result<String>
    ensures { IfOk result (λ made. ChangesBy (Merges (value_of patch.now)) text.now (string_bytes made)) }
{
    merge_patch_in(alloc, Names::Quoted, text, patch)
}

/// The same, where the caller says how a name stands as the first key of a document.
///
/// ```text
/// merge_patch_in(alloc, Names::Bare, "{}", &patch)?    // { port: 80 }
/// ```
///
/// # Errors
///
/// As [`merge_patch`].
pub fn merge_patch_in(alloc: Global, names: Names, text: &str, patch: &Value) -> Result<String>
    ensures { IfOk result (λ new. ChangesBy (Merges (value_of patch.now)) text.now (string_bytes new)) }
{
    match check_document(alloc, text) {
        Ok(()) => merged(alloc, names, text, &[], patch),
        Err(error) => Err(EditError::of_text(error)),
    }
}

/// The text with the patch merged into the value to which the steps lead.
#[cycle(merged)]
fn merged<'s>(
    alloc: Global,
    names: Names,
    text: &str,
    steps: &[Step<'s>],
    patch: &'s Value,
) -> Result<String>
    ensures { IfOk result (λ made. ChangesBy (MergesInto patch.now steps.now) text.now (string_bytes made)) }
{
    let Some(fields) = patch.as_object() else {
        return set_at(alloc, text, steps, New::Value(patch));
    };
    if is_object(alloc, text, steps)? {
        return merged_fields(alloc, names, text, steps, fields);
    }
    let new = merged_anew(alloc, names, fields)?;
    set_at(alloc, text, steps, New::Value(&new))
}

/// The text with the members merged into the object to which the steps lead, one after the other.
#[cycle(merged)]
fn merged_fields<'s>(
    alloc: Global,
    names: Names,
    text: &str,
    steps: &[Step<'s>],
    fields: &'s [(String, Value)],
) -> Result<String>
    ensures { LeadsSo true text.now steps.now → IfOk result (λ made. ChangesBy (MergesFieldsInto fields.now steps.now) text.now (string_bytes made)) }
{
    let mut made = owned(alloc, text)?;
    for (key, value) in fields {
        made = merged_field(alloc, names, made.as_str(), steps, key.as_str(), value)?;
    }
    Ok(made)
}

/// The text with a member merged into the object to which the steps lead.
#[cycle(merged)]
fn merged_field<'s>(
    alloc: Global,
    names: Names,
    text: &str,
    steps: &[Step<'s>],
    key: &'s str,
    value: &'s Value,
) -> Result<String>
    ensures { LeadsSo true text.now steps.now → IfOk result (λ made. ChangesBy (MergesFieldInto key.now value.now steps.now) text.now (string_bytes made)) }
{
    let path = further(alloc, steps, Step::Key(key))?;
    if value.is_null() {
        return taken_out(alloc, text, path.as_slice());
    }
    if leads(alloc, text, path.as_slice())? {
        return merged(alloc, names, text, path.as_slice(), value);
    }
    joined(alloc, names, text, steps, key, value)
}

/// The text with what the value makes of nothing as a member more of the object to which the steps lead.
#[cycle(merged)]
fn joined(
    alloc: Global,
    names: Names,
    text: &str,
    steps: &[Step<'_>],
    key: &str,
    value: &Value,
) -> Result<String>
    ensures { IfOk result (λ made. ChangesBy (JoinsMerged key.now value.now steps.now) text.now (string_bytes made)) }
{
    let Some(fields) = value.as_object() else {
        return insert_at(alloc, text, steps, key, New::Value(value), names);
    };
    let new = merged_anew(alloc, names, fields)?;
    insert_at(alloc, text, steps, key, New::Value(&new), names)
}

/// What the members make of an empty object.
#[cycle(merged)]
fn merged_anew(alloc: Global, names: Names, fields: &[(String, Value)]) -> Result<Value>
    ensures { IfOk result (IsMergedOf fields.now) }
{
    let made = merged_fields(alloc, names, "{}", &[], fields)?;
    match read_document(alloc, made.as_str()) {
        Ok(new) => Ok(new),
        Err(_) => Err(EditError::NoMemory),
    }
}

/// The text without the entry to which the path leads, if it is there.
fn taken_out(alloc: Global, text: &str, path: &[Step<'_>]) -> Result<String>
    ensures { IfOk result (λ made. IsTakenOut text.now path.now (string_bytes made)) }
{
    if leads(alloc, text, path)? {
        return remove(alloc, text, path);
    }
    owned(alloc, text)
}

/// Whether the steps lead somewhere.
fn leads(alloc: Global, text: &str, steps: &[Step<'_>]) -> Result<bool>
    ensures { IfOk result (λ is_there. LeadsSo is_there text.now steps.now) }
{
    match find(alloc, text, steps) {
        Ok(span) => Ok(span.is_some()),
        Err(error) => Err(EditError::of_text(error)),
    }
}
