//! A patch that is made on a text.

ghost use Rattle.std.specs.Prelude.{◌≡◌, [], IfErr, IfOk, string_bytes};
ghost use Rattle.json5_types.specs.ValueMeanings.{value_of};
ghost use Rattle.json5_numbers.specs.Sameness.{same_datum};
ghost use Rattle.json5_edit.specs.Changes.{ChangesBy};
ghost use Rattle.json5_edit.specs.Refusals.{RefusesPath};
ghost use Rattle.json5_edit_values.specs.News.{ReplacesWith, edited};
ghost use Rattle.json5_edit_values.specs.Patches.{ComparesIn, Copies, FailsIn, MakesPatch, Moves, Patches, Performs, RefusesMove, RefusesTest, RemovesFrom, TakesTo, Tests, is_within};

use crate::patch::adding::{added, set_at};
use crate::patch::faults::{PatchError, Trouble};
use crate::patch::new_values::{New, owned};
use crate::patch::operations::{Operation, Patch};
use crate::patch::pointers::Pointer;
use crate::patch::steps::steps_in;
use json5_edit::{EditError, Names, Result, part_at, remove};
use json5_numbers::same;
use json5_read::{check_document, read_document};
use json5_types::value::Value;
use std::alloc::Global;

/// Returns the text after the operations of the patch, one after the other. Each is an edit of json5_edit: all comments and
/// blanks stay but those of what is removed, and a text that is JSON stays so. A value that moves keeps the comments within it.
///
/// ```text
/// apply_patch(alloc, "{ port: 80 } // web", &patch)?    // { port: 8080 } // web
/// ```
///
/// # Errors
///
/// With the index of the first operation that can't be made, its location, and
/// - `Edit` with the error of the edit: `Nowhere`, if its path or its `from` leads nowhere.
/// - `Differs`, if it is a test, and the value that is there isn't equal to its own: numbers by their size, members in any
///   order, as RFC 6902 says (section 4.6).
/// - `IntoItself`, if it moves a value into itself.
pub fn apply_patch(
    alloc: Global,
    text: &str,
    patch: &Patch,
) -> std::result::Result<String, PatchError>
    ensures { MakesPatch patch.now.operations.items text.now result }
{
    apply_patch_in(alloc, Names::Quoted, text, patch)
}

/// The same, where the caller says how a name stands as the first key of a document.
///
/// ```text
/// apply_patch_in(alloc, Names::Bare, "{}", &patch)?    // { port: 80 }
/// ```
///
/// # Errors
///
/// As [`apply_patch`].
pub fn apply_patch_in(
    alloc: Global,
    names: Names,
    text: &str,
    patch: &Patch,
) -> std::result::Result<String, PatchError>
    ensures { MakesPatch patch.now.operations.items text.now result }
{
    let mut made = match document(alloc, text) {
        Ok(made) => made,
        Err(error) => return Err(PatchError {
            operation: 0,
            path: None,
            trouble: Trouble::Edit(error),
        }),
    };
    for operation in 0..patch.operations.len() {
        match performed(alloc, names, made.as_str(), &patch.operations[operation]) {
            Ok(new) => made = new,
            Err(trouble) => {
                let path = blamed(alloc, made.as_str(), &patch.operations[operation]);
                return Err(PatchError {
                    operation,
                    path,
                    trouble,
                });
            }
        }
    }
    Ok(made)
}

/// The location at which an operation isn't made, if there is memory for it.
fn blamed(alloc: Global, text: &str, operation: &Operation) -> Option<Pointer> {
    let pointer = match operation {
        Operation::Add { path, .. } => path,
        Operation::Remove { path } => path,
        Operation::Replace { path, .. } => path,
        Operation::Move { from, path } => blamed_of(alloc, text, from, path),
        Operation::Copy { from, path } => blamed_of(alloc, text, from, path),
        Operation::Test { path, .. } => path,
    };
    match pointer.tokens.clone() {
        Ok(tokens) => Some(Pointer { tokens }),
        Err(_) => None,
    }
}

/// The first of the two, if it leads nowhere.
fn blamed_of<'p>(alloc: Global, text: &str, from: &'p Pointer, path: &'p Pointer) -> &'p Pointer {
    if leads_nowhere(alloc, text, from.tokens.as_slice()) {
        from
    } else {
        path
    }
}

/// Whether there is no value at the location.
fn leads_nowhere(alloc: Global, text: &str, tokens: &[String]) -> bool {
    let Ok(steps) = steps_in(alloc, text, tokens) else {
        return false;
    };
    part_at(alloc, text, steps.as_slice()).is_err()
}

/// The text itself, if it is a document.
fn document(alloc: Global, text: &str) -> Result<String>
    ensures made { IfOk result (λ made. ChangesBy (Patches []) text.now (string_bytes made)) }
    ensures refused { IfErr result (RefusesPath text.now []) }
{
    match check_document(alloc, text) {
        Ok(()) => owned(alloc, text),
        Err(error) => Err(EditError::of_text(error)),
    }
}

/// The text after one operation.
fn performed(
    alloc: Global,
    names: Names,
    text: &str,
    operation: &Operation,
) -> std::result::Result<String, Trouble>
    ensures made { IfOk result (λ made. ChangesBy (Performs operation.now) text.now (string_bytes made)) }
    ensures refused { IfErr result (FailsIn operation.now text.now) }
{
    match operation {
        Operation::Add { path, value } => {
            edited(added(
                alloc,
                text,
                path.tokens.as_slice(),
                New::Value(value),
                names,
            ))
        }
        Operation::Remove { path } => edited(removed(alloc, text, path.tokens.as_slice())),
        Operation::Replace { path, value } => {
            edited(replaced(alloc, text, path.tokens.as_slice(), New::Value(value)))
        }
        Operation::Move { from, path } => {
            moved(
                alloc,
                names,
                text,
                from.tokens.as_slice(),
                path.tokens.as_slice(),
            )
        }
        Operation::Copy { from, path } => {
            edited(copied(
                alloc,
                names,
                text,
                from.tokens.as_slice(),
                path.tokens.as_slice(),
            ))
        }
        Operation::Test { path, value } => tested(alloc, text, path.tokens.as_slice(), value),
    }
}

/// What an edit returned, as the operation's own.
fn edited(made: Result<String>) -> std::result::Result<String, Trouble>
    ensures { result ≡ edited made }
{
    match made {
        Ok(new) => Ok(new),
        Err(error) => Err(Trouble::Edit(error)),
    }
}

/// The text without the entry at the location.
fn removed(alloc: Global, text: &str, tokens: &[String]) -> Result<String>
    ensures { IfOk result (λ made. ChangesBy (RemovesFrom tokens.now) text.now (string_bytes made)) }
{
    let steps = steps_in(alloc, text, tokens)?;
    remove(alloc, text, steps.as_slice())
}

/// The text with the value in the place of that at the location.
fn replaced(alloc: Global, text: &str, tokens: &[String], new: New<'_>) -> Result<String>
    ensures { IfOk result (λ made. ChangesBy (ReplacesWith new.entry tokens.now) text.now (string_bytes made)) }
{
    let steps = steps_in(alloc, text, tokens)?;
    set_at(alloc, text, steps.as_slice(), new)
}

/// The text with the value at one location moved to another.
fn moved(
    alloc: Global,
    names: Names,
    text: &str,
    from: &[String],
    path: &[String],
) -> std::result::Result<String, Trouble>
    ensures made { IfOk result (λ made. ChangesBy (Moves from.now path.now) text.now (string_bytes made)) }
    ensures refused { IfErr result (RefusesMove from.now path.now) }
{
    if is_within(from, path) {
        return Err(Trouble::IntoItself);
    }
    edited(moved_out(alloc, names, text, from, path))
}

/// The text with the value at one location taken out and added at another.
fn moved_out(
    alloc: Global,
    names: Names,
    text: &str,
    from: &[String],
    path: &[String],
) -> Result<String>
    ensures { IfOk result (λ made. ChangesBy (TakesTo from.now path.now) text.now (string_bytes made)) }
{
    let steps = steps_in(alloc, text, from)?;
    let part = part_at(alloc, text, steps.as_slice())?;
    let without = remove(alloc, text, steps.as_slice())?;
    added(alloc, without.as_str(), path, New::Text(part), names)
}

/// The text with the value at one location added at another too.
fn copied(
    alloc: Global,
    names: Names,
    text: &str,
    from: &[String],
    path: &[String],
) -> Result<String>
    ensures { IfOk result (λ made. ChangesBy (Copies from.now path.now) text.now (string_bytes made)) }
{
    let steps = steps_in(alloc, text, from)?;
    let part = part_at(alloc, text, steps.as_slice())?;
    added(alloc, text, path, New::Text(part), names)
}

/// Whether the second location is within the first.
#[cycle(is_within)]
fn is_within(outer: &[String], inner: &[String]) -> bool
    ensures { result ≡ is_within outer.now inner.now }
{
    match (outer.split_first(), inner.split_first()) {
        (None, Some(_)) => true,
        (Some((first, outer)), Some((same, inner))) if first.as_str() == same.as_str() => {
            is_within(outer, inner)
        }
        _ => false,
    }
}

/// The text itself, if the value at the location is this one.
fn tested(
    alloc: Global,
    text: &str,
    tokens: &[String],
    value: &Value,
) -> std::result::Result<String, Trouble>
    ensures made { IfOk result (λ made. ChangesBy (Tests tokens.now value.now) text.now (string_bytes made)) }
    ensures refused { IfErr result (RefusesTest tokens.now value.now text.now) }
{
    match is_there(alloc, text, tokens, value) {
        Ok(true) => edited(owned(alloc, text)),
        Ok(false) => Err(Trouble::Differs),
        Err(error) => Err(Trouble::Edit(error)),
    }
}

/// Whether the value at the location is equal to this one.
fn is_there(alloc: Global, text: &str, tokens: &[String], value: &Value) -> Result<bool>
    ensures { IfOk result (λ same. ComparesIn same tokens.now value.now text.now) }
{
    let steps = steps_in(alloc, text, tokens)?;
    let part = part_at(alloc, text, steps.as_slice())?;
    match read_document(alloc, part) {
        Ok(there) => is_equal(alloc, &there, value),
        Err(_) => Err(EditError::NoMemory),
    }
}

/// Whether the two values are equal.
fn is_equal(alloc: Global, there: &Value, value: &Value) -> Result<bool>
    ensures { IfOk result (λ equal. equal ≡ same_datum (value_of there.now) (value_of value.now)) }
{
    match same(alloc, there, value) {
        Ok(equal) => Ok(equal),
        Err(_) => Err(EditError::NoMemory),
    }
}
