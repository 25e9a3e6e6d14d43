//! A value that is put where a path leads, whether one was there or not.

ghost use Rattle.std.specs.Prelude.{◌≡◌, ◌≤◌, drop, length, take};
ghost use Rattle.json5_edit.specs.Changes.{EditsWith};
ghost use Rattle.json5_edit.specs.Places.{LeadsNowhere};
ghost use Rattle.json5_edit.specs.declared.paths.Step.TheVariants as steps;
ghost use Rattle.json5_edit_style.specs.declared.habits.Names.TheVariants as layout_names;
ghost use Rattle.json5_edit_values.specs.Puts.{EditsAlong, EditsEntry, IsAdded, IsPutIfAbsent, PutsAt, RefusesPut, first_in};

use crate::patch::adding::count_at;
use json5_edit::{EditError, Names, Result, Step, find, insert_in, push, set};
use std::alloc::Global;

/// Returns the text with `value` where the path leads, a JSON5 value without blanks or comments around it: set, if a value is
/// there; else added, within the objects and arrays that are missing above it. An index may be that after the last element.
/// All else is as [`set`], [`insert_in`] with names between quotes, and [`push`] have it.
///
/// ```text
/// put(alloc, "{ log: {} }", &[Step::Key("log"), Step::Key("level")], "2")?    // { log: { level: 2 } }
/// ```
///
/// # Errors
///
/// - `Text` with the fault of reading, if the text is no document.
/// - `NotObject` or `NotArray`, if a step goes to a member of what is no object, or to an element of what is no array.
/// - `Nowhere`, if a step goes to an element past that after the last.
/// - `Value` with the fault of reading, if `value` is no value or is nested too deep for its place.
/// - `NoMemory` where there is no memory for the text, or for a key with an escape.
pub fn put(alloc: Global, text: &str, path: &[Step<'_>], value: &str) -> Result<String>
    ensures { PutsAt layout_names.Quoted text.now path.now value.now result }
{
    put_in(alloc, text, path, value, Names::Quoted)
}

/// As [`put`], where the caller says how a name stands as the first key of a document. With `Names::Bare` a document of
/// JSON may come to have a key without quotes.
///
/// ```text
/// put_in(alloc, "{}", &[Step::Key("port")], "80", Names::Bare)?    // { port: 80 }
/// ```
///
/// # Errors
///
/// As [`put`].
pub fn put_in(
    alloc: Global,
    text: &str,
    path: &[Step<'_>],
    value: &str,
    names: Names,
) -> Result<String>
    ensures { PutsAt names text.now path.now value.now result }
{
    match find(alloc, text, path) {
        Ok(Some(_)) => set(alloc, text, path, value),
        Ok(None) => add_missing(alloc, text, path, value, names),
        Err(error) => Err(EditError::of_text(error)),
    }
}

/// As [`put_in`] where the path leads nowhere; else returns the text as it is.
///
/// ```text
/// put_if_absent(alloc, "{ port: 80 }", &[Step::Key("port")], "8080", Names::Quoted)?    // { port: 80 }
/// ```
///
/// # Errors
///
/// As [`put`].
pub fn put_if_absent(
    alloc: Global,
    text: &str,
    path: &[Step<'_>],
    value: &str,
    names: Names,
) -> Result<String>
    ensures { EditsWith names text.now value.now (IsPutIfAbsent text.now path.now value.now) (RefusesPut text.now path.now value.now) result }
{
    match find(alloc, text, path) {
        Ok(Some(_)) => Ok(String::from_str(alloc, text)?),
        Ok(None) => add_missing(alloc, text, path, value, names),
        Err(error) => Err(EditError::of_text(error)),
    }
}

/// The text with the value where the path leads, and what is missing above it.
fn add_missing(
    alloc: Global,
    text: &str,
    path: &[Step<'_>],
    value: &str,
    names: Names,
) -> Result<String>
    requires { LeadsNowhere text.now path.now }
    ensures { EditsWith names text.now value.now (IsAdded text.now path.now value.now) (RefusesPut text.now path.now value.now) result }
{
    for count in 0..path.len() {
        match find(alloc, text, &path[..count + 1]) {
            Ok(Some(_)) => {}
            Ok(None) => return add_along(alloc, text, path, count, value, names),
            Err(error) => return Err(EditError::of_text(error)),
        }
    }
    unreachable!()
}

/// The text with an entry for each of the steps but the first ones, so many, one within the other, and the value in the
/// last.
#[cycle(add_along)]
fn add_along(
    alloc: Global,
    text: &str,
    path: &[Step<'_>],
    count: usize,
    value: &str,
    names: Names,
) -> Result<String>
    requires { count ≤ length path.now }
    ensures { EditsAlong names text.now (take count path.now) (drop count path.now) value.now result }
{
    let (outer, rest) = path.split_at(count);
    let Some((step, inner)) = rest.split_first() else {
        return Ok(String::from_str(alloc, text)?);
    };
    let new = first_in(inner, value);
    match entered(alloc, text, outer, *step, new, names) {
        Ok(made) => add_along(alloc, made.as_str(), path, count + 1, value, names),
        Err(error) => Err(error),
    }
}

/// What an entry begins as in which these steps go on.
fn first_in<'v>(path: &[Step<'_>], value: &'v str) -> &'v str
    ensures { result.now ≡ first_in path.now value.now }
{
    match path.first() {
        None => value,
        Some(Step::Key(_)) => "{}",
        Some(Step::Index(_)) => "[]",
    }
}

/// The text with one entry more, behind the others, to which this step goes from where the others lead.
fn entered(
    alloc: Global,
    text: &str,
    outer: &[Step<'_>],
    step: Step<'_>,
    value: &str,
    names: Names,
) -> Result<String>
    ensures { EditsEntry names step.entry text.now outer.now value.now result }
{
    match step {
        Step::Key(key) => insert_in(alloc, text, outer, key, value, names),
        Step::Index(index) => appended(alloc, text, outer, index, value),
    }
}

/// The text with one element more in the array to which the steps lead, if it has so many.
fn appended(
    alloc: Global,
    text: &str,
    outer: &[Step<'_>],
    count: usize,
    value: &str,
) -> Result<String>
    ensures { EditsEntry layout_names.Quoted (steps.Index count) text.now outer.now value.now result }
{
    let Some(found) = count_at(alloc, text, outer)? else {
        return Err(EditError::NotArray);
    };
    if found == count {
        return push(alloc, text, outer, value);
    }
    Err(EditError::Nowhere)
}
