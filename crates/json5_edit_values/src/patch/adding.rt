//! A value that comes to where a pointer leads.

ghost use Rattle.std.specs.Prelude.{◌≡◌, [], ◌++◌, ◌∷◌, IfOk, IfNone, IfSome, IfErr, string_bytes};
ghost use Rattle.std.specs.Str.{chars};
ghost use Rattle.json5_grammar.specs.Language.Trees.{Tree};
ghost use Rattle.json5_grammar.specs.Language.Values.{Val};
ghost use Rattle.json5_edit.specs.Changes.{ChangesBy};
ghost use Rattle.json5_edit.specs.Comparing.{IsWithAt, IsWithLast};
ghost use Rattle.json5_edit.specs.Refusals.{IsNo, Reaches, RefusesPath};
ghost use Rattle.json5_edit_values.specs.Locations.{Becomes};
ghost use Rattle.json5_edit_values.specs.News.{AddsKeyed, AddsNew, Brings, BringsAt, HasCount};
ghost use Rattle.json5_edit_values.specs.Patches.{Joins};
ghost use Rattle.json5_read.specs.declared.brackets.BracketKind.TheVariants as kind;

use crate::patch::new_values::{New, new_text};
use crate::patch::steps::{is_array, steps_in};
use crate::seats::Goes;
use json5_edit::{
    EditError, Names, Result, Step, find, insert_element, insert_in, part_at, push, set,
};
use json5_read::read_document;
use std::alloc::Global;

/// The text with the value added at the location.
pub(crate) fn added(
    alloc: Global,
    text: &str,
    tokens: &[String],
    new: New<'_>,
    names: Names,
) -> Result<String>
    ensures { IfOk result (λ made. ChangesBy (AddsNew new.entry tokens.now) text.now (string_bytes made)) }
{
    let steps = steps_in(alloc, text, tokens)?;
    let Some((step, outer)) = steps.as_slice().split_last() else {
        return set_at(alloc, text, &[], new);
    };
    match *step {
        Step::Index(index) => add_element(alloc, text, outer, index, new),
        Step::Key(key) => add_keyed(alloc, text, steps.as_slice(), outer, key, new, names),
    }
}

/// The text with the value where the steps lead, whose last one from an array is its end, and else a key.
fn add_keyed(
    alloc: Global,
    text: &str,
    steps: &[Step<'_>],
    outer: &[Step<'_>],
    key: &str,
    new: New<'_>,
    names: Names,
) -> Result<String>
    ensures { IfOk result (λ made. ChangesBy (AddsKeyed new.entry steps.now outer.now key.now) text.now (string_bytes made)) }
{
    if key == "-" {
        if is_array(alloc, text, outer)? {
            return push_at(alloc, text, outer, new);
        }
    }
    match find(alloc, text, steps) {
        Ok(Some(_)) => set_at(alloc, text, steps, new),
        Ok(None) => insert_at(alloc, text, outer, key, new, names),
        Err(error) => Err(EditError::of_text(error)),
    }
}

/// The text with the value in the place of that to which the steps lead.
pub(crate) fn set_at(alloc: Global, text: &str, steps: &[Step<'_>], new: New<'_>) -> Result<String>
    ensures { IfOk result (λ made. ChangesBy (BringsAt new.entry Becomes steps.now) text.now (string_bytes made)) }
{
    let value = new_text(alloc, new, text, steps, Goes::Instead)?;
    set(alloc, text, steps, value.as_str())
}

/// The text with the value as the last member of the object to which the steps lead.
pub(crate) fn insert_at(
    alloc: Global,
    text: &str,
    steps: &[Step<'_>],
    key: &str,
    new: New<'_>,
    names: Names,
) -> Result<String>
    ensures { IfOk result (λ made. ChangesBy (BringsAt new.entry (Joins key.now) steps.now) text.now (string_bytes made)) }
{
    let value = new_text(
        alloc,
        new,
        text,
        steps,
        Goes::Last(key.len().saturating_add(4)),
    )?;
    insert_in(alloc, text, steps, key, value.as_str(), names)
}

/// The text with the value as the last element of the array to which the steps lead.
fn push_at(alloc: Global, text: &str, steps: &[Step<'_>], new: New<'_>) -> Result<String>
    ensures { IfOk result (λ made. ChangesBy (BringsAt new.entry (IsWithLast kind.Array []) steps.now) text.now (string_bytes made)) }
{
    let value = new_text(alloc, new, text, steps, Goes::Last(0))?;
    push(alloc, text, steps, value.as_str())
}

/// The text with the value as an element of the array to which the steps lead, before that with the index or as the last.
fn add_element(
    alloc: Global,
    text: &str,
    steps: &[Step<'_>],
    index: usize,
    new: New<'_>,
) -> Result<String>
    ensures { IfOk result (λ made. ChangesBy (BringsAt new.entry (IsWithAt index) steps.now) text.now (string_bytes made)) }
{
    let Some(count) = count_at(alloc, text, steps)? else {
        return Err(EditError::NotArray);
    };
    if count == index {
        return push_at(alloc, text, steps, new);
    }
    let value = new_text(alloc, new, text, steps, Goes::Before(index))?;
    insert_element(alloc, text, steps, index, value.as_str())
}

/// How many entries the value has to which the steps lead, if it can have any.
pub(crate) fn count_at(alloc: Global, text: &str, steps: &[Step<'_>]) -> Result<Option<usize>>
    ensures count { IfOk result (λ count. IfSome count (HasCount text.now steps.now)) }
    ensures none { IfOk result (λ count. IfNone count (Reaches (IsNo kind.Array) text.now steps.now)) }
    ensures refused { IfErr result (RefusesPath text.now steps.now) }
{
    let part = part_at(alloc, text, steps)?;
    match read_document(alloc, part) {
        Ok(value) => Ok(value.len()),
        Err(_) => Err(EditError::NoMemory),
    }
}
