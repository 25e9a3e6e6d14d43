//! What is made of a text.

ghost use Rattle.std.specs.Prelude.{◌≡◌, IfErr, IfOk, string_bytes};
ghost use Rattle.cli_edit.specs.Makes.{Inserts, InsertsAhead, Makes, MakesLaid, RefusesAhead, RefusesCommenting, RefusesInserting, RefusesRemoving, RefusesWork, RemovesEntry, edited};
ghost use Rattle.json5_edit.specs.Commented.{IsCommented};

use crate::parts::shown_at;
use crate::patches::{applied, copied, merged, moved};
use crate::placed::placed;
use crate::requests::{Command, Task};
use crate::trouble::TextTrouble;
use json5_edit::{
    Before, EditError, Names, Result, Step, comment, comment_of, insert_before, insert_element,
    insert_in, push, remove, remove_alone, rename, set, sort,
};
use json5_edit_values::{put_if_absent, put_in};
use std::alloc::Global;

/// The text that is written: what was asked for of the value, or the changed text.
pub(crate) fn made(
    alloc: Global,
    task: &Task<'_>,
    text: &str,
    steps: &[Step<'_>],
    value: &str,
) -> std::result::Result<String, TextTrouble>
    ensures made { IfOk result (λ new. Makes task.now.work text.now steps.now value.now (string_bytes new)) }
    ensures refused { IfErr result (RefusesWork task.now.work text.now steps.now value.now) }
{
    let names = names_in(task.file);
    match task.work {
        Command::Show(view) => shown_at(alloc, view, text, steps),
        Command::Set => edited(set(alloc, text, steps, value)),
        Command::Insert => edited(inserted(alloc, text, steps, value, names)),
        Command::InsertBefore(before) => {
            edited(inserted_before(alloc, text, steps, before, value, names))
        }
        Command::Push => edited(push(alloc, text, steps, value)),
        Command::Put => edited(put_in(alloc, text, steps, value, names)),
        Command::PutAbsent => edited(put_if_absent(alloc, text, steps, value, names)),
        Command::Rename => edited(rename(alloc, text, steps, value)),
        Command::Move => moved(alloc, text, steps, value, names),
        Command::Copy => copied(alloc, text, steps, value, names),
        Command::Remove => edited(removed(alloc, text, steps, false)),
        Command::RemoveAlone => edited(removed(alloc, text, steps, true)),
        Command::ShowComment => edited(comment_line(alloc, text, steps)),
        Command::Comment => edited(commented(alloc, text, steps, value)),
        Command::Sort => edited(sort(alloc, text, steps)),
        Command::Apply => applied(alloc, text, value, names),
        Command::Merge => merged(alloc, text, value, names),
    }
}

/// The text that was made; or the same with a VALUE over several lines laid out for where it goes, where that leaves
/// its strings and comments as they are.
pub(crate) fn laid(
    alloc: Global,
    task: &Task<'_>,
    text: &str,
    steps: &[Step<'_>],
    value: &str,
    as_given: String,
) -> String
    requires { Makes task.now.work text.now steps.now value.now (string_bytes as_given) }
    ensures { MakesLaid task.now.work text.now steps.now value.now (string_bytes result) }
{
    let Some(placed) = placed(alloc, task.work, text, steps, value) else {
        return as_given;
    };
    match made(alloc, task, text, steps, placed.as_str()) {
        Ok(laid) => laid,
        Err(_) => as_given,
    }
}

/// What an edit returned, as the work's own.
fn edited(outcome: Result<String>) -> std::result::Result<String, TextTrouble>
    ensures { result ≡ edited outcome }
{
    match outcome {
        Ok(new) => Ok(new),
        Err(error) => Err(TextTrouble::Edit(error)),
    }
}

/// The text with a member whose key is the last step, or with an element before that to which the last step goes.
fn inserted(
    alloc: Global,
    text: &str,
    steps: &[Step<'_>],
    value: &str,
    names: Names,
) -> Result<String>
    ensures inserted { IfOk result (λ new. Inserts text.now steps.now value.now (string_bytes new)) }
    ensures refused { IfErr result (RefusesInserting text.now steps.now value.now) }
{
    match steps.split_last() {
        Some((Step::Key(key), outer)) => insert_in(alloc, text, outer, key, value, names),
        Some((Step::Index(index), outer)) => insert_element(alloc, text, outer, *index, value),
        None => Err(EditError::NoKey),
    }
}

/// The text with a member whose key is the last step, before another one or before all.
fn inserted_before(
    alloc: Global,
    text: &str,
    steps: &[Step<'_>],
    before: Before<'_>,
    value: &str,
    names: Names,
) -> Result<String>
    ensures inserted { IfOk result (λ new. InsertsAhead before.entry text.now steps.now value.now (string_bytes new)) }
    ensures refused { IfErr result (RefusesAhead before.entry text.now steps.now value.now) }
{
    match steps.split_last() {
        Some((Step::Key(key), outer)) => {
            insert_before(alloc, text, outer, before, key, value, names)
        }
        Some((Step::Index(_), _)) => Err(EditError::NoKey),
        None => Err(EditError::NoKey),
    }
}

/// The text without the entry to which the steps lead, and without the comments before it unless it goes alone; the whole value is
/// no entry.
fn removed(alloc: Global, text: &str, steps: &[Step<'_>], alone: bool) -> Result<String>
    ensures removed { IfOk result (λ new. RemovesEntry alone text.now steps.now (string_bytes new)) }
    ensures refused { IfErr result (RefusesRemoving text.now steps.now) }
{
    if steps.is_empty() {
        return Err(EditError::NoKey);
    }
    if alone {
        return remove_alone(alloc, text, steps);
    }
    remove(alloc, text, steps)
}

/// What the comments say before the entry to which the steps lead, with a line end; nothing, if there are none.
fn comment_line(alloc: Global, text: &str, steps: &[Step<'_>]) -> Result<String>
    ensures { IfErr result (RefusesCommenting text.now steps.now) }
{
    if steps.is_empty() {
        return Err(EditError::NoKey);
    }
    let mut said = comment_of(alloc, text, steps)?;
    if said.is_empty() {
        return Ok(said);
    }
    match said.push('\n') {
        Ok(()) => Ok(said),
        Err(_) => Err(EditError::NoMemory),
    }
}

/// The text with a comment before the entry to which the steps lead; the whole value is none.
fn commented(alloc: Global, text: &str, steps: &[Step<'_>], words: &str) -> Result<String>
    ensures commented { IfOk result (λ new. IsCommented text.now steps.now (string_bytes new)) }
    ensures refused { IfErr result (RefusesCommenting text.now steps.now) }
{
    if steps.is_empty() {
        return Err(EditError::NoKey);
    }
    comment(alloc, text, steps, words)
}

/// How a name stands as the first key of the file: without quotes, if the file is named as JSON5.
fn names_in(file: &str) -> Names {
    if file.ends_with(".json5") {
        Names::Bare
    } else {
        Names::Quoted
    }
}
