//! Patches that are made on a text, and values that go to another place as those of a patch do.

ghost use Rattle.std.specs.Prelude.{IfOk, string_bytes};
ghost use Rattle.json5_edit.specs.Changes.{ChangesBy};
ghost use Rattle.json5_edit_values.specs.Patches.{Performs};
ghost use Rattle.cli_edit.specs.Makes.{AreTokensOf, IsCopied, IsMerged, IsMoved, IsPatched, IsTokenOf};

use crate::trouble::TextTrouble;
use json5_edit::{EditError, Names, Path, Result as EditResult, Step, part_at};
use json5_edit_values::patch::{
    Operation, Patch, PatchFault, Pointer, Trouble, apply_patch_in, merge_patch_in,
};
use json5_read::read_document;
use std::alloc::Global;

/// The text after the operations of the patch.
pub(crate) fn applied(
    alloc: Global,
    text: &str,
    patch: &str,
    names: Names,
) -> Result<String, TextTrouble>
    ensures { IfOk result (λ made. IsPatched text.now (string_bytes made)) }
{
    let patch = match Patch::parse(alloc, patch) {
        Ok(patch) => patch,
        Err(fault) => return Err(TextTrouble::NoPatch(fault)),
    };
    match apply_patch_in(alloc, names, text, &patch) {
        Ok(made) => Ok(made),
        Err(error) => Err(TextTrouble::Operation(error)),
    }
}

/// The text with the merge patch merged into it.
pub(crate) fn merged(
    alloc: Global,
    text: &str,
    patch: &str,
    names: Names,
) -> Result<String, TextTrouble>
    ensures { IfOk result (λ made. IsMerged text.now patch.now (string_bytes made)) }
{
    let patch = match read_document(alloc, patch) {
        Ok(patch) => patch,
        Err(error) => return Err(TextTrouble::NoPatch(PatchFault::of_text(error))),
    };
    match merge_patch_in(alloc, names, text, &patch) {
        Ok(made) => Ok(made),
        Err(error) => Err(TextTrouble::Edit(error)),
    }
}

/// The text with the value to which the steps lead taken out, and added where `to` leads.
pub(crate) fn moved(
    alloc: Global,
    text: &str,
    steps: &[Step<'_>],
    to: &str,
    names: Names,
) -> Result<String, TextTrouble>
    ensures { IfOk result (λ made. IsMoved text.now steps.now (string_bytes made)) }
{
    let from = origin(alloc, text, steps)?;
    let path = destination(alloc, text, to)?;
    performed(alloc, text, Operation::Move { from, path }, names)
}

/// The text with the value to which the steps lead added where `to` leads too.
pub(crate) fn copied(
    alloc: Global,
    text: &str,
    steps: &[Step<'_>],
    to: &str,
    names: Names,
) -> Result<String, TextTrouble>
    ensures { IfOk result (λ made. IsCopied text.now steps.now (string_bytes made)) }
{
    let from = origin(alloc, text, steps)?;
    let path = destination(alloc, text, to)?;
    performed(alloc, text, Operation::Copy { from, path }, names)
}

/// The text after one operation.
fn performed(
    alloc: Global,
    text: &str,
    operation: Operation,
    names: Names,
) -> Result<String, TextTrouble>
    ensures { IfOk result (λ made. ChangesBy (Performs operation) text.now (string_bytes made)) }
{
    let mut operations = Vec::new(alloc);
    if operations.push(operation).is_err() {
        return Err(TextTrouble::Edit(EditError::NoMemory));
    }
    match apply_patch_in(alloc, names, text, &Patch { operations }) {
        Ok(made) => Ok(made),
        Err(error) => Err(trouble_of(error.trouble)),
    }
}

/// Why a value isn't moved or copied.
fn trouble_of(trouble: Trouble) -> TextTrouble {
    match trouble {
        Trouble::Edit(error) => TextTrouble::Edit(error),
        _ => TextTrouble::IntoItself,
    }
}

/// Where the value is that goes to another place, if it is there.
fn origin(alloc: Global, text: &str, steps: &[Step<'_>]) -> Result<Pointer, TextTrouble>
    ensures { IfOk result (λ from. AreTokensOf steps.now from.tokens.items) }
{
    match part_at(alloc, text, steps) {
        Ok(_) => pointer_of(alloc, steps),
        Err(error) => Err(TextTrouble::Edit(error)),
    }
}

/// Where a value goes. An index goes to an array.
fn destination(alloc: Global, text: &str, to: &str) -> Result<Pointer, TextTrouble> {
    let path = match Path::parse(alloc, to) {
        Ok(path) => path,
        Err(error) => return Err(TextTrouble::NoPath(error)),
    };
    let steps = match path.steps_in(alloc, text) {
        Ok(steps) => steps,
        Err(error) => return Err(TextTrouble::Edit(error)),
    };
    if let Some((Step::Index(_), outer)) = steps.as_slice().split_last() {
        check_array(alloc, text, outer)?;
    }
    pointer_of(alloc, steps.as_slice())
}

/// Refuses steps that don't lead to an array.
fn check_array(alloc: Global, text: &str, steps: &[Step<'_>]) -> Result<(), TextTrouble> {
    match part_at(alloc, text, steps) {
        Ok(part) if part.starts_with("[") => Ok(()),
        Ok(_) => Err(TextTrouble::Edit(EditError::NotArray)),
        Err(error) => Err(TextTrouble::Edit(error)),
    }
}

/// The pointer with a token for each step.
fn pointer_of(alloc: Global, steps: &[Step<'_>]) -> Result<Pointer, TextTrouble>
    ensures { IfOk result (λ pointer. AreTokensOf steps.now pointer.tokens.items) }
{
    match tokens_of(alloc, steps) {
        Ok(tokens) => Ok(Pointer { tokens }),
        Err(error) => Err(TextTrouble::Edit(error)),
    }
}

fn tokens_of(alloc: Global, steps: &[Step<'_>]) -> EditResult<Vec<String>>
    ensures { IfOk result (λ tokens. AreTokensOf steps.now tokens.items) }
{
    let mut tokens = Vec::new(alloc);
    for step in steps {
        let token = token_of(alloc, *step)?;
        if tokens.push(token).is_err() {
            return Err(EditError::NoMemory);
        }
    }
    Ok(tokens)
}

/// The token of a step.
fn token_of(alloc: Global, step: Step<'_>) -> EditResult<String>
    ensures { IfOk result (λ token. IsTokenOf step.entry (string_bytes token)) }
{
    match step {
        Step::Key(key) => Ok(String::from_str(alloc, key)?),
        Step::Index(index) => match format!(in alloc; "{index}") {
            Ok(token) => Ok(token),
            Err(_) => Err(EditError::NoMemory),
        },
    }
}
