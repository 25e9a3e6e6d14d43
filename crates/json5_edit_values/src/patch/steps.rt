//! Which steps a pointer has in a text, and what is there.

ghost use Rattle.std.specs.Prelude.{◌≡◌, ◌++◌, ◌∷◌, [], IfErr, IfOk, OnOk};
ghost use Rattle.json5_types.specs.Pointers.{begins_index, index_in};
ghost use Rattle.json5_edit.specs.Refusals.{RefusesPath};
ghost use Rattle.json5_edit_values.specs.Locations.{AreSteps, IsStep};
ghost use Rattle.json5_edit_values.specs.News.{LeadsToObject};

use json5_edit::{EditError, Result, Step, find_place, part_at};
use json5_read::read_document;
use std::alloc::{AllocError, Global};

/// The steps that the tokens are in the text: digits are an index where they come to an array, and a key elsewhere.
pub(crate) fn steps_in<'p>(alloc: Global, text: &str, tokens: &'p [String]) -> Result<Vec<Step<'p>>>
    ensures steps { IfOk result (λ steps. AreSteps tokens.now steps.items) }
    ensures refused { IfErr result (RefusesPath text.now []) }
{
    let mut steps = Vec::new(alloc);
    for token in tokens {
        let step = step_in(alloc, text, steps.as_slice(), token.as_str())?;
        push_step(&mut steps, step)?;
    }
    Ok(steps)
}

/// Appends a step.
fn push_step<'p>(steps: &mut Vec<Step<'p>>, step: Step<'p>) -> Result<(), AllocError>
    ensures { OnOk result (steps.new.items ≡ steps.old.items ++ step.entry ∷ []) }
{
    match steps.push(step) {
        Ok(()) => Ok(()),
        Err(_) => Err(AllocError),
    }
}

/// The step that a token is from where the others lead.
fn step_in<'p>(alloc: Global, text: &str, outer: &[Step<'_>], token: &'p str) -> Result<Step<'p>>
    ensures step { IfOk result (IsStep token.now) }
    ensures refused { IfErr result (RefusesPath text.now []) }
{
    if !is_array(alloc, text, outer)? {
        return Ok(Step::Key(token));
    }
    match index_of(token) {
        Some(index) => Ok(Step::Index(index)),
        None => Ok(Step::Key(token)),
    }
}

/// Whether the steps lead to an array.
pub(crate) fn is_array(alloc: Global, text: &str, steps: &[Step<'_>]) -> Result<bool>
    ensures { IfErr result (RefusesPath text.now []) }
{
    match find_place(alloc, text, steps) {
        Ok(Some(place)) => Ok(text.as_bytes().get(place.start) == Some(&b'[')),
        Ok(None) => Ok(false),
        Err(error) => Err(EditError::of_text(error)),
    }
}

/// Whether the steps lead to an object.
pub(crate) fn is_object(alloc: Global, text: &str, steps: &[Step<'_>]) -> Result<bool>
    ensures { IfOk result (λ is_object. LeadsToObject is_object text.now steps.now) }
{
    let part = part_at(alloc, text, steps)?;
    match read_document(alloc, part) {
        Ok(value) => Ok(value.as_object().is_some()),
        Err(_) => Err(EditError::NoMemory),
    }
}

/// The steps and one more.
pub(crate) fn further<'s>(
    alloc: Global,
    steps: &[Step<'s>],
    step: Step<'s>,
) -> Result<Vec<Step<'s>>, AllocError>
    ensures { IfOk result (λ path. path.items ≡ steps.now ++ step.entry ∷ []) }
{
    let mut path = Vec::new(alloc);
    for outer in steps {
        push_step(&mut path, *outer)?;
    }
    push_step(&mut path, step)?;
    Ok(path)
}

/// The index that is written so, if it is one.
fn index_of(token: &str) -> Option<usize>
    ensures { result ≡ index_in token.now }
{
    if !begins_index(token.as_bytes()) {
        return None;
    }
    token.parse().ok()
}

/// Whether it is `0` alone, or begins with a digit from 1 to 9.
fn begins_index(token: &[u8]) -> bool
    ensures { result ≡ begins_index token.now }
{
    match token.first() {
        Some(b'0') => token.len() == 1,
        Some(first) => matches!(first, b'1'..=b'9'),
        None => false,
    }
}
