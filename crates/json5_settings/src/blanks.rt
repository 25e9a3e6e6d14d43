//! A text in which an entry is blank.

ghost use Rattle.std.specs.Prelude.{◌≡◌, IfOk, IfSome, IsTrue, string_bytes};
ghost use Rattle.std.specs.Str.{chars};
ghost use Rattle.json5_edit.specs.Changes.{IsRemoved};
ghost use Rattle.json5_edit.specs.declared.paths.Step.{Step};
ghost use Rattle.json5_settings.specs.AllFaults.{IsBlanked, MeanTheSame, StandsWithin, TakesOut, blank};

use crate::members::is_refused;
use crate::rewriting::means;
use crate::spots::Spot;
use json5_edit::{EditError, remove};
use json5_read::read_document;
use json5_tokens::InText;
use json5_tokens::char::is_json5_line_terminator;
use json5_types::error::Error;
use std::alloc::{AllocError, Global};

/// The text in which the entry is blank that the fault is in; None where it is in none.
pub(crate) fn left_without(
    alloc: Global,
    text: &str,
    fault: &Error,
    spot: &Spot,
) -> Result<Option<String>, AllocError>
    ensures { IfOk result (λ left. IfSome left (λ s. TakesOut fault.now text.now (string_bytes s))) }
{
    if spot.steps.is_empty() || !stands_within(text, fault, spot.from, spot.till) {
        return Ok(None);
    }
    let Some(made) = blanked(alloc, text, spot.from, spot.till)? else {
        return Ok(None);
    };
    let Some(left) = removed(alloc, text, spot)? else {
        return Ok(None);
    };
    if mean_the_same(alloc, left.as_str(), made.as_str())? {
        return Ok(Some(made));
    }
    Ok(None)
}

/// Whether the fault stands between the offsets.
fn stands_within(text: &str, fault: &Error, from: usize, till: usize) -> bool
    ensures { IsTrue result → StandsWithin fault.now text.now from till }
{
    let Some(position) = fault.position() else {
        return false;
    };
    match position.offset_in(text) {
        Some(offset) => from <= offset && offset < till,
        None => false,
    }
}

/// The text in which the part between the offsets is blank; None where one of them is in a character.
fn blanked(
    alloc: Global,
    text: &str,
    from: usize,
    till: usize,
) -> Result<Option<String>, AllocError>
    ensures { IfOk result (λ made. IfSome made (λ s. IsBlanked text.now from till (string_bytes s))) }
{
    let (Some(front), Some(part), Some(rest)) = (
        text.get(..from),
        text.get(from..till),
        text.get(till..),
    ) else {
        return Ok(None);
    };
    let mut made = String::from_str(alloc, front)?;
    for c in part.chars() {
        made.push(blank(c))?;
    }
    made.push_str(rest)?;
    Ok(Some(made))
}

/// A space for the character; a line end stays.
fn blank(c: char) -> char
    ensures { result ≡ blank c }
{
    if is_json5_line_terminator(c) { c } else { ' ' }
}

/// The text without the entry; None where it can't be removed.
fn removed(alloc: Global, text: &str, spot: &Spot) -> Result<Option<String>, AllocError>
    ensures { IfOk result (λ left. IfSome left (λ s. (path : _) × IsRemoved text.now path (string_bytes s))) }
{
    let steps = spot.steps(alloc)?;
    match remove(alloc, text, steps.as_slice()) {
        Ok(left) => Ok(Some(left)),
        Err(EditError::NoMemory) => Err(AllocError),
        Err(_error) => Ok(None),
    }
}

/// Whether both texts are documents that mean the same.
fn mean_the_same(alloc: Global, text: &str, other: &str) -> Result<bool, AllocError>
    ensures { IfOk result (λ is. IsTrue is → MeanTheSame (chars text.now) (chars other.now)) }
{
    match read_document(alloc, text) {
        Ok(value) => means(alloc, other, &value),
        Err(error) => is_refused(error),
    }
}
