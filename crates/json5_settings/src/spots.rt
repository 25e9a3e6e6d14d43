//! Where a fault is, as a way through the document.

ghost use Rattle.std.specs.Prelude.{IfErr, IfOk};
ghost use Rattle.json5_edit.specs.PathTexts.{AreStepsOf};
ghost use Rattle.json5_edit.specs.Refusals.{RefusesText};

use json5_edit::{EditError, Path, Step, find};
use json5_read::brackets::BracketKind;
use json5_types::ErrorCode;
use json5_types::error::{Error, Result};
use json5_types::nesting::Limit;
use json5_walk::entry::EntryKey;
use json5_walk::walk::Walk;
use std::alloc::{AllocError, Global};

/// A step that owns its key.
#[derive(Drop)]
pub(crate) enum OwnedStep {
    Key(String),
    Index(usize),
}

/// The innermost value that a fault is in, or the member at whose key it is.
#[derive(Drop)]
pub(crate) struct Spot {
    pub(crate) steps: Vec<OwnedStep>,
    pub(crate) at_key: bool,
    /// Where its entry begins, and where that ends with its comma; those of the text where it is in no entry.
    pub(crate) from: usize,
    pub(crate) till: usize,
}

/// An entry around an offset, where its value stands, and where its comma ends.
#[derive(Drop)]
struct Around {
    step: OwnedStep,
    start: usize,
    value: usize,
    end: usize,
    till: usize,
}

impl Spot {
    /// The text itself, in no entry.
    pub(crate) fn whole(alloc: Global, text: &str) -> Spot {
        Spot {
            steps: Vec::new(alloc),
            at_key: false,
            from: 0,
            till: text.len(),
        }
    }

    /// The spot of an offset in a document; None in another text.
    pub(crate) fn of(
        alloc: Global,
        text: &str,
        offset: usize,
    ) -> std::result::Result<Option<Spot>, AllocError> {
        match Spot::in_document(alloc, text, offset) {
            Ok(spot) => Ok(Some(spot)),
            Err(error) if error.code() == Some(ErrorCode::OutOfMemory) => Err(AllocError),
            Err(_) => Ok(None),
        }
    }

    fn in_document(alloc: Global, text: &str, offset: usize) -> Result<Spot> {
        let mut spot = Spot::whole(alloc, text);
        let mut value = 0usize;
        let mut end = text.len();
        for _ in 0..128 {
            let part = text.get(value..end).unwrap_or("");
            let Some(around) = entry_around(alloc, part, offset.saturating_sub(value))? else {
                break;
            };
            spot.from = value.saturating_add(around.start);
            spot.till = value.saturating_add(around.till);
            end = value.saturating_add(around.end);
            value = value.saturating_add(around.value);
            spot.steps.push(around.step)?;
            if offset < value {
                spot.at_key = true;
                break;
            }
        }
        Ok(spot)
    }

    /// The steps to the value, or to that of the member.
    pub(crate) fn steps(&self, alloc: Global) -> std::result::Result<Vec<Step<'_>>, AllocError> {
        let mut steps = Vec::new(alloc);
        for step in &self.steps {
            steps.push(match step {
                OwnedStep::Key(key) => Step::Key(key.as_str()),
                OwnedStep::Index(index) => Step::Index(*index),
            })?;
        }
        Ok(steps)
    }
}

/// Where the key of the last step begins, of equal ones the last.
pub(crate) fn key_start(alloc: Global, text: &str, steps: &[Step<'_>]) -> Result<Option<usize>> {
    let Some((Step::Key(key), outer)) = steps.split_last() else {
        return Ok(None);
    };
    let Some(place) = find(alloc, text, outer)? else {
        return Ok(None);
    };
    let part = text.get(place.start..place.end).unwrap_or("");
    match key_place(alloc, part, key)? {
        Some(offset) => Ok(Some(place.start.saturating_add(offset))),
        None => Ok(None),
    }
}

/// The steps of a path in a document.
pub(crate) fn steps_of<'p>(alloc: Global, path: &'p Path, text: &str) -> Result<Vec<Step<'p>>>
    ensures steps { IfOk result (λ steps. AreStepsOf text.now path.now.written.items steps.items) }
    ensures refused { IfErr result (RefusesText text.now) }
{
    match path.steps_in(alloc, text) {
        Ok(steps) => Ok(steps),
        Err(EditError::Text(error)) => Err(error),
        Err(_) => Err(Error::new(ErrorCode::OutOfMemory)),
    }
}

/// The entry of a collection that the offset is in, at its key or in its value.
fn entry_around(alloc: Global, text: &str, offset: usize) -> Result<Option<Around>> {
    let mut walk = Walk::new(alloc, text, Limit::full());
    walk.gap()?;
    let is_object = walk.open(BracketKind::Object);
    if !is_object && !walk.open(BracketKind::Array) {
        return Ok(None);
    }
    for index in 0..text.len() {
        let Some(
            EntryKey {
                text: key,
                start,
                ..
            },
        ) = walk.entry()?
        else {
            break;
        };
        let value = walk.offset();
        walk.skip()?;
        let end = walk.offset();
        if start <= offset && offset < end {
            let step = if is_object {
                OwnedStep::Key(String::from_str(alloc, key.as_str())?)
            } else {
                OwnedStep::Index(index)
            };
            return Ok(Some(Around {
                step,
                start,
                value,
                end,
                till: comma_end(&mut walk, end)?,
            }));
        }
    }
    Ok(None)
}

/// Where the comma after an entry ends, or the entry if none follows.
fn comma_end(walk: &mut Walk<'_>, end: usize) -> Result<usize> {
    walk.gap()?;
    if walk.comma() {
        return Ok(walk.offset());
    }
    Ok(end)
}

/// Where the last member with a key begins in an object.
fn key_place(alloc: Global, text: &str, wanted: &str) -> Result<Option<usize>> {
    let mut walk = Walk::new(alloc, text, Limit::full());
    let mut found = None;
    if !walk.open(BracketKind::Object) {
        return Ok(None);
    }
    for _ in 0..text.len() {
        let Some(
            EntryKey {
                text: key,
                start,
                ..
            },
        ) = walk.entry()?
        else {
            break;
        };
        if key.as_str() == wanted {
            found = Some(start);
        }
        walk.skip()?;
    }
    Ok(found)
}
