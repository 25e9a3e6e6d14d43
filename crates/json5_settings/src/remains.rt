//! What is left of a text when the entries at faults are passed over, and the faults that are told.

ghost use Rattle.std.specs.Prelude.{◌≡◌, [], true, IfOk, MatchResult, OnOk, string_bytes};
ghost use Rattle.json5_types.specs.Errors.{LacksMemory};
ghost use Rattle.json5_settings.specs.AllFaults.{Passes, TellsIfNew};

use crate::blanks::left_without;
use crate::positions::position_of;
use crate::spots::{OwnedStep, Spot};
use json5_tokens::InText;
use json5_types::error::{Error, Result};
use json5_types::{ErrorCode, Position};
use std::alloc::{AllocError, Global};

/// An entry that was passed over: where it begins, and the step to it.
#[derive(Drop)]
struct Passed {
    begins: Position,
    step: OwnedStep,
}

/// What is left of a text, and the faults that were told of it.
#[derive(Drop)]
pub(crate) struct Remains {
    pub(crate) text: String,
    pub(crate) told: Vec<Error>,
    passed: Vec<Passed>,
}

impl Remains {
    /// The whole text.
    pub(crate) fn of(alloc: Global, text: &str) -> std::result::Result<Remains, AllocError>
        ensures { IfOk result (λ r. (string_bytes r.text ≡ text.now) × (r.told.items ≡ [])) }
    {
        Ok(Remains {
            text: String::from_str(alloc, text)?,
            told: Vec::new(alloc),
            passed: Vec::new(alloc),
        })
    }

    /// Tells the fault, unless it comes of an entry that was passed over, and passes over the entry that it is in. Says
    /// whether there is one.
    pub(crate) fn pass(&mut self, alloc: Global, fault: Error) -> Result<bool>
        ensures { MatchResult result (λ goes_on. Passes fault goes_on self.old self.new) LacksMemory }
    {
        if fault.code() == Some(ErrorCode::OutOfMemory) {
            return Err(Error::new(ErrorCode::OutOfMemory));
        }
        let spot = spot_of(alloc, self.text.as_str(), &fault)?;
        let left = left_without(alloc, self.text.as_str(), &fault, &spot)?;
        self.tell(fault, &spot)?;
        let Some(left) = left else {
            return Ok(false);
        };
        note(self.text.as_str(), &mut self.passed, spot)?;
        self.text = left;
        Ok(true)
    }

    /// Tells the fault, unless it comes of an entry that was passed over.
    fn tell(&mut self, fault: Error, spot: &Spot) -> std::result::Result<(), AllocError>
        ensures told { OnOk result (TellsIfNew fault self.old.told.items self.new.told.items) }
        ensures text { self.new.text ≡ self.old.text }
    {
        if self.is_new(&fault, spot) {
            self.told.push(fault)?;
        }
        Ok(())
    }

    /// Whether the fault comes of no entry that was passed over.
    fn is_new(&self, fault: &Error, spot: &Spot) -> bool
        ensures { self.now.told.items ≡ [] → result ≡ true }
    {
        if self.told.is_empty() {
            return true;
        }
        let begins = position_of(self.text.as_str(), spot.from);
        let ends = position_of(self.text.as_str(), spot.till);
        let lacking = missing_name(fault.message());
        for passed in &self.passed {
            if is_among(passed.begins, begins, ends) && is_lacking(lacking, &passed.step) {
                return false;
            }
        }
        true
    }
}

/// Notes an entry of the text as passed over.
fn note(text: &str, passed: &mut Vec<Passed>, spot: Spot) -> std::result::Result<(), AllocError> {
    let begins = position_of(text, spot.from);
    let Spot { mut steps, .. } = spot;
    if let Some(step) = steps.pop() {
        passed.push(Passed { begins, step })?;
    }
    Ok(())
}

/// The entry that the fault is in; the text where it is in none.
fn spot_of(alloc: Global, text: &str, fault: &Error) -> std::result::Result<Spot, AllocError> {
    let Some(position) = fault.position() else {
        return Ok(Spot::whole(alloc, text));
    };
    let Some(offset) = position.offset_in(text) else {
        return Ok(Spot::whole(alloc, text));
    };
    match Spot::of(alloc, text, offset)? {
        Some(spot) => Ok(spot),
        None => Ok(Spot::whole(alloc, text)),
    }
}

/// The name of the field that is missing, if the message says so.
fn missing_name(message: &str) -> Option<&str> {
    message.strip_prefix("missing field `")?.strip_suffix("`")
}

/// Whether what is lacking is no other field than that of the step.
fn is_lacking(lacking: Option<&str>, step: &OwnedStep) -> bool {
    match (lacking, step) {
        (Some(name), OwnedStep::Key(key)) => name == key.as_str(),
        _ => true,
    }
}

/// Whether the position is one from the first on, and before the last.
fn is_among(position: Position, first: Position, last: Position) -> bool {
    !is_before(position, first) && is_before(position, last)
}

fn is_before(position: Position, other: Position) -> bool {
    position.line < other.line || (position.line == other.line && position.column < other.column)
}
