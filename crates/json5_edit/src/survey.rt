//! Where an entry stands in a collection, and where one more may stand.

ghost use Rattle.std.specs.Prelude.{◌≡◌, ◌≤◌, false, IfOk, IfErr, MatchOption};
ghost use Rattle.std.specs.Str.{chars};
ghost use Rattle.json5_grammar.specs.Language.Documents.{max_depth};
ghost use Rattle.json5_types.specs.Errors.{LacksMemory};
ghost use Rattle.json5_edit.specs.Comparing.{step_kind};
ghost use Rattle.json5_edit.specs.Entries.{empty_of};
ghost use Rattle.json5_edit.specs.Places.{Fits, IsValue};
ghost use Rattle.json5_edit.specs.Refusals.{BeginsNo};
ghost use Rattle.json5_edit.specs.Spots.{Inside, Surveys, latest};

use crate::comparing::kind;
use crate::entries::failed;
use crate::faults::lack;
use crate::paths::Step;
use crate::places::is_sought;
use json5_types::error::Result;
use json5_types::nesting::Limit;
use json5_walk::place::Place;
use json5_walk::walk::Walk;
use std::alloc::{AllocError, Global};

/// Where an entry begins, and where the value of the entry before it ends, if there is one.
#[derive(Clone, Copy, Drop)]
pub(crate) struct Found {
    pub(crate) start: usize,
    pub(crate) before: Option<usize>,
}

/// The entry that a step goes to, if there is one, and where one more entry may stand at the end, with a comma before it
/// or without.
#[derive(Clone, Copy, Drop)]
pub(crate) struct Survey {
    pub(crate) entry: Option<Found>,
    pub(crate) end: usize,
    pub(crate) comma: bool,
}

/// Looks for the entry of a collection that the step goes to. Returns None where the text begins no collection of that
/// kind.
pub(crate) fn find_entry(
    alloc: Global,
    old: &str,
    step: Step<'_>,
    room: Limit,
) -> std::result::Result<Option<Survey>, AllocError>
    requires { Fits room old.now }
    ensures { IfOk result (λ found. MatchOption found (BeginsNo (step_kind step.entry) (chars old.now)) (Surveys step.entry room old.now)) }
{
    let mut walk = Walk::new(alloc, old, room);
    if !walk.open(kind(step)) {
        return Ok(None);
    }
    match survey_entries(&mut walk, step) {
        Ok(found) => Ok(Some(found)),
        Err(error) => Err(lack(error)),
    }
}

/// Passes over the rest of the collection, which was just opened.
fn survey_entries(walk: &mut Walk<'_>, step: Step<'_>) -> Result<Survey>
    requires inside { Inside walk.old.limit walk.old.text (empty_of (step_kind step)) false walk.old }
    requires value { IsValue walk.old.limit (chars walk.old.text) }
    ensures surveyed { IfOk result (Surveys step.entry walk.old.limit walk.old.text) }
    ensures refused { IfErr result LacksMemory }
{
    let mut entry = None;
    let mut before = None;
    let mut end = walk.offset();
    for count in 0..walk.text().len() {
        let Some(key) = walk.entry()? else {
            return Ok(Survey {
                entry,
                end,
                comma: before.is_some(),
            });
        };
        let same = is_sought(step, count, key.text.as_str());
        let start = key.start;
        entry = latest(same, Found { start, before }, entry);
        walk.skip()?;
        end = walk.offset();
        before = Some(end);
    }
    Err(failed())
}

/// This entry, if it is the one that was sought, or the one found before.
fn latest(same: bool, now: Found, before: Option<Found>) -> Option<Found>
    ensures { result ≡ latest same now before }
{
    if same { Some(now) } else { before }
}

/// The limit with the room of the place.
pub(crate) fn limit_of(place: Place) -> Limit
    requires { place.room ≤ max_depth }
    ensures { result ≡ place.room }
{
    match Limit::new(place.room as u8) {
        Some(limit) => limit,
        None => unreachable!(),
    }
}
