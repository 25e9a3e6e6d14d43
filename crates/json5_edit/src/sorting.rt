//! Sorts the members of an object.

ghost use Rattle.std.specs.Prelude.{IfOk, OnOk, string_bytes};
ghost use Rattle.json5_edit.specs.Changes.{ChangesBy, Edits};
ghost use Rattle.json5_edit.specs.Refusals.{RefusesSort};
ghost use Rattle.json5_edit.specs.Sorted.{AreInOrder, HasMembersSorted, IsOrdered, ListsMembers, PassesAll, Sorts};
ghost use Rattle.json5_lexemes.specs.Plain.{KeepsPlain};

use crate::changing::{begins, check_fits, check_plain, part_text};
use crate::comparing::{is_same, some_entry};
use crate::entries::{Entry, failed, next_entry};
use crate::faults::{EditError, Result, Unmade};
use crate::moving::{pieces_of, rearranged};
use crate::paths::Step;
use crate::setting::{place_of, splice};
use crate::survey::limit_of;
use json5_edit_style::line_end;
use json5_read::brackets::BracketKind;
use json5_types::error;
use json5_types::nesting::Limit;
use json5_walk::walk::Walk;
use std::alloc::Global;

/// Returns the text with the members of the object that the path leads to in the order of their keys: by the code points
/// of their characters, and equal keys as they stood. With a member go the comments that [`remove`](crate::remove) takes
/// along: those on its line and on the lines right before it. Any other, as a heading with an empty line below it or a
/// switched-off entry, stays where it is, and so do empty lines and commas. A text that is JSON, or JSON but for
/// comments, stays so.
///
/// ```text
/// sort(alloc, "{ port: 80, /* name */ host: 'a' }", &[])?    // { /* name */ host: 'a', port: 80 }
/// ```
///
/// # Errors
///
/// - `Text` with the fault of reading, if the text is no document.
/// - `Nowhere`, if the path leads nowhere; `NotObject`, if it leads to another value than an object.
/// - `NoMemory` where there is no memory for the text, for its members, or for a key with an escape.
pub fn sort(alloc: Global, text: &str, path: &[Step<'_>]) -> Result<String>
    ensures { Edits (KeepsPlain text.now) (IsOrdered text.now path.now) (RefusesSort text.now path.now) result }
{
    let place = place_of(alloc, text, path)?;
    let room = limit_of(place);
    let old = part_text(text, place);
    if !begins(alloc, old, BracketKind::Object) {
        return Err(EditError::NotObject);
    }
    let new = sorted(alloc, old, line_end(text), room)?;
    splice(alloc, text, place, new.as_str())
}

/// The object with its members in order.
fn sorted(alloc: Global, old: &str, line_end: &str, room: Limit) -> Result<String, Unmade>
    ensures { IfOk result (λ new. Sorts room old.now (string_bytes new)) }
{
    let new = sorted_by_lines(alloc, old, line_end)?;
    check_plain(old, new.as_str())?;
    check_fits(alloc, new.as_str(), room)?;
    Ok(new)
}

/// The object with its members in order, each with its comments, if it reads so.
fn sorted_by_lines(alloc: Global, old: &str, line_end: &str) -> error::Result<String>
    ensures { IfOk result (λ new. ChangesBy HasMembersSorted old.now (string_bytes new)) }
{
    let mut members = members_of(alloc, old)?;
    let places = pieces_of(alloc, old, members.as_slice())?;
    put_in_order(&mut members)?;
    let new = rearranged(alloc, old, line_end, places.as_slice(), members.as_slice())?;
    check_members(alloc, new.as_str(), members.as_slice())?;
    Ok(new)
}

/// The members of an object, in order.
fn members_of(alloc: Global, text: &str) -> error::Result<Vec<Entry<'_>>>
    ensures { IfOk result (λ members. ListsMembers text.now members.items) }
{
    let mut walk = Walk::new(alloc, text, Limit::full());
    if !walk.open(BracketKind::Object) {
        return Err(failed());
    }
    let members = rest_of(alloc, &mut walk)?;
    walk.finish()?;
    Ok(members)
}

/// Refuses what isn't an object with these members, in this order.
fn check_members(alloc: Global, text: &str, members: &[Entry<'_>]) -> error::Result<()>
    ensures { OnOk result (ListsMembers text.now members.now) }
{
    let mut walk = Walk::new(alloc, text, Limit::full());
    if !walk.open(BracketKind::Object) {
        return Err(failed());
    }
    pass_all(&mut walk, members)?;
    walk.finish()
}

/// Passes over the entries that are left, and over the closing bracket.
fn rest_of<'t>(alloc: Global, walk: &mut Walk<'t>) -> error::Result<Vec<Entry<'t>>>
    ensures { IfOk result (λ entries. PassesAll entries.items walk.old walk.new) }
{
    let mut entries = Vec::new(alloc);
    for _ in 0..walk.text().len() {
        let Some(entry) = next_entry(walk)? else {
            return Ok(entries);
        };
        entries.push(entry)?;
    }
    Err(failed())
}

/// Passes over entries with these keys and these texts of their values, which must be all that are left, and over the
/// closing bracket.
fn pass_all(walk: &mut Walk<'_>, entries: &[Entry<'_>]) -> error::Result<()>
    ensures { OnOk result (PassesAll entries.now walk.old walk.new) }
{
    for entry in entries {
        let other = some_entry(walk)?;
        if !is_same(entry, &other) {
            return Err(failed());
        }
    }
    let Some(_) = next_entry(walk)? else {
        return Ok(());
    };
    Err(failed())
}

/// Sorts entries by their keys.
fn put_in_order(entries: &mut Vec<Entry<'_>>) -> error::Result<()>
    ensures { OnOk result (AreInOrder entries.old.items entries.new.items) }
{
    entries.sort_by(|one, other| one.key.cmp(&other.key))?;
    Ok(())
}
