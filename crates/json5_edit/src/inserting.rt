//! Adds a member before others.

ghost use Rattle.std.specs.Prelude.{IfOk, IfErr, string_bytes};
ghost use Rattle.json5_edit.specs.Changes.{InsertsBefore};
ghost use Rattle.json5_edit.specs.Refusals.{RefusesBefore, RefusesStart};
ghost use Rattle.json5_edit.specs.Spots.{AddsMember, IsObject, MayComeBefore, MayComeThere, PutsMember, PutsThere, StartsBefore};
ghost use Rattle.json5_types.specs.Errors.{LacksMemory};
ghost use Rattle.json5_edit.specs.declared.paths.Before.TheVariants as before_place;

use crate::as_plain::check_as_plain;
use crate::changing::{check_entry, check_fits, collection, inserted, part_text};
use crate::comparing::check_inserted;
use crate::entries::failed;
use crate::faults::{Result, Unmade, lack};
use crate::paths::{Before, Step};
use crate::pieces::grown;
use crate::plain::{End, entry_found, free_end, with_member_before};
use crate::setting::{place_of, splice};
use crate::survey::limit_of;
use json5_edit_style::{Collection, Names, Which, member_growth_before};
use json5_read::brackets::BracketKind;
use json5_types::error;
use json5_types::nesting::Limit;
use json5_walk::walk::Walk;
use std::alloc::{AllocError, Global};

/// Returns the text with one more member of the object that the path leads to, before another or before all: this key,
/// and `value`, a JSON5 value without blanks or comments around it. It stands on a line of its own if the member after
/// it does, indented like it, before the comments that belong to that. The key is spelled as by [`insert_in`], which also
/// says what `names` are for.
///
/// [`insert_in`]: crate::changing::insert_in
///
/// ```text
/// insert_before(alloc, "{ port: 80 }", &[], Before::First, "host", "'a'", Names::Quoted)?    // { host: 'a', port: 80 }
/// ```
///
/// # Errors
///
/// As [`insert_in`]; and `Nowhere`, if the object has no member with the key of the other.
pub fn insert_before(
    alloc: Global,
    text: &str,
    path: &[Step<'_>],
    before: Before<'_>,
    key: &str,
    value: &str,
    names: Names,
) -> Result<String>
    ensures inserted { IfOk result (λ made. InsertsBefore before.entry names text.now path.now key.now value.now (string_bytes made)) }
    ensures refused { IfErr result (RefusesBefore before.entry text.now path.now key.now value.now) }
{
    let place = place_of(alloc, text, path)?;
    let room = limit_of(place);
    let old = part_text(text, place);
    let end = free_end(alloc, old, key, room)?;
    check_entry(alloc, value, room)?;
    let start = start_before(alloc, old, before, room)?;
    let mut collection = collection(text, place);
    collection.names = names;
    let new = put_there(
        alloc,
        &collection,
        old,
        before,
        start,
        end,
        key,
        value,
        room,
    )?;
    splice(alloc, text, place, new.as_str())
}

/// Where the member begins before which another goes; None in an object without members.
fn start_before(alloc: Global, old: &str, before: Before<'_>, room: Limit) -> Result<Option<usize>>
    requires { IsObject room old.now }
    ensures found { IfOk result (StartsBefore before.entry room old.now) }
    ensures refused { IfErr result (RefusesStart before.entry old.now) }
{
    match before {
        Before::First => match first_start(alloc, old, room) {
            Ok(start) => Ok(start),
            Err(error) => Err(lack(error).into()),
        },
        Before::Key(next) => match entry_found(alloc, old, Step::Key(next), room) {
            Ok(found) => Ok(Some(found.start)),
            Err(error) => Err(error),
        },
    }
}

/// Where the first member begins, if there is one.
fn first_start(alloc: Global, old: &str, room: Limit) -> error::Result<Option<usize>>
    requires { IsObject room old.now }
    ensures found { IfOk result (StartsBefore before_place.First room old.now) }
    ensures refused { IfErr result LacksMemory }
{
    let mut walk = Walk::new(alloc, old, room);
    if !walk.open(BracketKind::Object) {
        return Err(failed());
    }
    let Some(key) = walk.entry()? else {
        return Ok(None);
    };
    let start = key.start;
    walk.skip()?;
    Ok(Some(start))
}

/// The object with one more member, before that which begins at the offset, or its first one.
fn put_there(
    alloc: Global,
    collection: &Collection<'_>,
    old: &str,
    before: Before<'_>,
    start: Option<usize>,
    end: End,
    key: &str,
    value: &str,
    room: Limit,
) -> Result<String, AllocError>
    requires { MayComeThere before room collection.now old.now start end value.now }
    ensures { PutsThere before.entry key.now value.now room collection.now old.now result }
{
    match start {
        Some(start) => put_before(alloc, collection, old, before, start, key, value, room),
        None => inserted(alloc, collection, old, end, key, value, room),
    }
}

/// The object with one more member before that which begins at the offset: with its lines and comments, if that reads so,
/// or else right before it.
fn put_before(
    alloc: Global,
    collection: &Collection<'_>,
    old: &str,
    before: Before<'_>,
    start: usize,
    key: &str,
    value: &str,
    room: Limit,
) -> Result<String, AllocError>
    requires { MayComeBefore before room collection.now.document.now old.now start value.now }
    ensures { PutsMember before.entry key.now value.now room collection.now.document.now old.now result }
{
    match put_by_lines(alloc, collection, old, before, key, value, room) {
        Ok(new) => Ok(new),
        Err(Unmade::NoMemory) => Err(AllocError),
        Err(Unmade::Failed) => with_member_before(alloc, old, before, start, key, value, room),
    }
}

/// The object with one more member there, with its lines and comments.
fn put_by_lines(
    alloc: Global,
    collection: &Collection<'_>,
    old: &str,
    before: Before<'_>,
    key: &str,
    value: &str,
    room: Limit,
) -> Result<String, Unmade>
    ensures { IfOk result (λ new. AddsMember before.entry key.now value.now room collection.now.document.now old.now (string_bytes new)) }
{
    let growth = member_growth_before(alloc, collection, which(before), key)?;
    let new = grown(alloc, old, &growth, None, BracketKind::Object, value)?;
    let text = new.as_str();
    check_inserted(alloc, old, text, before, growth.count, key, value)?;
    check_as_plain(Names::Quoted, collection.document, value, text)?;
    check_fits(alloc, text, room)?;
    Ok(new)
}

/// The member after the new one, in the layout's words.
fn which(before: Before<'_>) -> Which<'_> {
    match before {
        Before::First => Which::Index(0),
        Before::Key(next) => Which::Key(next),
    }
}
