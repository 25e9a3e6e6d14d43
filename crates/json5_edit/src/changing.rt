//! Adds, removes and renames the entries of a collection.

ghost use Rattle.std.specs.Prelude.{◌≡◌, ◌-◌, ℕ, List, [], false, IfOk, IfErr, OnOk, string_bytes};
ghost use Rattle.json5_edit.specs.Changes.{Edits, GainsAt, Inserts, IsRemoved, IsRemovedAlone, RemovesWith, IsPushed, IsPutIn, IsRekeyed};
ghost use Rattle.json5_edit.specs.Places.{IsPart, IsValue};
ghost use Rattle.json5_edit.specs.Refusals.{RefusesRemove, RefusesPush, RefusesPutIn, RefusesRename, RefusesValue, BeginsNo};
ghost use Rattle.json5_edit.specs.Spots.{Adds, AddsLast, EndTokens, HasEnd, HasEntry, HasFound, MayComeLast, Removes, due_at};
ghost use Rattle.json5_edit.specs.declared.paths.Step.TheVariants as step;
ghost use Rattle.json5_edit_style.specs.declared.habits.Names.TheVariants as layout_names;
ghost use Rattle.json5_lexemes.specs.Plain.{KeepsPlain, StaysPlain};
ghost use Rattle.json5_read.specs.declared.brackets.BracketKind.TheVariants as kind;
ghost use Rattle.std.specs.Str.{chars, encode_utf8_all};

use crate::as_plain::check_as_plain;
use crate::belongings::Lead;
use crate::comparing::{check_added, check_put_in, check_removed, kind};
use crate::faults::{EditError, Result, Unmade};
use crate::paths::Step;
use crate::pieces::{cut, grown};
use crate::plain::{End, array_end, entry_found, free_end, join_four, with_last, without_entry};
use crate::renaming::renamed;
use crate::setting::{check_value, join, place_of, splice};
use crate::spelled::json_key;
use crate::survey::{Found, limit_of};
use json5_edit_style::{
    Added, Collection, Cut, Names, Which, cut_alone_for, cut_for, growth_before, growth_for,
};
use json5_lexemes::keeps_plain;
use json5_read::brackets::BracketKind;
use json5_tokens::scanner::Scanner;
use json5_types::nesting::Limit;
use json5_walk::place::Place;
use std::alloc::{AllocError, Global};

/// Returns the text without the element or the member that the path leads to: without its comma, the comments that
/// belong to it, and its line, if it has one to itself. A comment belongs to it that stands after it on its line, or
/// on the lines right before it. No other comment goes but those within the entry. A text that is JSON, or JSON but for
/// comments, stays so.
///
/// ```text
/// remove(alloc, "{ host: 'a', /* web */ port: 80 }", &[Step::Key("port")])?    // { host: 'a' }
/// ```
///
/// # Errors
///
/// - `Text` with the fault of reading, if the text is no document.
/// - `Nowhere`, if the path leads nowhere or has no step.
/// - `NoMemory` where there is no memory for the text, or for a key with an escape.
pub fn remove(alloc: Global, text: &str, path: &[Step<'_>]) -> Result<String>
    ensures { Edits (KeepsPlain text.now) (IsRemoved text.now path.now) (RefusesRemove text.now path.now) result }
{
    removed_with(alloc, text, path, Lead::Goes)
}

/// Returns the text without the element or the member that the path leads to, as [`remove`], where the comments before it
/// stay. Those after it on its line go.
///
/// ```text
/// remove_alone(alloc, "{ host: 'a', /* web */ port: 80 }", &[Step::Key("port")])?    // { host: 'a' /* web */ }
/// ```
///
/// # Errors
///
/// As [`remove`].
pub fn remove_alone(alloc: Global, text: &str, path: &[Step<'_>]) -> Result<String>
    ensures { Edits (KeepsPlain text.now) (IsRemovedAlone text.now path.now) (RefusesRemove text.now path.now) result }
{
    removed_with(alloc, text, path, Lead::Stays)
}

/// The text without the entry that the path leads to.
fn removed_with(alloc: Global, text: &str, path: &[Step<'_>], leads: Lead) -> Result<String>
    ensures { Edits (KeepsPlain text.now) (RemovesWith leads text.now path.now) (RefusesRemove text.now path.now) result }
{
    let Some((step, outer)) = path.split_last() else {
        return Err(EditError::Nowhere);
    };
    let place = place_of(alloc, text, outer)?;
    let room = limit_of(place);
    let old = part_text(text, place);
    let found = entry_found(alloc, old, *step, room)?;
    let new = removed(alloc, old, *step, found, leads, room)?;
    splice(alloc, text, place, new.as_str())
}

/// Returns the text with one more element at the end of the array that the path leads to: `value`, a JSON5 value
/// without blanks or comments around it. It stands on a line of its own if the element before it does, indented like
/// it, and has a comma after it if that had one. A text that is JSON, or JSON but for comments, stays so if the value
/// is.
///
/// ```text
/// push(alloc, "{ ports: [80] }", &[Step::Key("ports")], "443")?    // { ports: [80, 443] }
/// ```
///
/// # Errors
///
/// - `Text` with the fault of reading, if the text is no document.
/// - `Nowhere`, if the path leads nowhere; `NotArray`, if it leads to another value than an array.
/// - `Value` with the fault of reading, if `value` is no value or is nested too deep for its place.
/// - `NoMemory` where there is no memory for the text, or for a key with an escape.
pub fn push(alloc: Global, text: &str, path: &[Step<'_>], value: &str) -> Result<String>
    ensures { Edits (StaysPlain text.now value.now) (IsPushed text.now path.now value.now) (RefusesPush text.now path.now value.now) result }
{
    let place = place_of(alloc, text, path)?;
    let room = limit_of(place);
    let old = part_text(text, place);
    let end = array_end(alloc, old, room)?;
    check_entry(alloc, value, room)?;
    let collection = collection(text, place);
    let new = pushed(alloc, &collection, old, end, value, room)?;
    splice(alloc, text, place, new.as_str())
}

/// Returns the text with one more element of the array that the path leads to, before that with this index: `value`, a
/// JSON5 value without blanks or comments around it. It stands on a line of its own if that element does, indented like
/// it, before the comments that belong to it. A text that is JSON, or JSON but for comments, stays so if the value is.
///
/// ```text
/// insert_element(alloc, "{ ports: [443] }", &[Step::Key("ports")], 0, "80")?    // { ports: [80, 443] }
/// ```
///
/// # Errors
///
/// - `Text` with the fault of reading, if the text is no document.
/// - `Nowhere`, if the path leads nowhere, or the array has no element with this index.
/// - `NotArray`, if the path leads to another value than an array.
/// - `Value` with the fault of reading, if `value` is no value or is nested too deep for its place.
/// - `NoMemory` where there is no memory for the text, or for a key with an escape.
pub fn insert_element(
    alloc: Global,
    text: &str,
    path: &[Step<'_>],
    index: usize,
    value: &str,
) -> Result<String>
    ensures { Edits (StaysPlain text.now value.now) (IsPutIn text.now path.now index value.now) (RefusesPutIn text.now path.now index value.now) result }
{
    let place = place_of(alloc, text, path)?;
    let room = limit_of(place);
    let old = part_text(text, place);
    if !begins(alloc, old, BracketKind::Array) {
        return Err(EditError::NotArray);
    }
    let found = entry_found(alloc, old, Step::Index(index), room)?;
    check_entry(alloc, value, room)?;
    let collection = collection(text, place);
    let new = put_in(alloc, &collection, old, index, found.start, value, room)?;
    splice(alloc, text, place, new.as_str())
}

/// Returns the text with one more member, the last, of the object that the path leads to: this key, and `value`, a JSON5
/// value without blanks or comments around it. It stands and is indented like the member before it, and has a comma
/// after it if that had one. The key is spelled like the object's other keys, or like those of the document where it
/// has none: a name without quotes if they have none, and in quotes if they have them, or if there is no key at all.
/// A text that is JSON, or JSON but for comments, stays so if the value is.
///
/// ```text
/// insert(alloc, "{ host: 'a' }", &[], "port", "80")?    // { host: 'a', port: 80 }
/// ```
///
/// # Errors
///
/// - `Text` with the fault of reading, if the text is no document.
/// - `Nowhere`, if the path leads nowhere; `NotObject`, if it leads to another value than an object.
/// - `Taken`, if the object has a member with the key.
/// - `Value` with the fault of reading, if `value` is no value or is nested too deep for its place.
/// - `NoMemory` where there is no memory for the text, or for a key with an escape.
pub fn insert(
    alloc: Global,
    text: &str,
    path: &[Step<'_>],
    key: &str,
    value: &str,
) -> Result<String>
    ensures { Inserts layout_names.Quoted text.now path.now key.now value.now result }
{
    insert_in(alloc, text, path, key, value, Names::Quoted)
}

/// The same, where the caller says how a name stands as the first key of a document. With `Names::Bare` a document of
/// JSON may come to have a key without quotes.
///
/// ```text
/// insert_in(alloc, "{}", &[], "port", "80", Names::Bare)?    // { port: 80 }
/// ```
///
/// # Errors
///
/// As [`insert`].
pub fn insert_in(
    alloc: Global,
    text: &str,
    path: &[Step<'_>],
    key: &str,
    value: &str,
    names: Names,
) -> Result<String>
    ensures { Inserts names text.now path.now key.now value.now result }
{
    let place = place_of(alloc, text, path)?;
    let room = limit_of(place);
    let old = part_text(text, place);
    let end = free_end(alloc, old, key, room)?;
    check_entry(alloc, value, room)?;
    let mut collection = collection(text, place);
    collection.names = names;
    let new = inserted(alloc, &collection, old, end, key, value, room)?;
    splice(alloc, text, place, new.as_str())
}

/// Returns the text with another key for the member that the path leads to: in the quotes of the old key, or without,
/// if that has none and the new one is a name. If only the old one is a name, the quotes are those of other keys or of
/// strings. A text that is JSON, or JSON but for comments, stays so.
///
/// ```text
/// rename(alloc, "{ 'host': 'a' }", &[Step::Key("host")], "name")?    // { 'name': 'a' }
/// ```
///
/// # Errors
///
/// - `Text` with the fault of reading, if the text is no document.
/// - `Nowhere`, if the path leads nowhere; `NoKey`, if it has no step or its last one goes to an element.
/// - `Taken`, if the object has a member with the new key.
/// - `NoMemory` where there is no memory for the text, or for a key with an escape.
pub fn rename(alloc: Global, text: &str, path: &[Step<'_>], key: &str) -> Result<String>
    ensures { Edits (KeepsPlain text.now) (IsRekeyed text.now path.now key.now) (RefusesRename text.now path.now key.now) result }
{
    let Some((step, outer)) = path.split_last() else {
        return Err(EditError::NoKey);
    };
    let Step::Key(name) = *step else {
        return Err(EditError::NoKey);
    };
    let place = place_of(alloc, text, outer)?;
    let room = limit_of(place);
    let old = part_text(text, place);
    let found = entry_found(alloc, old, *step, room)?;
    // Where one more may end doesn't matter: no member may have the key.
    free_end(alloc, old, key, room)?;
    let collection = collection(text, place);
    let new = renamed(alloc, &collection, old, room, found.start, name, key)?;
    splice(alloc, text, place, new.as_str())
}

/// The text in the place.
pub(crate) fn part_text(text: &str, place: Place) -> &str
    ensures { (before old after : List ℕ) → IsPart text.now place before old after → result.now ≡ encode_utf8_all old }
{
    match text.get(place.start..place.end) {
        Some(part) => part,
        None => "",
    }
}

/// Whether the text begins with such an opening bracket.
pub(crate) fn begins(alloc: Global, old: &str, kind: BracketKind) -> bool
    ensures { result ≡ false → BeginsNo kind (chars old.now) }
{
    let scanner = Scanner::new(alloc, old);
    let Some(first) = scanner.peek() else {
        return false;
    };
    first == kind.brackets().opening
}

/// The entry that the step goes to, in the layout's words.
pub(crate) fn which(step: Step<'_>) -> Which<'_> {
    match step {
        Step::Key(key) => Which::Key(key),
        Step::Index(index) => Which::Index(index),
    }
}

/// The collection without the entry that was found: without its lines and comments, if that reads so, or else without it
/// and a comma alone.
fn removed(
    alloc: Global,
    old: &str,
    step: Step<'_>,
    found: Found,
    leads: Lead,
    room: Limit,
) -> Result<String, AllocError>
    requires { HasFound step room old.now found }
    ensures { IfOk result (λ new. Removes step.entry leads room old.now (string_bytes new)) }
{
    match removed_by_lines(alloc, old, step, found, leads, room) {
        Ok(new) => Ok(new),
        Err(Unmade::NoMemory) => Err(AllocError),
        Err(Unmade::Failed) => without_entry(alloc, old, step, found, room),
    }
}

/// The collection without the entry, its lines and its comments.
fn removed_by_lines(
    alloc: Global,
    old: &str,
    step: Step<'_>,
    found: Found,
    leads: Lead,
    room: Limit,
) -> Result<String, Unmade>
    requires { EndTokens old.now found.before }
    ensures { IfOk result (λ new. Removes step.entry leads room old.now (string_bytes new)) }
{
    let gone = cut_with(alloc, old, which(step), leads)?;
    let new = cut(alloc, old, gone, found.before, kind(step), leads, room)?;
    let text = new.as_str();
    check_removed(alloc, old, text, step, gone.index)?;
    check_plain(old, text)?;
    check_fits(alloc, text, room)?;
    Ok(new)
}

/// What goes with the entry, as the layout says it.
fn cut_with(
    alloc: Global,
    old: &str,
    which: Which<'_>,
    leads: Lead,
) -> json5_types::error::Result<Cut> {
    match leads {
        Lead::Goes => cut_for(alloc, old, which),
        Lead::Stays => cut_alone_for(alloc, old, which),
    }
}

/// Refuses what isn't a value alone that fits.
pub(crate) fn check_fits(alloc: Global, new: &str, room: Limit) -> Result<(), Unmade>
    ensures { OnOk result (IsValue room (chars new.now)) }
{
    check_value(alloc, new, room, 0)?;
    Ok(())
}

/// Refuses what is less plain than the old text.
pub(crate) fn check_plain(old: &str, new: &str) -> Result<(), Unmade>
    ensures { OnOk result (KeepsPlain old.now new.now) }
{
    if keeps_plain(old, new) {
        return Ok(());
    }
    Err(Unmade::Failed)
}

/// The array with one more element: with its lines and comments, if that reads so, or else at its end alone.
fn pushed(
    alloc: Global,
    collection: &Collection<'_>,
    old: &str,
    end: End,
    value: &str,
    room: Limit,
) -> Result<String, AllocError>
    requires { MayComeLast kind.Array room collection.now old.now end value.now }
    ensures { AddsLast kind.Array [] value.now room collection.now old.now result }
{
    let kind = BracketKind::Array;
    match added_by_lines(alloc, collection, old, end, kind, "", value, room) {
        Ok(new) => Ok(new),
        Err(Unmade::NoMemory) => Err(AllocError),
        Err(Unmade::Failed) => with_last(alloc, old, end, "", value, kind, room),
    }
}

/// The object with one more member: with its lines and comments, if that reads so, or else at its end alone.
pub(crate) fn inserted(
    alloc: Global,
    collection: &Collection<'_>,
    old: &str,
    end: End,
    key: &str,
    value: &str,
    room: Limit,
) -> Result<String, AllocError>
    requires { MayComeLast kind.Object room collection.now old.now end value.now }
    ensures { AddsLast kind.Object key.now value.now room collection.now old.now result }
{
    let kind = BracketKind::Object;
    match added_by_lines(alloc, collection, old, end, kind, key, value, room) {
        Ok(new) => Ok(new),
        Err(Unmade::NoMemory) => Err(AllocError),
        Err(Unmade::Failed) => {
            let key = json_key(alloc, key)?;
            let name = join(alloc, key.as_str(), ":", "")?;
            with_last(alloc, old, end, name.as_str(), value, kind, room)
        }
    }
}

/// The collection with one more entry, with its lines and comments.
fn added_by_lines(
    alloc: Global,
    collection: &Collection<'_>,
    old: &str,
    end: End,
    kind: BracketKind,
    key: &str,
    value: &str,
    room: Limit,
) -> Result<String, Unmade>
    requires { HasEnd kind room old.now end }
    ensures { AddsLast kind key.now value.now room collection.now old.now result }
{
    let added = Added { kind, key, value };
    let growth = growth_for(alloc, collection, added)?;
    let new = grown(alloc, old, &growth, due_at(end), kind, value)?;
    let text = new.as_str();
    check_added(alloc, old, text, growth.count, kind, key, value)?;
    check_as_plain(collection.names, collection.document, value, text)?;
    check_fits(alloc, text, room)?;
    Ok(new)
}

/// The offset at which a comma is due, if one is.
fn due_at(end: End) -> Option<usize>
    ensures { result ≡ due_at end.comma end.at }
{
    if end.comma { Some(end.at) } else { None }
}

/// The array with one more element before that with this index, which begins at the offset: with its lines and comments,
/// if that reads so, or else right before it.
fn put_in(
    alloc: Global,
    collection: &Collection<'_>,
    old: &str,
    index: usize,
    start: usize,
    value: &str,
    room: Limit,
) -> Result<String, AllocError>
    requires entry { HasEntry (step.Index index) room old.now start }
    requires value { IsValue (room - 1) (chars value.now) }
    requires plain { KeepsPlain collection.now.document.now old.now }
    ensures put_in { IfOk result (λ new. Adds kind.Array value.now (GainsAt index value.now) room old.now (string_bytes new)) }
    ensures plain { IfOk result (λ new. StaysPlain collection.now.document.now value.now (string_bytes new)) }
{
    match put_in_by_lines(alloc, collection, old, index, value, room) {
        Ok(new) => Ok(new),
        Err(Unmade::NoMemory) => Err(AllocError),
        Err(Unmade::Failed) => {
            let (front, back) = old.split_at(start);
            join_four(alloc, front, value, ",", back)
        }
    }
}

/// The array with one more element before that with this index, with its lines and comments.
fn put_in_by_lines(
    alloc: Global,
    collection: &Collection<'_>,
    old: &str,
    index: usize,
    value: &str,
    room: Limit,
) -> Result<String, Unmade>
    ensures added { IfOk result (λ new. Adds kind.Array value.now (GainsAt index value.now) room old.now (string_bytes new)) }
    ensures plain { IfOk result (λ new. StaysPlain collection.now.document.now value.now (string_bytes new)) }
{
    let growth = growth_before(alloc, collection, index)?;
    let new = grown(alloc, old, &growth, None, BracketKind::Array, value)?;
    let text = new.as_str();
    check_put_in(alloc, old, text, index, value)?;
    check_as_plain(Names::Quoted, collection.document, value, text)?;
    check_fits(alloc, text, room)?;
    Ok(new)
}

/// Refuses what isn't a value alone that fits within a collection with so much room.
pub(crate) fn check_entry(alloc: Global, value: &str, room: Limit) -> Result<()>
    ensures value { OnOk result (IsValue (room - 1) (chars value.now)) }
    ensures refused { IfErr result (RefusesValue (room - 1) value.now) }
{
    match check_value(alloc, value, room, 1) {
        Ok(()) => Ok(()),
        Err(error) => Err(EditError::of_value(error)),
    }
}

/// The collection in the place.
pub(crate) fn collection(text: &str, place: Place) -> Collection<'_>
    ensures names { result.names ≡ layout_names.Quoted }
    ensures document { result.document.now ≡ text.now }
{
    Collection {
        document: text,
        start: place.start,
        end: place.end,
        names: Names::Quoted,
    }
}
