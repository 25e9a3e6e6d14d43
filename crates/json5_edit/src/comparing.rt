//! Two collections, entry by entry.

ghost use Rattle.std.specs.Prelude.{◌≡◌, false, true, IfOk, OnOk, None};
ghost use Rattle.json5_types.specs.Cows.{cow_bytes};
ghost use Rattle.json5_walk.specs.Moves.{Opens};
ghost use Rattle.json5_walk.specs.Walks.{Moved};
ghost use Rattle.json5_edit.specs.Entries.{TakesEntry};
ghost use Rattle.json5_edit.specs.Comparing.{EndsToo, HaveSameEntries, PassesPair, PassesFront, PassesRest, IsOther, IsWithout, IsRenamed, FitsFront, PassesAfter, step_kind, step_key, step_place};
ghost use Rattle.json5_edit.specs.Changes.{ChangesBy, Gains, GainsAt, GainsMember};

use crate::entries::{Entry, failed, next_entry};
use crate::paths::{Before, Step};
use json5_read::brackets::BracketKind;
use json5_types::error::Result;
use json5_types::nesting::Limit;
use json5_walk::walk::Walk;
use std::alloc::Global;

/// Refuses a new text that isn't the old one without the entry that the step goes to, which has this index.
pub(crate) fn check_removed(
    alloc: Global,
    old: &str,
    new: &str,
    step: Step<'_>,
    index: usize,
) -> Result<()>
    ensures { OnOk result (ChangesBy (IsWithout step.entry) old.now new.now) }
{
    let mut left = Walk::new(alloc, old, Limit::full());
    let mut right = Walk::new(alloc, new, Limit::full());
    open_both(&mut left, &mut right, kind(step))?;
    same_front(&mut left, &mut right, place(step, index))?;
    let gone = some_entry(&mut left)?;
    if !has_key(&gone, key(step)) {
        return Err(failed());
    }
    same_rest(&mut left, &mut right, step)?;
    left.finish()?;
    right.finish()
}

/// Refuses a new text that isn't the old one with one more entry, the last, with this key and this value.
pub(crate) fn check_added(
    alloc: Global,
    old: &str,
    new: &str,
    count: usize,
    kind: BracketKind,
    key: &str,
    value: &str,
) -> Result<()>
    ensures { OnOk result (ChangesBy (Gains kind key.now value.now) old.now new.now) }
{
    let mut left = Walk::new(alloc, old, Limit::full());
    let mut right = Walk::new(alloc, new, Limit::full());
    open_both(&mut left, &mut right, kind)?;
    same_front(&mut left, &mut right, count)?;
    let came = some_entry(&mut right)?;
    if !has_key(&came, key) {
        return Err(failed());
    }
    if !has_value(&came, value) {
        return Err(failed());
    }
    close_both(&mut left, &mut right)?;
    left.finish()?;
    right.finish()
}

/// Refuses a new text that isn't the old one with one more element, of which so many come before it, with this value.
pub(crate) fn check_put_in(
    alloc: Global,
    old: &str,
    new: &str,
    index: usize,
    value: &str,
) -> Result<()>
    ensures { OnOk result (ChangesBy (GainsAt index value.now) old.now new.now) }
{
    let mut left = Walk::new(alloc, old, Limit::full());
    let mut right = Walk::new(alloc, new, Limit::full());
    open_both(&mut left, &mut right, BracketKind::Array)?;
    same_front(&mut left, &mut right, index)?;
    let put = some_entry(&mut right)?;
    if !has_key(&put, "") {
        return Err(failed());
    }
    if !has_value(&put, value) {
        return Err(failed());
    }
    same_rest(&mut left, &mut right, Step::Index(index))?;
    left.finish()?;
    right.finish()
}

/// Refuses a new text that isn't the old one with one more member there, of which so many come before it, with this key
/// and this value.
pub(crate) fn check_inserted(
    alloc: Global,
    old: &str,
    new: &str,
    before: Before<'_>,
    count: usize,
    key: &str,
    value: &str,
) -> Result<()>
    ensures { OnOk result (ChangesBy (GainsMember before.entry key.now value.now) old.now new.now) }
{
    let mut left = Walk::new(alloc, old, Limit::full());
    let mut right = Walk::new(alloc, new, Limit::full());
    open_both(&mut left, &mut right, BracketKind::Object)?;
    same_front(&mut left, &mut right, front_count(before, count))?;
    let came = some_entry(&mut right)?;
    if !has_key(&came, key) {
        return Err(failed());
    }
    if !has_value(&came, value) {
        return Err(failed());
    }
    same_after(&mut left, &mut right, before)?;
    left.finish()?;
    right.finish()
}

/// Refuses a new text that isn't the old one with another key for the last member that has this one, which so many come
/// before.
pub(crate) fn check_renamed(
    alloc: Global,
    old: &str,
    new: &str,
    name: &str,
    before: usize,
    key: &str,
) -> Result<()>
    ensures { OnOk result (ChangesBy (IsRenamed name.now key.now) old.now new.now) }
{
    let mut left = Walk::new(alloc, old, Limit::full());
    let mut right = Walk::new(alloc, new, Limit::full());
    open_both(&mut left, &mut right, BracketKind::Object)?;
    same_front(&mut left, &mut right, before)?;
    let gone = some_entry(&mut left)?;
    let came = some_entry(&mut right)?;
    if !has_key(&gone, name) {
        return Err(failed());
    }
    if !has_key(&came, key) {
        return Err(failed());
    }
    if !has_value(&gone, came.value) {
        return Err(failed());
    }
    same_rest(&mut left, &mut right, Step::Key(name))?;
    left.finish()?;
    right.finish()
}

/// Refuses a new text that hasn't the entries of the old one.
pub(crate) fn check_same(alloc: Global, old: &str, new: &str, kind: BracketKind) -> Result<()>
    ensures { OnOk result (ChangesBy HaveSameEntries old.now new.now) }
{
    let mut left = Walk::new(alloc, old, Limit::full());
    let mut right = Walk::new(alloc, new, Limit::full());
    open_both(&mut left, &mut right, kind)?;
    same_rest(&mut left, &mut right, Step::Index(0))?;
    left.finish()?;
    right.finish()
}

/// Takes an opening bracket of this kind in both texts.
fn open_both(left: &mut Walk<'_>, right: &mut Walk<'_>, kind: BracketKind) -> Result<()>
    ensures left { OnOk result (Moved (Opens kind) left.old left.new) }
    ensures right { OnOk result (Moved (Opens kind) right.old right.new) }
{
    if left.open(kind) && right.open(kind) {
        return Ok(());
    }
    Err(failed())
}

/// Takes the closing bracket in both texts.
fn close_both(left: &mut Walk<'_>, right: &mut Walk<'_>) -> Result<()>
    ensures { OnOk result (PassesPair left.old right.old left.new right.new None) }
{
    let Some(_) = pass_pair(left, right)? else {
        return Ok(());
    };
    Err(failed())
}

/// Passes over an entry.
pub(crate) fn some_entry<'t>(walk: &mut Walk<'t>) -> Result<Entry<'t>>
    ensures { IfOk result (λ e. Moved (TakesEntry (cow_bytes e.key) e.value.now) walk.old walk.new) }
{
    match next_entry(walk)? {
        Some(entry) => Ok(entry),
        None => Err(failed()),
    }
}

/// Passes over this many entries, which are the same in both texts.
fn same_front(left: &mut Walk<'_>, right: &mut Walk<'_>, count: usize) -> Result<()>
    ensures { OnOk result (PassesFront count left.old right.old left.new right.new) }
{
    for passed in 0..count {
        let _ = passed;
        let Some(_) = pass_pair(left, right)? else {
            return Err(failed());
        };
    }
    Ok(())
}

/// Passes over the entries that are left, which are the same in both texts and have another key than the step goes to,
/// and over the closing brackets.
fn same_rest(left: &mut Walk<'_>, right: &mut Walk<'_>, step: Step<'_>) -> Result<()>
    ensures { OnOk result (PassesRest step.entry left.old right.old left.new right.new) }
{
    for _ in 0..left.text().len() {
        let Some(entry) = pass_pair(left, right)? else {
            return Ok(());
        };
        if is_meant(step, &entry) {
            return Err(failed());
        }
    }
    Err(failed())
}

/// How many members come before one there: so many, or none.
fn front_count(before: Before<'_>, count: usize) -> usize
    ensures { FitsFront before.entry result }
{
    match before {
        Before::First => 0,
        Before::Key(_) => count,
    }
}

/// Passes over the members that are left, which are the same in both texts and those before which another goes, and over
/// the closing brackets.
fn same_after(left: &mut Walk<'_>, right: &mut Walk<'_>, before: Before<'_>) -> Result<()>
    ensures { OnOk result (PassesAfter before.entry left.old right.old left.new right.new) }
{
    match before {
        Before::First => same_rest(left, right, Step::Index(0)),
        Before::Key(next) => {
            let Some(entry) = pass_pair(left, right)? else {
                return Err(failed());
            };
            if !has_key(&entry, next) {
                return Err(failed());
            }
            same_rest(left, right, Step::Key(next))
        }
    }
}

/// Passes over an entry that is the same in both texts, or over the closing brackets, where it returns None.
fn pass_pair<'t>(left: &mut Walk<'t>, right: &mut Walk<'_>) -> Result<Option<Entry<'t>>>
    ensures { IfOk result (PassesPair left.old right.old left.new right.new) }
{
    let Some(one) = next_entry(left)? else {
        return end_too(right);
    };
    let other = some_entry(right)?;
    if !is_same(&one, &other) {
        return Err(failed());
    }
    Ok(Some(one))
}

/// Passes over the closing bracket.
fn end_too<'t>(walk: &mut Walk<'_>) -> Result<Option<Entry<'t>>>
    ensures { IfOk result (EndsToo walk.old walk.new) }
{
    match next_entry(walk)? {
        Some(_) => Err(failed()),
        None => Ok(None),
    }
}

/// Whether the entry has this key.
fn has_key(entry: &Entry<'_>, key: &str) -> bool
    ensures { result ≡ true → cow_bytes entry.now.key ≡ key.now }
{
    entry.key.as_str() == key
}

/// Whether the entry's value is spelled so.
fn has_value(entry: &Entry<'_>, value: &str) -> bool
    ensures { result ≡ true → entry.now.value.now ≡ value.now }
{
    entry.value == value
}

/// Whether both have the same key and value.
pub(crate) fn is_same(one: &Entry<'_>, other: &Entry<'_>) -> bool
    ensures key { result ≡ true → cow_bytes one.now.key ≡ cow_bytes other.now.key }
    ensures value { result ≡ true → one.now.value.now ≡ other.now.value.now }
{
    has_key(one, other.key.as_str()) && has_value(one, other.value)
}

/// Whether the step goes to a member with the entry's key.
fn is_meant(step: Step<'_>, entry: &Entry<'_>) -> bool
    ensures { result ≡ false → IsOther step.entry (cow_bytes entry.now.key) }
{
    match step {
        Step::Index(_) => false,
        Step::Key(key) => entry.key.as_str() == key,
    }
}

/// The kind of collection in which the step goes to an entry.
pub(crate) fn kind(step: Step<'_>) -> BracketKind
    ensures { result ≡ step_kind step.entry }
{
    match step {
        Step::Index(_) => BracketKind::Array,
        Step::Key(_) => BracketKind::Object,
    }
}

/// The key of that entry.
fn key<'p>(step: Step<'p>) -> &'p str
    ensures { result.now ≡ step_key step.entry }
{
    match step {
        Step::Index(_) => "",
        Step::Key(key) => key,
    }
}

/// How many entries come before it: so many as the step says, or as were found.
fn place(step: Step<'_>, found: usize) -> usize
    ensures { result ≡ step_place step.entry found }
{
    match step {
        Step::Index(index) => index,
        Step::Key(_) => found,
    }
}
