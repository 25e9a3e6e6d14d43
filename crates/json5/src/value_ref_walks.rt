//! Reads a borrowed value by a walk over the text. A call returns None where the text is no document, or memory ran out.

ghost use Rattle.std.specs.Prelude.{◌≡◌, ◌+◌, IfSome, MatchOption, OnSome};
ghost use Rattle.std.specs.Str.{chars};
ghost use Rattle.json5_grammar.specs.Language.Documents.{Doc};
ghost use Rattle.json5_grammar.specs.Language.Trees.{Tree};
ghost use Rattle.json5_read.specs.OwnedReads.{datum_of_literal};
ghost use Rattle.json5_read.specs.TreeMeanings.{datum_of};
ghost use Rattle.json5_read.specs.declared.brackets.BracketKind.TheVariants as kind;
ghost use Rattle.json5_types.specs.Cows.{cow_bytes};
ghost use Rattle.json5_types.specs.NumberMeanings.{number_of};
ghost use Rattle.json5_types.specs.ValueMeanings.{number, array, object};
ghost use Rattle.json5_walk.specs.Moves.{Stays, Opens, TakesColon, TakesKeyOf};
ghost use Rattle.json5_walk.specs.Walks.{Moved};
ghost use Rattle.json5.specs.ValueRefs.{ref_of, refs_view, members_view};
ghost use Rattle.json5.specs.ValueRefWalks.{TakesMeaning, TakesItem, TakesKey, TakesPart, Finishes};

use crate::value_ref::ValueRef;
use json5_read::brackets::BracketKind;
use json5_read::kinds::{Literal, ValueKind, kind_at};
use json5_types::cow_str::CowStr;
use json5_types::nesting::Limit;
use json5_types::number::Number;
use json5_types::whole::Whole;
use json5_walk::walk::Walk;
use std::alloc::Global;

/// The document as a value.
pub(crate) fn walked<'de>(alloc: Global, limit: Limit, text: &'de str) -> Option<ValueRef<'de>>
    ensures { IfSome result (λ v. (t : Tree) × Doc limit (chars text.now) t × (ref_of v ≡ datum_of t)) }
{
    let mut walk = Walk::new(alloc, text, limit);
    let value = take_value(alloc, &mut walk, usize::from(limit.get()), false)??;
    walk.finish().ok()?;
    Some(value)
}

/// Takes the value in front, in which so many brackets may be open at once; or the closing bracket, and returns None for it.
/// In an array decimals are more likely than in an object.
#[cycle(tree)]
#[inline(always)]
fn take_value<'de>(
    alloc: Global,
    walk: &mut Walk<'de>,
    room: usize,
    in_array: bool,
) -> Option<Option<ValueRef<'de>>>
    ensures { IfSome result (λ item. TakesItem item walk.old walk.new) }
{
    if let Some(value) = short_value(walk, in_array) {
        return Some(Some(value));
    }
    match front(walk)? {
        '[' => {
            let within = open(walk, BracketKind::Array, room)?;
            Some(Some(ValueRef::Array(take_elements(alloc, walk, within)?)))
        }
        '{' => {
            let within = open(walk, BracketKind::Object, room)?;
            Some(Some(ValueRef::Object(take_members(alloc, walk, within)?)))
        }
        ']' => {
            walk.close()?;
            Some(None)
        }
        c => Some(Some(take_token(walk, kind_at(c))?)),
    }
}

/// Takes a string without an escape, a whole number of few digits, or in an array a decimal whose digits take no memory.
#[inline(always)]
fn short_value<'de>(walk: &mut Walk<'de>, in_array: bool) -> Option<ValueRef<'de>>
    ensures { MatchOption result (walk.new ≡ walk.old) (λ v. Moved (TakesMeaning (ref_of v)) walk.old walk.new) }
{
    if let Some(text) = walk.short_string() {
        return Some(ValueRef::String(CowStr::Borrowed(text)));
    }
    if let Some(number) = walk.short_whole(i128::MIN, i128::MAX) {
        return Some(ValueRef::Whole(Whole::from_i128(number)));
    }
    if !in_array {
        return None;
    }
    match walk.short_decimal() {
        Some(number) => Some(ValueRef::Decimal(number)),
        None => None,
    }
}

/// Passes over blanks, and returns the character in front.
#[inline(never)]
fn front(walk: &mut Walk<'_>) -> Option<char>
    ensures { OnSome result (Moved Stays walk.old walk.new) }
{
    walk.gap().ok()?;
    walk.peek()
}

/// Opens a bracket, if there is room for it, and returns how many more may be open at once in it.
#[inline(always)]
fn open(walk: &mut Walk<'_>, kind: BracketKind, room: usize) -> Option<usize>
    ensures { IfSome result (λ within. (room ≡ within + 1) × Moved (Opens kind) walk.old walk.new) }
{
    let within = room.checked_sub(1)?;
    if !walk.open(kind) {
        return None;
    }
    Some(within)
}

/// Takes the elements of an array and its closing bracket.
#[cycle(tree)]
#[inline(never)]
fn take_elements<'de>(
    alloc: Global,
    walk: &mut Walk<'de>,
    room: usize,
) -> Option<Vec<ValueRef<'de>>>
    ensures { IfSome result (λ v. Moved (Finishes kind.Array (array (refs_view v.items))) walk.old walk.new) }
{
    let mut items = Vec::new(alloc);
    for _ in 0..walk.text().len() {
        let Some(item) = take_value(alloc, walk, room, true)? else {
            return Some(items);
        };
        items.push(item).ok()?;
        if !take_part(walk)? {
            return Some(items);
        }
    }
    None
}

/// Takes the members of an object and its closing brace.
#[cycle(tree)]
#[inline(never)]
fn take_members<'de>(
    alloc: Global,
    walk: &mut Walk<'de>,
    room: usize,
) -> Option<Vec<(CowStr<'de>, ValueRef<'de>)>>
    ensures { IfSome result (λ v. Moved (Finishes kind.Object (object (members_view v.items))) walk.old walk.new) }
{
    let mut members = Vec::new(alloc);
    for _ in 0..walk.text().len() {
        let Some(key) = take_key(walk)? else {
            return Some(members);
        };
        take_colon(walk)?;
        let value = take_value(alloc, walk, room, false)??;
        members.push((key, value)).ok()?;
        if !take_part(walk)? {
            return Some(members);
        }
    }
    None
}

/// Takes the comma after a value, and returns true; or the closing bracket, and returns false.
#[inline(always)]
fn take_part(walk: &mut Walk<'_>) -> Option<bool>
    ensures { IfSome result (TakesPart walk.old walk.new) }
{
    if walk.short_comma() {
        return Some(true);
    }
    if walk.short_close().is_some() {
        return Some(false);
    }
    front(walk)?;
    if walk.comma() {
        return Some(true);
    }
    walk.close()?;
    Some(false)
}

/// Takes a key; or the closing brace, and returns None for it.
#[inline(always)]
fn take_key<'de>(walk: &mut Walk<'de>) -> Option<Option<CowStr<'de>>>
    ensures { IfSome result (λ key. TakesKey key walk.old walk.new) }
{
    if let Some(key) = walk.short_key() {
        return Some(Some(CowStr::Borrowed(key)));
    }
    front(walk)?;
    if walk.close().is_some() {
        return Some(None);
    }
    Some(Some(long_key(walk)?))
}

/// Takes any key.
#[inline(never)]
fn long_key<'de>(walk: &mut Walk<'de>) -> Option<CowStr<'de>>
    ensures { IfSome result (λ key. Moved (TakesKeyOf (cow_bytes key)) walk.old walk.new) }
{
    walk.key().ok()
}

/// Takes a colon.
#[inline(always)]
fn take_colon(walk: &mut Walk<'_>) -> Option<()>
    ensures { OnSome result (Moved TakesColon walk.old walk.new) }
{
    if walk.short_colon() {
        return Some(());
    }
    front(walk)?;
    if !walk.colon() {
        return None;
    }
    Some(())
}

/// Takes a value of this kind, which is no collection.
#[inline(never)]
fn take_token<'de>(walk: &mut Walk<'de>, kind: ValueKind) -> Option<ValueRef<'de>>
    ensures { IfSome result (λ v. Moved (TakesMeaning (ref_of v)) walk.old walk.new) }
{
    match kind {
        ValueKind::Literal(literal) => {
            walk.literal(literal).ok()?;
            Some(value_of_literal(literal))
        }
        ValueKind::String => Some(ValueRef::String(walk.string().ok()?)),
        ValueKind::Number => match walk.short_decimal() {
            Some(number) => Some(ValueRef::Decimal(number)),
            None => Some(value_of_number(walk.number().ok()?)),
        },
        ValueKind::Other => None,
    }
}

/// What the literal means.
#[inline(always)]
fn value_of_literal<'de>(literal: Literal) -> ValueRef<'de>
    ensures { ref_of result ≡ datum_of_literal literal }
{
    match literal {
        Literal::Null => ValueRef::Null,
        Literal::True => ValueRef::Bool(true),
        Literal::False => ValueRef::Bool(false),
    }
}

/// What the number means.
#[inline(always)]
fn value_of_number<'de>(read: Number) -> ValueRef<'de>
    ensures { ref_of result ≡ number (number_of read) }
{
    match read {
        Number::Whole(number) => ValueRef::Whole(number),
        Number::Decimal(number) => ValueRef::Decimal(number),
    }
}
