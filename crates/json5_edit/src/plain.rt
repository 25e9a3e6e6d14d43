//! The smallest edits of a collection: one entry with its comma goes or comes, and all else stays.

ghost use Rattle.std.specs.Prelude.{◌≡◌, ◌++◌, ◌≤◌, ◌-◌, false, IfOk, IfErr, OnOk, string_bytes};
ghost use Rattle.std.specs.Str.{chars};
ghost use Rattle.json5_grammar.specs.Language.Blanks.{Solid};
ghost use Rattle.json5_grammar.specs.Language.Trees.{Tree, depth};
ghost use Rattle.json5_types.specs.Errors.{LacksMemory};
ghost use Rattle.json5_read.specs.declared.brackets.BracketKind.TheVariants as kind;
ghost use Rattle.json5_edit.specs.Pieces.{IsNameAlone};
ghost use Rattle.json5_edit.specs.Places.{Fits};
ghost use Rattle.json5_edit.specs.Refusals.{IsFree, RefusesFree, RefusesKind, RefusesStep};
ghost use Rattle.json5_edit.specs.Spots.{AddsEntry, AddsPlainly, Goes, HasEnd, HasFound, HasBefore, IsAhead, BeginsWithComma, IsCommaSpan, TakesCommaAhead, IsColonBefore, IsNameBefore, MayComeBefore, Measures, Parts, PassedBefore, PutsMember, ReadsColon, ReadsThen, Removes, comma_for};
ghost use Rattle.json5_edit.specs.declared.belongings.Lead.TheVariants as lead_place;
ghost use Rattle.json5_edit.specs.declared.paths.Step.TheVariants as step;

use crate::comparing::kind;
use crate::entries::failed;
use crate::faults::{EditError, Result, lack};
use crate::paths::{Before, Step};
use crate::pieces::join_five;
use crate::setting::join;
use crate::spelled::json_key;
use crate::survey::{Found, find_entry};
use json5_read::brackets::BracketKind;
use json5_read::skip::skip_value;
use json5_tokens::scanner::Scanner;
use json5_types::error;
use json5_types::nesting::Limit;
use std::alloc::{AllocError, Global};

/// Where the entry stands that the step goes to.
pub(crate) fn entry_found(alloc: Global, old: &str, step: Step<'_>, room: Limit) -> Result<Found>
    requires { Fits room old.now }
    ensures found { IfOk result (HasFound step.entry room old.now) }
    ensures refused { IfErr result (RefusesStep old.now step.entry) }
{
    match find_entry(alloc, old, step, room)? {
        Some(found) => match found.entry {
            Some(entry) => Ok(entry),
            None => Err(EditError::Nowhere),
        },
        None => Err(EditError::Nowhere),
    }
}

/// Where one more element may stand at the end of an array.
pub(crate) fn array_end(alloc: Global, old: &str, room: Limit) -> Result<End>
    requires { Fits room old.now }
    ensures found { IfOk result (HasEnd kind.Array room old.now) }
    ensures refused { IfErr result (RefusesKind kind.Array old.now) }
{
    // Any index will do: the end alone is asked for.
    match find_entry(alloc, old, Step::Index(0), room)? {
        Some(found) => Ok(End {
            at: found.end,
            comma: found.comma,
        }),
        None => Err(EditError::NotArray),
    }
}

/// Where one more member may stand at the end of an object that has none with the key.
pub(crate) fn free_end(alloc: Global, old: &str, key: &str, room: Limit) -> Result<End>
    requires { Fits room old.now }
    ensures found { IfOk result (HasEnd kind.Object room old.now) }
    ensures free { OnOk result (IsFree key.now old.now) }
    ensures refused { IfErr result (RefusesFree old.now key.now) }
{
    match find_entry(alloc, old, Step::Key(key), room)? {
        Some(found) => match found.entry {
            Some(_) => Err(EditError::Taken),
            None => Ok(End {
                at: found.end,
                comma: found.comma,
            }),
        },
        None => Err(EditError::NotObject),
    }
}

/// The text without an entry and the comma after it, or the one before it if none comes after.
pub(crate) fn without_entry(
    alloc: Global,
    old: &str,
    step: Step<'_>,
    found: Found,
    room: Limit,
) -> Result<String, AllocError>
    requires { HasFound step room old.now found }
    ensures { IfOk result (λ new. Removes step.entry lead_place.Stays room old.now (string_bytes new)) }
{
    let (front, rest) = old.split_at(found.start);
    let len = len_ahead(alloc, rest, kind(step), room)?;
    let (_gone, back) = rest.split_at(len.whole);
    let Some(end) = found.before else {
        return join(alloc, front, back, "");
    };
    if len.bare == len.whole {
        return without_last(alloc, old, step, found, end, room);
    }
    join(alloc, front, back, "")
}

/// The text without an entry and the comma before it, where the entry before it ends at the offset.
fn without_last(
    alloc: Global,
    old: &str,
    step: Step<'_>,
    found: Found,
    end: usize,
    room: Limit,
) -> Result<String, AllocError>
    requires { HasBefore step room old.now found.start end }
    ensures { IfOk result (λ new. Removes step.entry lead_place.Stays room old.now (string_bytes new)) }
{
    let (front, text) = old.split_at(end);
    let (before, after, rest) = comma_ahead(alloc, text)?;
    let len = len_ahead(alloc, rest, kind(step), room)?;
    let (_gone, back) = rest.split_at(len.bare);
    join_four(alloc, front, before, after, back)
}

/// How long the entry in front of the text is.
fn len_ahead(
    alloc: Global,
    rest: &str,
    kind: BracketKind,
    room: Limit,
) -> Result<EntryLen, AllocError>
    requires { IsAhead kind room (chars rest.now) }
    ensures { IfOk result (Measures kind room rest.now) }
{
    match entry_len(alloc, rest, kind, room) {
        Ok(len) => Ok(len),
        Err(error) => Err(lack(error)),
    }
}

/// What stands before and after the comma in front of the text, up to the next entry, and what follows.
fn comma_ahead(alloc: Global, text: &str) -> Result<(&str, &str, &str), AllocError>
    requires { BeginsWithComma (chars text.now) }
    ensures { IfOk result (λ parts. TakesCommaAhead text.now parts.0.now parts.1.now parts.2.now) }
{
    match comma_span(alloc, text) {
        Ok(span) => {
            let (before, _) = text.split_at(span.start);
            let (head, rest) = text.split_at(span.next);
            let (_, after) = head.split_at(span.end);
            Ok((before, after, rest))
        }
        Err(error) => Err(lack(error)),
    }
}

/// Where a comma stands in a text, and where the next token begins.
#[derive(Clone, Copy, Drop)]
pub(crate) struct CommaSpan {
    pub(crate) start: usize,
    pub(crate) end: usize,
    pub(crate) next: usize,
}

/// Where the comma in front of the text stands, after blanks.
fn comma_span(alloc: Global, text: &str) -> error::Result<CommaSpan>
    ensures taken { IfOk result (IsCommaSpan text.now) }
    ensures refused { IfErr result (λ e. BeginsWithComma (chars text.now) → LacksMemory e) }
{
    let mut scanner = Scanner::new(alloc, text);
    scanner.skip_blank()?;
    let start = scanner.offset();
    if !scanner.eat(',') {
        return Err(failed());
    }
    let end = scanner.offset();
    scanner.skip_blank()?;
    let next = scanner.offset();
    Ok(CommaSpan { start, end, next })
}

/// Where one more entry may stand at the end of a collection.
#[derive(Clone, Copy, Drop)]
pub(crate) struct End {
    pub(crate) at: usize,
    /// Whether a comma comes before it.
    pub(crate) comma: bool,
}

/// The collection with one more entry at its end: this value, after a key and a colon in an object.
pub(crate) fn with_last(
    alloc: Global,
    old: &str,
    end: End,
    name: &str,
    value: &str,
    kind: BracketKind,
    room: Limit,
) -> Result<String, AllocError>
    requires end { HasEnd kind room old.now end }
    requires name { IsNameAlone kind name.now }
    ensures added { IfOk result (λ new. AddsEntry kind name.now value.now room old.now (string_bytes new)) }
    ensures plain { IfOk result (λ new. AddsPlainly kind (name.now ++ value.now) old.now (string_bytes new)) }
{
    let (front, back) = old.split_at(end.at);
    join_five(alloc, front, comma_for(end.comma), name, value, back)
}

/// The object with the member before that which begins at the offset.
pub(crate) fn with_member_before(
    alloc: Global,
    old: &str,
    before: Before<'_>,
    start: usize,
    key: &str,
    value: &str,
    room: Limit,
) -> Result<String, AllocError>
    requires { MayComeBefore before room old.now old.now start value.now }
    ensures { PutsMember before.entry key.now value.now room old.now old.now result }
{
    let (front, back) = old.split_at(start);
    let key = json_key(alloc, key)?;
    let name = join(alloc, key.as_str(), ":", "")?;
    join_five(alloc, front, name.as_str(), value, ",", back)
}

/// The four texts one after another.
pub(crate) fn join_four(
    alloc: Global,
    front: &str,
    came: &str,
    more: &str,
    back: &str,
) -> Result<String, AllocError>
    ensures { IfOk result (λ made. string_bytes made ≡ front.now ++ (came.now ++ (more.now ++ back.now))) }
{
    [front, came, more, back].as_slice().concat(alloc)
}

/// A comma, if one is due.
fn comma_for(due: bool) -> &'static str
    ensures { result.now ≡ comma_for due }
{
    if due { "," } else { "" }
}

/// How long an entry is: up to the end of its value, and with the comma after it, if there is one.
#[derive(Clone, Copy, Drop)]
pub(crate) struct EntryLen {
    pub(crate) bare: usize,
    pub(crate) whole: usize,
}

/// How long the entry is in front of the text.
pub(crate) fn entry_len(
    alloc: Global,
    rest: &str,
    kind: BracketKind,
    room: Limit,
) -> error::Result<EntryLen>
    ensures measured { IfOk result (λ n. Solid (chars rest.now) → Measures kind room rest.now n) }
    ensures refused { IfErr result (λ e. (u t r : Tree) → Parts kind u t r → Goes false u (chars rest.now) → depth t ≤ room → LacksMemory e) }
{
    let mut scanner = Scanner::new(alloc, rest);
    scanner.skip_blank()?;
    pass_name(&mut scanner, kind)?;
    skip_value(&mut scanner, usize::from(room.get()))?;
    let bare = scanner.offset();
    scanner.skip_blank()?;
    if scanner.eat(',') {
        let whole = scanner.offset();
        return Ok(EntryLen { bare, whole });
    }
    Ok(EntryLen { bare, whole: bare })
}

/// Passes over the key of a member and the colon with the blanks around it, or over nothing in an array.
fn pass_name(scanner: &mut Scanner<&str>, kind: BracketKind) -> error::Result<()>
    ensures passed { OnOk result (PassedBefore IsNameBefore scanner.old scanner.new) }
    ensures named { OnOk result ((u t r : Tree) → Parts kind u t r → Goes false u scanner.old.unread → ReadsThen t r scanner.new.unread) }
    ensures solid { OnOk result (Solid scanner.old.unread → Solid scanner.new.unread) }
    ensures refused { IfErr result (λ e. (u t r : Tree) → Parts kind u t r → Solid scanner.old.unread → Goes false u scanner.old.unread → LacksMemory e) }
{
    match kind {
        BracketKind::Array => Ok(()),
        BracketKind::Object => {
            scanner.key()?;
            pass_colon(scanner)
        }
    }
}

/// Passes over a colon with the blanks around it.
fn pass_colon(scanner: &mut Scanner<&str>) -> error::Result<()>
    ensures passed { OnOk result (PassedBefore IsColonBefore scanner.old scanner.new) }
    ensures parted { OnOk result ((t r : Tree) → ReadsColon t r scanner.old.unread → ReadsThen t r scanner.new.unread) }
    ensures solid { OnOk result (Solid scanner.new.unread) }
    ensures refused { IfErr result (λ e. (t r : Tree) → ReadsColon t r scanner.old.unread → LacksMemory e) }
{
    scanner.skip_blank()?;
    if !scanner.eat(':') {
        return Err(failed());
    }
    scanner.skip_blank()
}
