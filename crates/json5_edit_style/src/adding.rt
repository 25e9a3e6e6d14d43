//! What comes into a collection's text with one more entry.

use crate::collection::Collection;
use crate::gaps::{Gap, between};
use crate::keys::key_for;
use crate::lines::{has_lines, indentation, line_start};
use crate::removing::joined;
use crate::spots::{Around, Spot, Which, find_around};
use crate::switched_off::after_switched_off;
use json5_read::brackets::BracketKind;
use json5_types::ErrorCode;
use json5_types::error::{Error, Result};
use std::alloc::Global;

/// What is added at the end: its key, which is empty in an array, and its value.
#[derive(Clone, Copy, Drop)]
pub struct Added<'x> {
    pub kind: BracketKind,
    pub key: &'x str,
    pub value: &'x str,
}

/// What comes into a text: perhaps a comma, and after it an entry in the place of blanks, with what stands around its
/// value. Offsets are in bytes.
///
/// ```text
/// Growth { count: 1, comma: true, at: 3, start: 3, end: 3, lead, name, trail }    // `[80, 443]` of `[80]`: `lead` is a blank
/// ```
#[derive(Drop)]
pub struct Growth {
    /// How many entries come before the new one.
    pub count: usize,
    /// Whether a comma comes, and where.
    pub comma: bool,
    pub at: usize,
    /// The blanks that go: between two brackets, else none.
    pub start: usize,
    pub end: usize,
    /// The blanks before the entry.
    pub lead: String,
    /// The key of a member, and the colon with the blanks around it.
    pub name: String,
    /// The comma after the entry, if one comes there, and blanks.
    pub trail: String,
}

/// Returns what comes into the collection's text with what is added: on a line of its own, if its neighbour has one,
/// indented like it, and with a comma after it if the last entry had one.
///
/// ```text
/// let list = Collection { document: "[80]", start: 0, end: 4, names: Names::Quoted };
/// growth_for(alloc, &list, Added { kind: BracketKind::Array, key: "", value: "443" })?    // , 443
/// ```
///
/// # Errors
///
/// As reading, if the text is no value; `OutOfMemory` where there is no memory for the text.
pub fn growth_for(alloc: Global, collection: &Collection<'_>, added: Added<'_>) -> Result<Growth> {
    let around = find_around(alloc, collection.text(), Which::Index(usize::MAX))?;
    let line = line_in(collection.text(), around, has_lines(added.value));
    let mut growth = match around.before {
        Some(last) => after_last(alloc, collection, around.close, last, line),
        None => into_empty(alloc, collection, around.close, line, added.kind),
    }?;
    growth.count = around.count;
    growth.name = name(alloc, collection, around, added)?;
    Ok(growth)
}

/// Returns the blanks that the line begins with on which a new entry over several lines begins: at the end, or before the
/// one with this index, if there is one.
///
/// ```text
/// let map = Collection { document: "{\n  a: 1,\n}", start: 0, end: 11, names: Names::Quoted };
/// entry_indentation(alloc, &map, usize::MAX)?    // two blanks
/// ```
///
/// # Errors
///
/// As reading, if the text is no value; `OutOfMemory` where there is no memory for the blanks.
pub fn entry_indentation(
    alloc: Global,
    collection: &Collection<'_>,
    index: usize,
) -> Result<String> {
    indentation_before(alloc, collection, Which::Index(index))
}

/// Returns the same where the new entry comes before this one, or at the end, if there is none.
///
/// ```text
/// let map = Collection { document: "{\n  a: 1,\n}", start: 0, end: 11, names: Names::Quoted };
/// indentation_before(alloc, &map, Which::Key("a"))?    // two blanks
/// ```
///
/// # Errors
///
/// As [`entry_indentation`].
pub fn indentation_before(
    alloc: Global,
    collection: &Collection<'_>,
    which: Which<'_>,
) -> Result<String> {
    let text = collection.text();
    let around = find_around(alloc, text, which)?;
    if let Some(here) = around.here {
        return joined(alloc, &[collection.indentation_at(here.start)]);
    }
    match (line_in(text, around, true), around.before) {
        (Line::Own(at), _) => joined(alloc, &[indentation(text, at)]),
        (Line::Inner, _) => inner_indentation(alloc, collection),
        (Line::Same, Some(last)) => joined(alloc, &[collection.indentation_at(last.start)]),
        (Line::Same, None) => joined(alloc, &[collection.indentation_at(0)]),
    }
}

/// Returns what comes into the array's text with one more element before that with this index: on a line of its own, if
/// that has one, indented like it, or on the same line; in either case before the comments of that.
///
/// ```text
/// let list = Collection { document: "[80]", start: 0, end: 4, names: Names::Quoted };
/// growth_before(alloc, &list, 0)?    // a comma and a blank after it
/// ```
///
/// # Errors
///
/// - `Failed`, if there is no such element.
/// - As reading, if the text is no value; `OutOfMemory` where there is no memory for the text.
pub fn growth_before(alloc: Global, collection: &Collection<'_>, index: usize) -> Result<Growth> {
    growth_at(alloc, collection, Which::Index(index), None)
}

/// Returns what comes into the object's text with one more member before this one, as [`growth_before`] says it of an
/// element. The key is spelled like the object's other keys.
///
/// ```text
/// let map = Collection { document: "{ b: 2 }", start: 0, end: 8, names: Names::Quoted };
/// member_growth_before(alloc, &map, Which::Key("b"), "a")?    // the name `a: `, and a comma and a blank after it
/// ```
///
/// # Errors
///
/// As [`growth_before`].
pub fn member_growth_before(
    alloc: Global,
    collection: &Collection<'_>,
    which: Which<'_>,
    key: &str,
) -> Result<Growth> {
    growth_at(alloc, collection, which, Some(key))
}

/// What comes before this entry: an element, or a member with this key.
fn growth_at(
    alloc: Global,
    collection: &Collection<'_>,
    which: Which<'_>,
    key: Option<&str>,
) -> Result<Growth> {
    let text = collection.text();
    let around = find_around(alloc, text, which)?;
    let Some(here) = around.here else {
        return Err(Error::new(ErrorCode::Failed));
    };
    let mut growth = before_entry(alloc, collection, around, here)?;
    growth.count = around.index;
    if let Some(key) = key {
        growth.name = name_like(alloc, collection, Some(here), key)?;
    }
    Ok(growth)
}

/// Puts it before the entry and the comments that belong to that, below a switched-off entry.
fn before_entry(
    alloc: Global,
    collection: &Collection<'_>,
    around: Around,
    here: Spot,
) -> Result<Growth> {
    let text = collection.text();
    let from = after_switched_off(alloc, text, around.from(), here.start)?;
    let gap = Gap::of(text, from, here.start);
    if gap.line_end.is_some() {
        let trail = joined(alloc, &[",", collection.line_end()])?;
        let indent = indentation(text, here.start);
        put(alloc, gap.lead, gap.lead, indent, trail.as_str())
    } else {
        let trail = joined(alloc, &[",", blank_before(text, here)])?;
        put(alloc, gap.own, gap.own, "", trail.as_str())
    }
}

/// The key of what is added, and the colon with its blanks; nothing in an array.
fn name(
    alloc: Global,
    collection: &Collection<'_>,
    around: Around,
    added: Added<'_>,
) -> Result<String> {
    let BracketKind::Object = added.kind else {
        return Ok(String::new(alloc));
    };
    name_like(alloc, collection, around.before, added.key)
}

/// A key, and the colon with the blanks that this member has around its own.
fn name_like(
    alloc: Global,
    collection: &Collection<'_>,
    other: Option<Spot>,
    key: &str,
) -> Result<String> {
    let key = key_for(alloc, collection, key)?;
    let colon = match other {
        Some(spot) => colon_like(between(collection.text(), spot.key_end, spot.value)),
        None => ": ",
    };
    joined(alloc, &[key.as_str(), colon])
}

/// A colon with the blanks that another has, unless they hold more.
fn colon_like(colon: &str) -> &str {
    for c in colon.chars() {
        if !matches!(c, ' ' | ':') {
            return ": ";
        }
    }
    colon
}

/// The line on which a new entry stands at the end.
#[derive(Clone, Copy, Drop)]
enum Line {
    /// One of its own, indented like that with this offset.
    Own(usize),
    /// One of its own, a step further in than that on which the collection begins.
    Inner,
    /// That of the last entry or comment, or of the bracket.
    Same,
}

/// The line on which a new entry stands at the end, with lines of its own if it `is_long` and there is no other.
fn line_in(text: &str, around: Around, is_long: bool) -> Line {
    match around.before {
        Some(last) => line_after(text, around.close, last),
        None => line_between(Gap::of(text, 1, around.close), text, is_long),
    }
}

/// The line on which a new entry stands after the last one.
fn line_after(text: &str, close: usize, last: Spot) -> Line {
    if last.begins_line(text) {
        return Line::Own(last.start);
    }
    let gap = Gap::of(text, last.full_end(), close);
    if gap.line_end.is_some() && gap.tail > last.full_end() {
        Line::Inner
    } else {
        Line::Same
    }
}

/// The line on which a new entry stands between the brackets, where nothing but comments is.
fn line_between(gap: Gap, text: &str, is_long: bool) -> Line {
    match gap.line_end {
        Some(_) if gap.mark > 1 && line_start(text, gap.mark) > 0 => Line::Own(gap.mark),
        None if !is_long => Line::Same,
        _ => Line::Inner,
    }
}

/// Puts it after the last one.
fn after_last(
    alloc: Global,
    collection: &Collection<'_>,
    close: usize,
    last: Spot,
    line: Line,
) -> Result<Growth> {
    let text = collection.text();
    let gap = Gap::of(text, last.full_end(), close);
    let comma = last.comma.is_none();
    let after = if comma { "" } else { "," };
    let (at, lead) = match line {
        Line::Same => (gap.tail, joined(alloc, &[blank_before(text, last)])?),
        _ => (last.end, on_own_line(alloc, collection, line)?),
    };
    let mut growth = put(alloc, gap.tail, gap.tail, lead.as_str(), after)?;
    growth.comma = comma;
    growth.at = at;
    Ok(growth)
}

/// What comes before an entry on a line of its own.
fn on_own_line(alloc: Global, collection: &Collection<'_>, line: Line) -> Result<String> {
    let end = collection.line_end();
    if let Line::Own(at) = line {
        return joined(alloc, &[end, indentation(collection.text(), at)]);
    }
    let inner = inner_indentation(alloc, collection)?;
    joined(alloc, &[end, inner.as_str()])
}

/// What stands between a comma and an entry: nothing, if the last entry stands right after a comma.
fn blank_before(text: &str, last: Spot) -> &'static str {
    if between(text, 0, last.start).ends_with(",") {
        ""
    } else {
        " "
    }
}

/// How what stands on lines within the collection is indented.
fn inner_indentation(alloc: Global, collection: &Collection<'_>) -> Result<String> {
    let step = collection.step(alloc)?;
    joined(alloc, &[collection.indentation_at(0), step])
}

/// What stands between the brackets and a single entry.
fn blank_beside(kind: BracketKind) -> &'static str {
    match kind {
        BracketKind::Array => "",
        BracketKind::Object => " ",
    }
}

/// Puts it between the brackets, where nothing but comments is: after these, if there are any.
fn into_empty(
    alloc: Global,
    collection: &Collection<'_>,
    close: usize,
    line: Line,
    kind: BracketKind,
) -> Result<Growth> {
    let gap = Gap::of(collection.text(), 1, close);
    let blank = blank_beside(kind);
    match (line, gap.mark > 1) {
        (Line::Same, true) => put(alloc, gap.mark, gap.mark, " ", ""),
        (Line::Same, false) => put(alloc, 1, close, blank, blank),
        (_, true) if gap.line_end.is_some() => {
            let lead = on_own_line(alloc, collection, line)?;
            put(alloc, gap.mark, gap.mark, lead.as_str(), "")
        }
        _ => {
            let last = joined(
                alloc,
                &[collection.line_end(), collection.indentation_at(0)],
            )?;
            let lead = on_own_line(alloc, collection, line)?;
            put(alloc, gap.mark, close, lead.as_str(), last.as_str())
        }
    }
}

/// Puts a first element in the place of the blanks between these offsets, without a comma before it: with this before it,
/// and this after it.
fn put(alloc: Global, start: usize, end: usize, lead: &str, trail: &str) -> Result<Growth> {
    Ok(Growth {
        count: 0,
        comma: false,
        at: start,
        start,
        end,
        lead: joined(alloc, &[lead])?,
        name: String::new(alloc),
        trail: joined(alloc, &[trail])?,
    })
}
