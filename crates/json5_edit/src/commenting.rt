//! Puts a comment before an entry.

ghost use Rattle.std.specs.Prelude.{IfOk, IfErr, OnOk, string_bytes};
ghost use Rattle.std.specs.Str.{chars};
ghost use Rattle.json5_edit_style.specs.Comments.{IsLead};
ghost use Rattle.json5_edit.specs.Commented.{Comments, IsCommented};
ghost use Rattle.json5_edit.specs.Pieces.{Recomments};
ghost use Rattle.json5_edit.specs.Refusals.{RefusesComment};
ghost use Rattle.json5_edit.specs.Spots.{HasEntry};

use crate::changing::{check_fits, collection, part_text, which};
use crate::comparing::{check_same, kind};
use crate::faults::{EditError, Result, Unmade};
use crate::paths::Step;
use crate::pieces::split;
use crate::plain::entry_found;
use crate::setting::{join, place_of, splice};
use crate::survey::limit_of;
use json5_edit_style::comments::is_lead;
use json5_edit_style::{Collection, cut_for, indentation, line_end};
use json5_types::nesting::Limit;
use std::alloc::{AllocError, Global};

/// The characters that end a line.
pub(crate) const LINE_ENDS: [char; 4] = ['\n', '\r', '\u{2028}', '\u{2029}'];

/// Returns the text with this comment before the element or the member that the path leads to, in the place of the
/// comments that belong to it there: one with an empty line below it stays, and so does one that is a switched-off entry,
/// as `// port: 80,`. It stands on lines of its own, each behind `//`, if the entry begins a line or the comment has
/// several, else between `/*` and `*/`. An empty comment takes the others out.
///
/// ```text
/// comment(alloc, "{ port: 80 }", &[Step::Key("port")], "where it listens")?    // { /* where it listens */ port: 80 }
/// ```
///
/// # Errors
///
/// - `Text` with the fault of reading, if the text is no document.
/// - `Nowhere`, if the path leads nowhere or has no step.
/// - `NoMemory` where there is no memory for the text, or for a key with an escape.
pub fn comment(alloc: Global, text: &str, path: &[Step<'_>], comment: &str) -> Result<String>
    ensures commented { IfOk result (λ made. IsCommented text.now path.now (string_bytes made)) }
    ensures refused { IfErr result (RefusesComment text.now path.now) }
{
    let Some((step, outer)) = path.split_last() else {
        return Err(EditError::Nowhere);
    };
    let place = place_of(alloc, text, outer)?;
    let room = limit_of(place);
    let old = part_text(text, place);
    let start = entry_found(alloc, old, *step, room)?.start;
    let collection = collection(text, place);
    let new = commented(alloc, &collection, old, *step, start, comment, room)?;
    splice(alloc, text, place, new.as_str())
}

/// Returns what the comments say that belong to the element or the member that the path leads to and stand before it,
/// each line without its marks and the blanks around it.
///
/// ```text
/// comment_of(alloc, "{ /* where it listens */ port: 80 }", &[Step::Key("port")])?    // where it listens
/// ```
///
/// # Errors
///
/// As [`comment`].
pub fn comment_of(alloc: Global, text: &str, path: &[Step<'_>]) -> Result<String>
    ensures { IfErr result (RefusesComment text.now path.now) }
{
    let Some((step, outer)) = path.split_last() else {
        return Err(EditError::Nowhere);
    };
    let place = place_of(alloc, text, outer)?;
    let room = limit_of(place);
    let old = part_text(text, place);
    let start = entry_found(alloc, old, *step, room)?.start;
    let from = comments_start(alloc, old, *step, start)?;
    Ok(said(alloc, old.get(from..start))?)
}

/// The collection with the comment before the entry that the step goes to, which begins at the offset.
fn commented(
    alloc: Global,
    collection: &Collection<'_>,
    old: &str,
    step: Step<'_>,
    start: usize,
    comment: &str,
    room: Limit,
) -> Result<String, Unmade>
    requires { HasEntry step room old.now start }
    ensures { IfOk result (λ new. Comments step.entry room old.now (string_bytes new)) }
{
    let new = recommented(alloc, collection, old, step, start, comment)?;
    check_same(alloc, old, new.as_str(), kind(step))?;
    check_fits(alloc, new.as_str(), room)?;
    Ok(new)
}

/// The text with the comment right before the offset.
fn recommented(
    alloc: Global,
    collection: &Collection<'_>,
    old: &str,
    step: Step<'_>,
    start: usize,
    comment: &str,
) -> Result<String, Unmade>
    ensures { IfOk result (λ new. Recomments start old.now (string_bytes new)) }
{
    let from = comments_start(alloc, old, step, start)?;
    let (head, back) = split(old, start)?;
    let (front, gone) = split(head, from)?;
    let came = spelled(alloc, collection, front, comment)?;
    let lead = came.as_str();
    check_lead(alloc, front, gone)?;
    check_lead(alloc, front, lead)?;
    Ok(join(alloc, front, lead, back)?)
}

/// Refuses what isn't comments that belong to an entry, after this text.
fn check_lead(alloc: Global, front: &str, lead: &str) -> Result<(), Unmade>
    ensures { OnOk result (IsLead (chars front.now) (chars lead.now)) }
{
    if is_lead(alloc, front, lead) {
        return Ok(());
    }
    Err(Unmade::Failed)
}

/// Where the comments begin that belong to the entry which begins at the offset: there, if there are none.
fn comments_start(alloc: Global, old: &str, step: Step<'_>, start: usize) -> Result<usize, Unmade> {
    let gone = cut_for(alloc, old, which(step))?;
    let Some(lead) = old.get(gone.start..start) else {
        return Ok(start);
    };
    let from = gone
        .start
        .saturating_add(lead.find('/').unwrap_or(lead.len()));
    match (old.get(..from), old.get(from..start)) {
        (Some(front), Some(lead)) if is_lead(alloc, front, lead) => Ok(from),
        _ => Ok(start),
    }
}

/// The comment as it stands after this text, before an entry.
fn spelled(
    alloc: Global,
    collection: &Collection<'_>,
    front: &str,
    comment: &str,
) -> Result<String, AllocError> {
    if comment.is_empty() {
        return Ok(String::new(alloc));
    }
    let begins_line = front.trim_end_matches([' ', '\t']).ends_with(LINE_ENDS);
    if !begins_line && !comment.contains(LINE_ENDS) && !comment.contains("*/") {
        return ["/* ", comment, " */ "].as_slice().concat(alloc);
    }
    let document = collection.document;
    let indent = indentation(document, collection.start.saturating_add(front.len()));
    let line = [line_end(document), indent].as_slice().concat(alloc)?;
    let mut made = String::new(alloc);
    if !begins_line {
        made.push_str(line.as_str())?;
    }
    push_lines(&mut made, comment, line.as_str())?;
    Ok(made)
}

/// Appends each line behind `//`, and what begins the next one.
fn push_lines(made: &mut String, comment: &str, next: &str) -> Result<(), AllocError> {
    for line in comment.lines() {
        made.push_str("//")?;
        if !line.is_empty() {
            made.push_str(" ")?;
        }
        for part in line.split(LINE_ENDS) {
            made.push_str(part)?;
        }
        made.push_str(next)?;
    }
    Ok(())
}

/// What these comments say.
fn said(alloc: Global, comments: Option<&str>) -> Result<String, AllocError> {
    let mut made = String::new(alloc);
    let Some(comments) = comments else {
        return Ok(made);
    };
    for line in comments.split(LINE_ENDS) {
        let words = unmarked(line);
        if !words.is_empty() {
            if !made.is_empty() {
                made.push_str("\n")?;
            }
            made.push_str(words)?;
        }
    }
    Ok(made)
}

/// The line of a comment without its marks and the blanks around it.
fn unmarked(line: &str) -> &str {
    let line = line.trim();
    let line = match line.strip_suffix("*/") {
        Some(front) => front,
        None => line,
    };
    line.trim_start_matches(['/', '*']).trim()
}
