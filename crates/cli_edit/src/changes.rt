//! What an edit would change, as a unified diff, which `patch` takes.
//!
//! Plain code but for what is written where: change it by the runs of the program.

ghost use Rattle.std.specs.Prelude.{IfErr, OnOk, ℕ, List};
ghost use Rattle.std.specs.Io.KnownBytes.{Appends};
ghost use Rattle.cli_edit.specs.Works.{ShowsNoChanges};

use crate::trouble::TextTrouble;
use cli_files::put_texts;
use json5_edit::EditError;
use std::alloc::{AllocError, Global};
use std::io::Write;

/// How many equal lines stand before and after those that differ.
const AROUND: usize = 3;

/// How far apart equal lines are looked for.
const FAR: usize = 4000;

/// A line of both texts, or of one.
#[derive(Clone, Copy, Drop)]
struct Row<'t> {
    /// A blank for a line of both, else `-` or `+`.
    mark: &'static str,
    line: &'t str,
}

/// Writes what changes in the file of this name; nothing, if nothing does.
pub(crate) fn show_changes<W: Write>(
    alloc: Global,
    name: &str,
    old: &str,
    new: &str,
    w: &mut W,
) -> Result<(), TextTrouble>
    ensures shown { OnOk result ((changes : List ℕ) × Appends (W.contents w.old) (W.contents w.new) changes) }
    ensures stopped { IfErr result (ShowsNoChanges (W.contents w.old) (W.contents w.new)) }
{
    let Ok(changes) = changes_of(alloc, name, old, new) else {
        return Err(TextTrouble::Edit(EditError::NoMemory));
    };
    match put_texts(w, &[changes.as_str()]) {
        Ok(()) => Ok(()),
        Err(failure) => Err(TextTrouble::Failed(failure)),
    }
}

/// The lines that differ, with those around them.
fn changes_of(alloc: Global, name: &str, old: &str, new: &str) -> Result<String, AllocError> {
    if old == new {
        return Ok(String::new(alloc));
    }
    let mut made = ["--- ", name, "\n+++ ", name, "\n"]
        .as_slice()
        .concat(alloc)?;
    let before = lines_of(alloc, old)?;
    let after = lines_of(alloc, new)?;
    let rows = rows_of(alloc, before.as_slice(), after.as_slice())?;
    push_hunks(alloc, &mut made, rows.as_slice())?;
    Ok(made)
}

/// The lines with their ends.
fn lines_of<'t>(alloc: Global, text: &'t str) -> Result<Vec<&'t str>, AllocError> {
    let mut lines = Vec::new(alloc);
    for line in text.split_inclusive('\n') {
        lines.push(line)?;
    }
    Ok(lines)
}

/// The lines of both texts beside one another.
fn rows_of<'t>(
    alloc: Global,
    before: &[&'t str],
    after: &[&'t str],
) -> Result<Vec<Row<'t>>, AllocError> {
    let mut rows = Vec::new(alloc);
    let (mut at, mut to) = (0usize, 0usize);
    for _ in 0..u64::MAX {
        let (left, right) = (rest_from(before, at), rest_from(after, to));
        if left.is_empty() && right.is_empty() {
            return Ok(rows);
        }
        let (gone, come) = next_equal(left, right);
        push_rows(&mut rows, "-", left, gone)?;
        push_rows(&mut rows, "+", right, come)?;
        push_rows(&mut rows, " ", rest_from(left, gone), 1)?;
        at = at.saturating_add(gone).saturating_add(1);
        to = to.saturating_add(come).saturating_add(1);
    }
    Ok(rows)
}

/// How many lines of both come before the next one that is equal, or all lines.
fn next_equal(left: &[&str], right: &[&str]) -> (usize, usize) {
    for both in 0..FAR {
        for gone in 0..=both {
            let come = both - gone;
            match (left.get(gone), right.get(come)) {
                (Some(one), Some(other)) if *one == *other => return (gone, come),
                _ => {}
            }
        }
    }
    (left.len(), right.len())
}

/// Appends so many of the lines with this mark.
fn push_rows<'t>(
    rows: &mut Vec<Row<'t>>,
    mark: &'static str,
    lines: &[&'t str],
    count: usize,
) -> Result<(), AllocError> {
    for line in lines.iter().take(count) {
        rows.push(Row { mark, line: *line })?;
    }
    Ok(())
}

/// The lines but for so many.
fn rest_from<'t, 's>(lines: &'s [&'t str], count: usize) -> &'s [&'t str] {
    let (_, rest) = lines.split_at(count.min(lines.len()));
    rest
}

/// Appends the rows near those that differ.
fn push_hunks(alloc: Global, made: &mut String, rows: &[Row<'_>]) -> Result<(), AllocError> {
    let (mut before, mut after, mut was_near) = (0usize, 0usize, false);
    for (at, row) in rows.iter().enumerate() {
        let is_near = is_near(rows, at);
        if is_near && !was_near {
            push_head(alloc, made, rows, at, before, after)?;
        }
        if is_near {
            push_row(made, row)?;
        }
        was_near = is_near;
        before = before.saturating_add(usize::from(row.mark != "+"));
        after = after.saturating_add(usize::from(row.mark != "-"));
    }
    Ok(())
}

/// Whether the row differs, or one that is near.
fn is_near(rows: &[Row<'_>], at: usize) -> bool {
    let end = at.saturating_add(AROUND + 1).min(rows.len());
    match rows.get(at.saturating_sub(AROUND)..end) {
        Some(near) => near.iter().any(|row| row.mark != " "),
        None => false,
    }
}

/// Appends which lines of both texts the hunk has that begins at this row, after so many lines.
fn push_head(
    alloc: Global,
    made: &mut String,
    rows: &[Row<'_>],
    at: usize,
    before: usize,
    after: usize,
) -> Result<(), AllocError> {
    let (mut gone, mut come) = (0usize, 0usize);
    for (place, row) in rows.iter().enumerate() {
        if place < at {
            continue;
        }
        if !is_near(rows, place) {
            break;
        }
        gone = gone.saturating_add(usize::from(row.mark != "+"));
        come = come.saturating_add(usize::from(row.mark != "-"));
    }
    let (before, after) = (before.saturating_add(1), after.saturating_add(1));
    let head = format!(in alloc; "@@ -{before},{gone} +{after},{come} @@\n")?;
    made.push_str(head.as_str())
}

fn push_row(made: &mut String, row: &Row<'_>) -> Result<(), AllocError> {
    made.push_str(row.mark)?;
    made.push_str(row.line)?;
    if row.line.ends_with("\n") {
        return Ok(());
    }
    made.push_str("\n\\ No newline at end of file\n")
}
