//! The lines of a written value, put together otherwise. Each is one that json5 or json5_styles writes: it has no line end
//! within a string, two blanks a level, and a comma after the last entry or none.

use crate::seats::{Lines, Seat};
use std::alloc::{AllocError, Global};

/// How many characters the line may have on which a collection stands whole.
const WIDTH: usize = 80;

/// What stands between two lines that are put together.
#[derive(Clone, Copy, Drop)]
enum Joint {
    /// A line end, and blanks as the seat has them.
    Break,
    /// A blank, or nothing beside a bracket of an array.
    Blank,
    /// Nothing.
    Nothing,
}

/// The written value on its lines or on one, as the seat says.
pub(crate) fn arranged(
    alloc: Global,
    seat: &Seat<'_>,
    written: &str,
) -> Result<String, AllocError> {
    match seat.lines {
        Lines::Many => joined(alloc, seat, Joint::Break, written),
        Lines::Tight => joined(alloc, seat, Joint::Nothing, written),
        Lines::Fitting => fitting(alloc, seat, written),
    }
}

/// The written value on one line, if that is short; else on its lines.
fn fitting(alloc: Global, seat: &Seat<'_>, written: &str) -> Result<String, AllocError> {
    let line = joined(alloc, seat, Joint::Blank, written)?;
    let width = seat.column.saturating_add(line.chars().count());
    if width <= WIDTH {
        return Ok(line);
    }
    joined(alloc, seat, Joint::Break, written)
}

/// The lines of the written value, put together so.
fn joined(
    alloc: Global,
    seat: &Seat<'_>,
    joint: Joint,
    written: &str,
) -> Result<String, AllocError> {
    let mut made = String::new(alloc);
    let mut before = "";
    for line in written.split('\n') {
        let next = line.trim_start_matches(' ');
        let levels = line.len().saturating_sub(next.len()) / 2;
        match joint {
            Joint::Break => push_break(&mut made, seat, before, next, levels)?,
            Joint::Blank => push_blank(&mut made, before, next)?,
            Joint::Nothing => push_tight(&mut made, without_last_comma(before, next))?,
        }
        before = next;
    }
    made.push_str(before)?;
    Ok(made)
}

/// Appends a line, a line end, and the blanks before the next line. The first line has an empty one before it.
fn push_break(
    made: &mut String,
    seat: &Seat<'_>,
    line: &str,
    next: &str,
    levels: usize,
) -> Result<(), AllocError> {
    if line.is_empty() {
        return Ok(());
    }
    made.push_str(if seat.has_last_commas {
        line
    } else {
        without_last_comma(line, next)
    })?;
    made.push_str(seat.line_end)?;
    made.push_str(seat.indent.as_str())?;
    for _ in 0..levels {
        made.push_str(seat.step.as_str())?;
    }
    Ok(())
}

/// Appends a line without a last comma, and what stands before the next one.
fn push_blank(made: &mut String, line: &str, next: &str) -> Result<(), AllocError> {
    made.push_str(without_last_comma(line, next))?;
    if line.is_empty() || line.ends_with('[') || next.starts_with(']') {
        return Ok(());
    }
    made.push(' ')
}

/// Appends a line without the blank after its colon, if it has a key.
fn push_tight(made: &mut String, line: &str) -> Result<(), AllocError> {
    let (key, rest) = line.split_at_checked(key_len(line)).unwrap_or((line, ""));
    made.push_str(key)?;
    match rest.strip_prefix(": ") {
        Some(value) => {
            made.push(':')?;
            made.push_str(value)
        }
        None => made.push_str(rest),
    }
}

/// How long the key in front is, or the string, or what comes before a colon.
fn key_len(line: &str) -> usize {
    let quote = match line.chars().next() {
        Some('"') => '"',
        Some('\'') => '\'',
        _ => return line.find(':').unwrap_or(line.len()),
    };
    let mut is_escaped = true;
    for (offset, c) in line.char_indices() {
        if is_escaped {
            is_escaped = false;
        } else if c == quote {
            return offset.saturating_add(1);
        } else {
            is_escaped = c == '\\';
        }
    }
    line.len()
}

/// A line without its comma, if the next one begins with a closing bracket.
fn without_last_comma<'w>(line: &'w str, next: &str) -> &'w str {
    if next.starts_with(']') || next.starts_with('}') {
        line.strip_suffix(',').unwrap_or(line)
    } else {
        line
    }
}
