//! The lines in which a text and the same text tidied differ.
//!
//! Tidying changes white space and commas alone. So the lines are aligned by the count of other characters before
//! them, in one pass.

use std::alloc::{AllocError, Global};

/// A place between two lines of a text.
#[derive(Clone, Copy, Drop)]
pub(crate) struct Place {
    /// The offset.
    pub(crate) at: usize,
    /// How many lines are before it.
    pub(crate) line: usize,
    /// How many characters from `!` to `~` but commas are before it.
    pub(crate) solid: usize,
}

/// Places between lines in both texts.
#[derive(Clone, Copy, Drop)]
pub(crate) struct Places {
    pub(crate) before: Place,
    pub(crate) after: Place,
}

/// Lines that differ.
#[derive(Clone, Copy, Drop)]
pub(crate) struct Block {
    pub(crate) start: Places,
    pub(crate) end: Places,
}

const FIRST: Place = Place {
    at: 0,
    line: 0,
    solid: 0,
};

/// The blocks of lines that differ, with at least one equal line between two.
pub(crate) fn blocks(alloc: Global, before: &[u8], after: &[u8]) -> Result<Vec<Block>, AllocError> {
    let mut found = Vec::new(alloc);
    let mut at = Places {
        before: FIRST,
        after: FIRST,
    };
    for _ in 0..u64::MAX {
        if at.before.at >= before.len() && at.after.at >= after.len() {
            return Ok(found);
        }
        let (next, is_equal) = step(before, after, at);
        if !is_equal {
            note(
                &mut found,
                Block {
                    start: at,
                    end: next,
                },
            )?;
        }
        at = next;
    }
    Ok(found)
}

/// Appends the block, or extends the last one if no equal line is between them.
fn note(found: &mut Vec<Block>, block: Block) -> Result<(), AllocError> {
    if let Some(last) = found.last_mut() {
        if last.end.before.at == block.start.before.at
            && last.end.after.at == block.start.after.at
        {
            last.end = block.end;
            return Ok(());
        }
    }
    found.push(block)?;
    Ok(())
}

/// Passes over equal lines, or over lines that differ up to where the texts have come equally far; and says which.
fn step(before: &[u8], after: &[u8], at: Places) -> (Places, bool) {
    let next = Places {
        before: after_line(before, at.before),
        after: after_line(after, at.after),
    };
    if line_of(before, at.before, next.before) == line_of(after, at.after, next.after) {
        return (next, true);
    }
    if is_blank(at.before, next.before) {
        return (
            Places {
                before: next.before,
                ..at
            },
            false,
        );
    }
    if is_blank(at.after, next.after) {
        return (
            Places {
                after: next.after,
                ..at
            },
            false,
        );
    }
    (level(before, after, next), false)
}

/// Whether the line between these places, if there is one, is blank.
fn is_blank(start: Place, end: Place) -> bool {
    end.at > start.at && end.solid == start.solid
}

/// Passes over lines up to where the texts have come equally far.
fn level(before: &[u8], after: &[u8], from: Places) -> Places {
    let mut at = from;
    for _ in 0..u64::MAX {
        if at.before.solid < at.after.solid && at.before.at < before.len() {
            at.before = after_line(before, at.before);
        } else if at.after.solid < at.before.solid && at.after.at < after.len() {
            at.after = after_line(after, at.after);
        } else {
            return at;
        }
    }
    at
}

/// The place after the line that begins here; the same place at the end of the text.
pub(crate) fn after_line(text: &[u8], place: Place) -> Place {
    let mut next = place;
    while next.at < text.len() {
        let byte = text[next.at];
        next.at += 1;
        if byte == b'\n' {
            next.line = next.line.saturating_add(1);
            return next;
        }
        if byte > b' ' && byte < 127 && byte != b',' {
            next.solid = next.solid.saturating_add(1);
        }
    }
    if next.at > place.at {
        next.line = next.line.saturating_add(1);
    }
    next
}

/// The place some lines, at most three, before this one.
pub(crate) fn lines_before(text: &[u8], place: Place, count: usize) -> Place {
    let mut back = place;
    for _ in 0..count {
        back = line_before(text, back);
    }
    back
}

/// The place a line before this one; the same place at the start of the text. What is solid before it isn't counted.
fn line_before(text: &[u8], place: Place) -> Place {
    if place.at == 0 || place.at > text.len() {
        return place;
    }
    let mut at = place.at - 1;
    while at > 0 && text[at - 1] != b'\n' {
        at -= 1;
    }
    Place {
        at,
        line: place.line.saturating_sub(1),
        solid: place.solid,
    }
}

/// The line, or the lines, between these places.
pub(crate) fn line_of(text: &[u8], start: Place, end: Place) -> &[u8] {
    text.get(start.at..end.at).unwrap_or(b"")
}
