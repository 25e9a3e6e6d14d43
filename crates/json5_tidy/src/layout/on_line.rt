//! Writes a collection on the rest of a line, where it fits.

use crate::layout::asks::is_ignore;
use crate::layout::entries::has_entry;
use crate::layout::lexemes::{Kind, Lexeme, lexeme_at};
use crate::layout::made::Made;
use crate::layout::measure::{Fit, Measure};
use std::alloc::AllocError;

/// Writes the collection whose opening bracket ends here, if it can be on one line, with so many columns or bytes after
/// that bracket. It can't if a `//` comment or a line end in a lexeme is in it, or a comment that leaves an entry as it
/// is, or a line ends between a bracket and its first token. Returns where it ends, or how far it was looked at.
pub(crate) fn put_in_line(
    made: &mut Made,
    bytes: &[u8],
    from: usize,
    is_object: bool,
    room: usize,
    counts_columns: bool,
) -> Result<(Fit, usize), AllocError> {
    let mark = made.mark();
    let mut measure = Measure::new(is_object, room, counts_columns);
    let mut at = from;
    loop {
        let lexeme = lexeme_at(bytes, at);
        if measure.is_broken_by(lexeme) || is_ignore_in_line(bytes, lexeme) {
            made.take_back(mark);
            return Ok((Fit::Breaks, at));
        }
        at = lexeme.end;
        if !put_measured(made, bytes, &mut measure, lexeme)? {
            made.take_back(mark);
            return Ok((Fit::Wide, at));
        }
        if measure.is_over() {
            return Ok((Fit::Fits, at));
        }
    }
}

/// Writes the lexeme, and what stands before it, if there is room for both.
#[inline(always)]
fn put_measured(
    made: &mut Made,
    bytes: &[u8],
    measure: &mut Measure,
    lexeme: Lexeme,
) -> Result<bool, AllocError> {
    match lexeme.kind {
        Kind::Comma => {
            measure.pass_comma();
            return Ok(true);
        }
        Kind::Block if measure.is_comma_due() && has_entry(bytes, lexeme.end) => {
            made.comma(bytes)?;
            if !measure.takes_comma() {
                return Ok(false);
            }
        }
        _ => {}
    }
    let byte = bytes.get(lexeme.start).copied().unwrap_or(0);
    let gap = measure.gap(lexeme.kind, byte);
    if !measure.takes(bytes, lexeme, byte, gap) {
        return Ok(false);
    }
    made.part_behind(bytes, gap, lexeme.start, lexeme.end)?;
    Ok(true)
}

/// Whether it is a comment that leaves an entry as it is.
#[inline(always)]
fn is_ignore_in_line(bytes: &[u8], lexeme: Lexeme) -> bool {
    matches!(lexeme.kind, Kind::Block) && is_ignore(lexeme.of(bytes))
}
