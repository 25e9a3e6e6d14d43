//! Where a fault is in a text.

ghost use Rattle.std.specs.Prelude.{◌≡◌, take};
ghost use Rattle.std.specs.Str.{chars, IsCharBoundary};
ghost use Rattle.json5_types.specs.Errors.{error_position};
ghost use Rattle.json5_tokens.specs.Places.{AreUnitsOfLine};
ghost use Rattle.json5_report.specs.Places.{IsOffsetOf, shown_position};

use json5_tokens::char::is_json5_line_terminator;
use json5_tokens::{InText, utf16_units};
use json5_types::Position;
use json5_types::error::Error;

/// The position of the fault; the text's end, if it has none.
pub(crate) fn position_of(text: &str, error: &Error) -> Position
    ensures { result ≡ shown_position text.now (error_position error.now) }
{
    match error.position() {
        Some(position) => position,
        None => Position::after(text),
    }
}

/// The offset of a position, where the text has it; else the text's length.
pub(crate) fn offset_of(text: &str, wanted: Position) -> usize
    ensures { IsOffsetOf text.now wanted result }
{
    match wanted.offset_in(text) {
        Some(offset) => offset,
        None => text.len(),
    }
}

/// Where the line begins that the offset is in.
pub(crate) fn line_start(text: &str, offset: usize) -> usize {
    let before = text.get(..offset).unwrap_or(text);
    before
        .trim_end_matches(|c| !is_json5_line_terminator(c))
        .len()
}

/// How many units of UTF-16 are in the line before the offset.
pub(crate) fn utf16_column(text: &str, offset: usize) -> usize
    ensures { IsCharBoundary text.now offset → AreUnitsOfLine (chars (take offset text.now)) result }
{
    match text.get(..offset) {
        Some(before) => utf16_units(before),
        None => utf16_units(text),
    }
}
