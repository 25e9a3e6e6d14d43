//! Where a position is in a text, for editors: its offset in bytes, and its column in UTF-16.
//!
//! ```text
//! let offset = error.position()?.offset_in(text)?;    // so that `&text[offset..]` begins with the fault
//! ```

ghost use Rattle.std.specs.Prelude.{◌≡◌, ◌≢◌, ◌↔◌, ◌+◌, ◌<◌, false, IsTrue};
ghost use Rattle.std.specs.Str.{chars};
ghost use Rattle.json5_grammar.specs.Model.PositionSteps.{position_step};
ghost use Rattle.json5_tokens.specs.Places.{FindsOffset, FindsColumn, AreUnitsOfLine};

use crate::char::is_json5_line_terminator;
use json5_types::Position;

/// Where a position is in a text.
pub trait InText {
    /// Returns the position's offset in the text, in bytes; None if the text doesn't have it. A CR LF is one line terminator, so
    /// the position after it is that after its CR: the offset is that after both.
    ///
    /// ```text
    /// Position { line: 1, column: 1 }.offset_in("[1,\n 2]")    // Some(5), that of the `2`
    /// ```
    fn offset_in(&self, text: &str) -> Option<usize>;

    /// Returns how many units of UTF-16 come before the position in its line; None if the text doesn't have it. Editors count
    /// columns so.
    ///
    /// ```text
    /// Position { line: 0, column: 2 }.utf16_column("'😀'")    // Some(3)
    /// ```
    fn utf16_column(&self, text: &str) -> Option<usize>;
}

impl InText for Position {
    fn offset_in(&self, text: &str) -> Option<usize>
        ensures { FindsOffset text.now self.now result }
    {
        offset_of(*self, text)
    }

    fn utf16_column(&self, text: &str) -> Option<usize>
        ensures { FindsColumn text.now self.now result }
    {
        let offset = offset_of(*self, text)?;
        let (before, _) = text.split_at(offset);
        Some(utf16_units(before))
    }
}

/// The offset of a position, if the text has it.
fn offset_of(wanted: Position, text: &str) -> Option<usize>
    ensures { FindsOffset text.now wanted result }
{
    let mut offset = 0;
    let mut position = Position { line: 0, column: 0 };
    let mut is_after_cr = false;
    for c in text.chars() {
        let next = stepped(position, is_after_cr, c);
        if is_passed(position, next, wanted) {
            return Some(offset);
        }
        position = next;
        is_after_cr = c == '\r';
        offset += c.len_utf8();
    }
    if is_same(position, wanted) {
        Some(offset)
    } else {
        None
    }
}

/// Whether the positions are the same.
fn is_same(position: Position, other: Position) -> bool
    ensures { IsTrue result ↔ position ≡ other }
{
    position == other
}

/// Whether the position is the wanted one, and the next one isn't. (The one after a CR LF is that after its CR.)
fn is_passed(position: Position, next: Position, wanted: Position) -> bool
    ensures found { IsTrue result → position ≡ wanted }
    ensures moves { IsTrue result → next ≢ position }
    ensures passed { result ≡ false → position ≡ wanted → next ≡ position }
{
    position == wanted && next != position
}

/// The position after one more character; `is_after_cr` says that a CR is right before it.
fn stepped(position: Position, is_after_cr: bool, c: char) -> Position
    requires { position.line + position.column < usize.MAX }
    ensures { result ≡ position_step position is_after_cr c }
{
    if is_after_cr && c == '\n' {
        return position;
    }
    if is_json5_line_terminator(c) {
        return Position {
            line: position.line + 1,
            column: 0,
        };
    }
    Position {
        line: position.line,
        column: position.column + 1,
    }
}

/// Returns how many units of UTF-16 the last line of the text has.
///
/// ```text
/// utf16_units("[1,\n '😀")    // 4
/// ```
pub fn utf16_units(text: &str) -> usize
    ensures { AreUnitsOfLine (chars text.now) result }
{
    let mut units = 0;
    for c in text.chars() {
        if is_json5_line_terminator(c) {
            units = 0;
        } else {
            units += c.len_utf16();
        }
    }
    units
}
