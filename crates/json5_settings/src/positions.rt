//! Where a fault is told.

ghost use Rattle.std.specs.Prelude.{◌≡◌, take};
ghost use Rattle.std.specs.Str.{IsCharBoundary, chars};
ghost use Rattle.json5_grammar.specs.Faults.Positions.{position_after};

use json5_types::Position;

/// The position of an offset in bytes at which a character begins.
pub(crate) fn position_of(text: &str, offset: usize) -> Position
    ensures { IsCharBoundary text.now offset → result ≡ position_after (chars (take offset text.now)) }
{
    match text.get(..offset) {
        Some(front) => Position::after(front),
        None => Position::after(text),
    }
}
