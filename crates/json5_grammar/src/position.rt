//! Positions in a text.
ghost use Rattle.std.specs.Prelude.{◌≡◌, ◌+◌, ◌<◌, ◌++◌, Some, take, decimal};
ghost use Rattle.std.specs.Str.{IsCharBoundary, chars};
ghost use lib.Chars.{codes};
ghost use Rattle.json5_grammar.specs.Faults.Positions.{position_after};
ghost use Rattle.json5_grammar.specs.Model.PositionSteps.{position_step};

use std::fmt;

/// A line and a column, both counted from 0. The column counts characters, not bytes. It prints with both counted from 1.
///
/// ```text
/// let position = Position::from_offset(4, "[1,\n 2]");    // the space: line 1, column 0
/// format!(in alloc; "{position}")?                       // line 2 column 1
/// ```
#[derive(Clone, Copy, Debug, PartialEq, Eq)]
pub struct Position {
    /// How many line terminators come before, CR LF counting as one.
    pub line: usize,
    /// How many characters come between the last line terminator and the position.
    pub column: usize,
}

impl Position {
    /// Returns the position of an offset in a text. The offset counts bytes; a character begins there, or the text ends. Line
    /// terminators are LF, CR, U+2028 and U+2029, and a CR LF that is wholly before the offset is one (ECMAScript 5.1 section
    /// 7.3).
    ///
    /// ```text
    /// Position::from_offset(4, "[1,\n 2]")    // the space: line 1, column 0
    /// ```
    pub fn from_offset(offset: usize, input: &str) -> Position
        requires { IsCharBoundary input.now offset }
        ensures { result ≡ position_after (chars (take offset input.now)) }
    {
        Position::after(&input[..offset])
    }

    /// Returns the position right after a text, counted from the text's start.
    ///
    /// ```text
    /// Position::after("[1,\n 2")    // line 1, column 2
    /// ```
    pub fn after(text: &str) -> Position
        ensures { result ≡ position_after (chars text.now) }
    {
        let mut position = Position { line: 0, column: 0 };
        let mut is_after_cr = false;
        for c in text.chars() {
            position = position.step(is_after_cr, c);
            is_after_cr = c == '\r';
        }
        position
    }

    /// The position after one more character; `is_after_cr` says that a CR is right before it.
    fn step(self, is_after_cr: bool, c: char) -> Position
        requires { self.line + self.column < usize.MAX }
        ensures { result ≡ position_step self is_after_cr c }
    {
        if is_after_cr && c == '\n' {
            return self;
        }
        match c {
            '\n' | '\r' | '\u{2028}' | '\u{2029}' => Position {
                line: self.line + 1,
                column: 0,
            },
            _ => Position {
                line: self.line,
                column: self.column + 1,
            },
        }
    }
}

/// Prints `line L column C`, each one more than the field.
impl fmt::Display for Position {
    ghost output = { λ p. Some (codes "line " ++ decimal (p.line + 1) ++ codes " column " ++ decimal (p.column + 1)) };

    fn fmt<W: fmt::Write>(&self, f: &mut fmt::Formatter<W>) -> fmt::Result {
        let line = self.line as u128 + 1;
        let column = self.column as u128 + 1;
        write!(f, "line {line} column {column}")
    }
}
