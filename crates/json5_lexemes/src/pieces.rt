//! The pieces of what stands between two tokens: blanks, line ends and comments.

ghost use Rattle.std.specs.Prelude.{◌≡◌, ◌∷◌, true};
ghost use Rattle.std.specs.Str.{chars};
ghost use Rattle.json5_grammar.specs.Language.Characters.{is_terminator, slash_sign};
ghost use Rattle.json5_lexemes.specs.Pieces.{PassesPiece, TakesLineEnd};

use crate::plain::skip_comment;
use crate::rest::{front, past_byte};
use json5_tokens::char::{is_json5_line_terminator, is_json5_whitespace};
use std::marker::Model;

/// A piece of what stands between two tokens.
///
/// ```text
/// Pieces::new("// one\r\n80").next()    // Line, and next LineEnd
/// ```
#[derive(Clone, Copy, Drop)]
pub enum Piece {
    /// A blank that ends no line.
    Blank,
    /// A line terminator, or CR LF.
    LineEnd,
    /// A `//` comment, without its line end.
    Line,
    /// A `/* */` comment.
    Block,
}

/// The pieces in front of a text, one after another, up to a character that begins none. A comment that isn't closed is
/// none.
///
/// ```text
/// let mut pieces = Pieces::new("/* one */ 80");
/// while let Some(piece) = pieces.next() {    // Block, and Blank
///     ..
/// }
/// pieces.as_str()                            // 80
/// ```
#[derive(Drop)]
pub struct Pieces<'x> {
    text: &'x str,
}

impl<'x> Model for Pieces<'x> {
    ghost use Rattle.std.specs.Prelude.{ℕ, List};
    ghost use Rattle.std.specs.Str.{chars};

    ghost Value = { List ℕ };

    ghost view = { λ s. chars s.text.now };
}

impl<'x> Pieces<'x> {
    /// The pieces in front of the text.
    ///
    /// ```text
    /// Pieces::new(" 80").next()    // Blank
    /// ```
    pub fn new(text: &'x str) -> Pieces<'x>
        ensures { result ≡ chars text.now }
    {
        Pieces { text }
    }

    /// What follows the pieces that were passed.
    ///
    /// ```text
    /// Pieces::new(" 80").as_str()    // a blank and 80
    /// ```
    pub fn as_str(&self) -> &'x str
        ensures { chars result.now ≡ self.now }
    {
        self.text
    }
}

impl<'x> Iterator for Pieces<'x> {
    ghost use Rattle.std.specs.Prelude.{length};
    ghost use Rattle.std.specs.Iterator.{at_most};
    ghost use Rattle.json5_lexemes.specs.Pieces.{NextPiece};

    type Item = Piece;

    ghost next_gives = { NextPiece };

    ghost remaining = { λ s. at_most (length s) };

    fn next(&mut self) -> Option<Piece> {
        let Some((piece, rest)) = pass_piece(self.text) else {
            return None;
        };
        self.text = rest;
        Some(piece)
    }
}

/// The piece in front, and what follows it.
fn pass_piece(text: &str) -> Option<(Piece, &str)>
    ensures { PassesPiece (chars text.now) result }
{
    let Some((c, after)) = front(text) else {
        return None;
    };
    if c == '/' {
        return pass_comment(after);
    }
    if is_json5_line_terminator(c) {
        return Some((Piece::LineEnd, skip_line_end(c, after)));
    }
    if is_json5_whitespace(c) {
        return Some((Piece::Blank, after));
    }
    None
}

/// The same of a comment, after its first slash.
fn pass_comment(after: &str) -> Option<(Piece, &str)>
    ensures { PassesPiece (slash_sign ∷ chars after.now) result }
{
    let Some(rest) = skip_comment(after) else {
        return None;
    };
    match past_byte(after, b'*') {
        Some(_) => Some((Piece::Block, rest)),
        None => Some((Piece::Line, rest)),
    }
}

/// What follows the line end that begins with this character, which was taken.
fn skip_line_end(c: char, after: &str) -> &str
    requires { is_terminator c ≡ true }
    ensures { TakesLineEnd (c ∷ chars after.now) (chars result.now) }
{
    if c != '\r' {
        return after;
    }
    match past_byte(after, b'\n') {
        Some(rest) => rest,
        None => after,
    }
}
