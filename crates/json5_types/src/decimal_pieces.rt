//! The spelling of a decimal, in pieces.

ghost use Rattle.std.specs.Prelude.{◌≡◌, ◌≤◌, ◌++◌, [], MatchOption};
ghost use Rattle.json5_grammar.specs.Language.Characters.{is_digit, Each};
ghost use Rattle.json5_grammar.specs.Written.NumberText.{zeros, digits_text};
ghost use Rattle.json5_types.specs.DecimalPieces.{BeginsWithPiece};

use std::marker::Model;
use std::mem;

/// What is left of a decimal's spelling: the four strings one after the other, and `count` zeros before the third.
///
/// ```text
/// let mut pieces = decimal.pieces();
/// while let Some(piece) = pieces.next_piece() {
///     f.write_str(piece)?;
/// }
/// ```
#[derive(Drop)]
pub struct Pieces<'a> {
    sign: &'static str,
    first: &'a str,
    count: usize,
    point: &'static str,
    last: &'a str,
}

impl<'a> Model for Pieces<'a> {
    ghost use Rattle.std.specs.Prelude.{ℕ, List, ◌++◌};
    ghost use Rattle.json5_grammar.specs.Written.NumberText.{zeros};

    ghost Value = { List ℕ };

    ghost view = { λ p. p.sign.now ++ (p.first.now ++ (zeros p.count ++ (p.point.now ++ p.last.now))) };
}

/// 64 zeros.
fn many_zeros() -> &'static str
    ensures { result.now ≡ zeros 64 }
{
    "0000000000000000000000000000000000000000000000000000000000000000"
}

/// At most 64 zeros.
fn few_zeros(count: usize) -> &'static str
    requires { count ≤ 64 }
    ensures { result.now ≡ zeros count }
{
    many_zeros().split_at(count).0
}

impl<'a> Pieces<'a> {
    /// The text of the sign, the first part, `count` zeros, the point and the last part.
    fn new(
        sign: &'static str,
        first: &'a str,
        count: usize,
        point: &'static str,
        last: &'a str,
    ) -> Pieces<'a>
        ensures { result ≡ sign.now ++ (first.now ++ (zeros count ++ (point.now ++ last.now))) }
    {
        Pieces {
            sign,
            first,
            count,
            point,
            last,
        }
    }

    /// A word after a sign.
    pub(crate) fn of_word(sign: &'static str, word: &'static str) -> Pieces<'a>
        ensures { result ≡ sign.now ++ word.now }
    {
        Pieces::new(sign, word, 0, "", "")
    }

    /// Digits times ten to the exponent in plain notation, after a sign: as many zeros as the exponent says
    /// and `.0`, or the point within the digits or before them. Without digits it is `0.0`.
    pub(crate) fn of_digits(sign: &'static str, digits: &'a str, exponent: i16) -> Pieces<'a>
        requires { Each is_digit digits.now }
        ensures { result ≡ sign.now ++ digits_text digits.now exponent }
    {
        if digits.is_empty() {
            return Pieces::of_word(sign, "0.0");
        }
        let places = usize::from(exponent.unsigned_abs());
        if exponent >= 0 {
            return Pieces::new(sign, digits, places, ".0", "");
        }
        if places < digits.len() {
            let (before, after) = digits.split_at(digits.len() - places);
            return Pieces::new(sign, before, 0, ".", after);
        }
        Pieces::new(sign, "0.", places - digits.len(), "", digits)
    }

    /// Returns the next piece of the text, and takes it away; none at the end.
    ///
    /// ```text
    /// pieces.next_piece()    // of -1500.0: `-`, then `15`, then `00`, then `.0`, then None
    /// ```
    pub fn next_piece(&mut self) -> Option<&'a str>
        ensures { MatchOption result (self.old ≡ []) (λ piece. BeginsWithPiece self.old piece.now self.new) }
    {
        if !self.sign.is_empty() {
            return Some(mem::replace(&mut self.sign, ""));
        }
        if !self.first.is_empty() {
            return Some(mem::replace(&mut self.first, ""));
        }
        if self.count > 0 {
            let count = self.count.min(64);
            self.count -= count;
            return Some(few_zeros(count));
        }
        if !self.point.is_empty() {
            return Some(mem::replace(&mut self.point, ""));
        }
        if !self.last.is_empty() {
            return Some(mem::replace(&mut self.last, ""));
        }
        None
    }
}
