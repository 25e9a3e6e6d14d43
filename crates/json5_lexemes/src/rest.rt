//! What is left of a text that is compared with another.

ghost use Rattle.std.specs.Prelude.{◌≡◌, ◌<◌, ◌≤◌, ◌↔◌, IsTrue, false, length, slice_get, slice_index};
ghost use Rattle.json5_tokens.specs.Scan.{IsFront, StartsWith};
ghost use Rattle.json5_lexemes.specs.PlainSteps.{BeginsWith, IsPast};
ghost use Rattle.json5_lexemes.specs.Runs.{PassesRun, PassesSeparators};
ghost use Rattle.json5_lexemes.specs.SameSteps.{Takes};

use crate::runs::{Run, is_solid, separators_len};
use std::marker::Model;

/// What is left of a text.
#[derive(Drop)]
pub(crate) struct Rest<'x> {
    text: &'x str,
}

impl<'x> Model for Rest<'x> {
    ghost use Rattle.std.specs.Str.{chars};
    ghost use Rattle.json5_tokens.specs.Cursor.{Cursor};

    ghost Value = { Cursor };

    ghost view = { λ s. record { input = chars s.text.now; unread = chars s.text.now } };
}

impl<'x> Rest<'x> {
    ghost use Rattle.std.specs.Str.{chars};

    /// The whole text.
    pub(crate) fn new(text: &'x str) -> Rest<'x>
        ensures { result.unread ≡ chars text.now }
    {
        Rest { text }
    }

    /// The same rest once more.
    #[inline(always)]
    pub(crate) fn again(&self) -> Rest<'x>
        ensures { result ≡ self.now }
    {
        Rest { text: self.text }
    }

    /// Goes to where the other rest of the same text is.
    #[inline(always)]
    pub(crate) fn go_to(&mut self, other: &Rest<'x>)
        ensures { self.new ≡ other.now }
    {
        self.text = other.text;
    }

    /// The next character, which stays unread; None at the end.
    #[inline(always)]
    pub(crate) fn peek(&self) -> Option<char>
        ensures { result ≡ slice_get self.now.unread 0 }
    {
        self.text.chars().next()
    }

    /// Whether a lexeme is surely next.
    #[inline(always)]
    pub(crate) fn begins_lexeme(&self) -> bool {
        is_solid(self.text.as_bytes(), 0)
    }

    /// Takes the character if it is next, and says whether it was.
    #[inline(always)]
    pub(crate) fn eat(&mut self, c: char) -> bool
        ensures taken { IsTrue result → Takes c self.old self.new }
        ensures kept { (result ≡ false) → self.new ≡ self.old }
    {
        let mut rest = self.text.chars();
        let Some(next) = rest.next() else {
            return false;
        };
        if next != c {
            return false;
        }
        self.text = rest.as_str();
        true
    }
}

/// Returns the first character, and what follows it.
///
/// ```text
/// front("80")    // Some(('8', "0"))
/// ```
#[inline(always)]
pub fn front(text: &str) -> Option<(char, &str)>
    ensures { IsFront text.now result }
{
    let mut rest = text.chars();
    let c = rest.next()?;
    Some((c, rest.as_str()))
}

/// What follows the first character, which is of ASCII.
#[inline(always)]
pub(crate) fn past_first(text: &str) -> &str
    requires some { 0 < length text.now }
    requires ascii { slice_index text.now 0 < 128 }
    ensures { StartsWith text.now (slice_index text.now 0) result.now }
{
    text.split_at(1).1
}

/// Whether the byte is in front.
#[inline(always)]
fn begins_with(bytes: &[u8], byte: u8) -> bool
    ensures { IsTrue result ↔ BeginsWith byte bytes.now }
{
    !bytes.is_empty() && bytes[0] == byte
}

/// Returns what follows the character of ASCII, if it is in front.
///
/// ```text
/// past_byte("[1]", b'[')    // Some("1]")
/// ```
#[inline(always)]
pub fn past_byte(text: &str, byte: u8) -> Option<&str>
    requires { byte < 128 }
    ensures { IsPast byte text.now result }
{
    if !begins_with(text.as_bytes(), byte) {
        return None;
    }
    Some(past_first(text))
}

/// Passes over blanks and commas, but for some.
#[inline(always)]
pub(crate) fn pass_separator_run(text: &mut Rest<'_>)
    ensures { PassesSeparators text.old text.new }
{
    let len = separators_len(text.text.as_bytes());
    let Some((_, rest)) = text.text.split_at_checked(len) else {
        return;
    };
    text.text = rest;
}

/// Passes over a run, as long as it is the same in both texts.
#[inline(always)]
pub(crate) fn pass_run<'x>(left: &mut Rest<'x>, right: &mut Rest<'x>, run: Run)
    ensures { PassesRun run left.old right.old left.new right.new }
{
    let len = run.shared_len(left.text.as_bytes(), right.text.as_bytes());
    let Some((_, left_rest)) = left.text.split_at_checked(len) else {
        return;
    };
    let Some((_, right_rest)) = right.text.split_at_checked(len) else {
        return;
    };
    left.text = left_rest;
    right.text = right_rest;
}
