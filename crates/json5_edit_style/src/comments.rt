//! Which comments belong to an entry.

ghost use Rattle.std.specs.Prelude.{◌≡◌, ◌||◌, ◌&&◌, ℕ, List, true, IsTrue};
ghost use Rattle.std.specs.Str.{chars};
ghost use Rattle.json5_grammar.specs.Language.Characters.{Each, NotBegun, is_blank, is_terminator};
ghost use Rattle.json5_lexemes.specs.SameLexemes.{is_line_part};
ghost use Rattle.json5_edit_style.specs.Comments.{BeginsLine, CommentsAfter, EndsLine, IsLead, IsTrail, is_closing};
ghost use Rattle.json5_edit_style.specs.Passing.{BeginsAfter, BeginsOn, HasAfter, MayFollow, PassesLines, StaysOne};

use json5_lexemes::{Piece, Pieces, front};
use json5_tokens::char::{is_json5_line_terminator, is_json5_whitespace};
use json5_tokens::scanner::Scanner;
use std::alloc::Global;

/// Whether what stands before an entry, after the other text, belongs to it.
pub fn is_lead(alloc: Global, before: &str, lead: &str) -> bool
    ensures { IsTrue result → IsLead (chars before.now) (chars lead.now) }
{
    // The text before is read only where lines of comments need it.
    leads(lead, false) || leads(lead, begins_line(alloc, before))
}

/// Whether this belongs to the entry after it, where a line begins before it or not.
fn leads(lead: &str, begins: bool) -> bool
    ensures { IsTrue result → (before : List ℕ) → (begins ≡ true → BeginsLine before) → IsLead before (chars lead.now) }
{
    let (comments, begins) = past_blanks(lead, begins);
    match comment_lines(comments) {
        Some(one) => one || begins,
        None => false,
    }
}

/// Whether a line begins after the text, but for blanks.
fn begins_line(alloc: Global, text: &str) -> bool
    ensures { BeginsAfter (chars text.now) result }
{
    let mut scanner = Scanner::new(alloc, text);
    let mut begins = false;
    while let Some(c) = scanner.peek() {
        if !scanner.eat(c) {
            return false;
        }
        begins = begins_after(begins, c);
    }
    begins
}

/// Whether a line begins after the character, where one begins before it or not.
fn begins_after(begins: bool, c: char) -> bool
    ensures { result ≡ (is_terminator c || (begins && is_blank c)) }
{
    is_json5_line_terminator(c) || begins && is_json5_whitespace(c)
}

/// What follows the blanks in front, and whether a line begins after them, where one begins before them or not.
fn past_blanks(text: &str, begins: bool) -> (&str, bool)
    ensures { BeginsOn begins (chars text.now) (chars result.0.now) result.1 }
{
    let mut rest = text;
    let mut now = begins;
    while let Some((c, after)) = front(rest) {
        if !is_json5_whitespace(c) {
            return (rest, now);
        }
        rest = after;
        now = begins_after(now, c);
    }
    (rest, now)
}

/// Whether no line ends in blanks and comments in which each line that ends has a comment; None where a line has none, or
/// anything else is there.
fn comment_lines(text: &str) -> Option<bool>
    ensures { PassesLines (chars text.now) result }
{
    let mut has = false;
    let mut one = true;
    let mut pieces = Pieces::new(text);
    while let Some(piece) = pieces.next() {
        let Some(later) = has_after(has, piece) else {
            return None;
        };
        has = later;
        one = stays_one(one, piece);
    }
    if pieces.as_str().is_empty() {
        Some(one)
    } else {
        None
    }
}

/// Whether the line has a comment after this piece, where it has one before it or not; None where it ends without one.
fn has_after(has: bool, piece: Piece) -> Option<bool>
    ensures { HasAfter has piece result }
{
    match piece {
        Piece::Blank => Some(has),
        Piece::LineEnd if has => Some(false),
        Piece::LineEnd => None,
        Piece::Line => Some(true),
        Piece::Block => Some(true),
    }
}

/// Whether no line has ended after this piece, where none has before.
fn stays_one(one: bool, piece: Piece) -> bool
    ensures { StaysOne one piece result }
{
    one && !matches!(piece, Piece::LineEnd)
}

/// Whether what stands after an entry, before the other text, belongs to it.
pub fn is_trail(alloc: Global, trail: &str, back: &str) -> bool
    ensures { IsTrue result → IsTrail (chars back.now) (chars trail.now) }
{
    are_blanks(alloc, trail) || comments_after(alloc, trail, back)
}

/// Whether the text has blanks alone.
fn are_blanks(alloc: Global, text: &str) -> bool
    ensures { IsTrue result → Each is_blank (chars text.now) }
{
    let mut scanner = Scanner::new(alloc, text);
    while let Some(c) = scanner.peek() {
        if !is_json5_whitespace(c) {
            return false;
        }
        if !scanner.eat(c) {
            return false;
        }
    }
    true
}

/// Whether the text has blanks and comments alone, which belong to an entry before the other text.
fn comments_after(alloc: Global, text: &str, back: &str) -> bool
    ensures { IsTrue result → CommentsAfter (chars back.now) (chars text.now) }
{
    let mut pieces = Pieces::new(text);
    while let Some(piece) = pieces.next() {
        let rest = pieces.as_str();
        if let Piece::LineEnd = piece {
            return are_blanks(alloc, rest);
        }
        if !may_follow(alloc, rest, piece, back) {
            return false;
        }
    }
    pieces.as_str().is_empty() && ends_line(alloc, back)
}

/// Whether the rest may follow this piece, before the text.
fn may_follow(alloc: Global, rest: &str, piece: Piece, back: &str) -> bool
    ensures { MayFollow piece (chars rest.now) (chars back.now) result }
{
    match piece {
        Piece::Blank => true,
        Piece::Block => true,
        Piece::LineEnd => false,
        Piece::Line => front(rest).is_some() || begins_with_line_end(alloc, back),
    }
}

/// Whether a line ends where the text begins.
fn begins_with_line_end(alloc: Global, text: &str) -> bool
    ensures { IsTrue result → NotBegun is_line_part (chars text.now) }
{
    match Scanner::new(alloc, text).peek() {
        Some(c) => is_json5_line_terminator(c),
        None => false,
    }
}

/// Whether the line ends where the text begins, but for blanks, or the collection does.
fn ends_line(alloc: Global, text: &str) -> bool
    ensures { IsTrue result → EndsLine (chars text.now) }
{
    let mut scanner = Scanner::new(alloc, text);
    while let Some(c) = scanner.peek() {
        if is_json5_line_terminator(c) {
            return true;
        }
        if !is_json5_whitespace(c) {
            return is_closing(c);
        }
        if !scanner.eat(c) {
            return false;
        }
    }
    false
}

/// Whether the character is a closing bracket.
fn is_closing(c: char) -> bool
    ensures { result ≡ is_closing c }
{
    c == ']' || c == '}'
}
