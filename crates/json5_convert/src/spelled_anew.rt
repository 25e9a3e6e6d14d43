//! Compares a document with what was made of it, token by token: no values are made of them.

ghost use Rattle.std.specs.Prelude.{◌≡◌, ◌↔◌, IfOk, IfSome, IsTrue, OnOk, true, false};
ghost use Rattle.std.specs.Str.{chars, IsUtf8};
ghost use Rattle.json5_grammar.specs.Language.Characters.{NotBegun};
ghost use Rattle.json5_grammar.specs.Language.Strings.{is_quote};
ghost use Rattle.json5_lexemes.specs.SameLexemes.{is_line_part, is_word_part};
ghost use Rattle.json5_types.specs.NumberMeanings.{number_of};
ghost use Rattle.json5_convert.specs.SpelledAnew.{BeginsComment, BeginsNumber, IsBlankBefore, IsComment, IsKeyAt, IsNumberAt, IsStringAt, PassesAnew, PassesComma, PassesGap, PassesNumbers, PassesOn, PassesShort, Repeats, SpelledAnew, Unquotes, begins_number};

use crate::faults::{RespellError, Result};
use json5_lexemes::{
    Piece, Pieces, ends_word, front, past_blanks, past_byte, past_same, past_same_name, past_token,
};
use json5_tokens::char::{is_json5_line_terminator, is_json5_whitespace};
use json5_tokens::scanner::Scanner;
use json5_types::cow_str::CowStr;
use json5_types::number::Number;
use std::alloc::Global;

/// Refuses with `Failed` unless the second text has the tokens of the first, each spelled as there or anew, and its comments, or
/// none where they don't stay.
pub(crate) fn check_spelled_anew<'x>(
    alloc: Global,
    stay: bool,
    text: &'x str,
    made: &'x str,
) -> Result<()>
    ensures { OnOk result (SpelledAnew stay false (chars text.now) (chars made.now)) }
{
    let mut left = text;
    let mut right = made;
    loop {
        let left_solid = past_blanks(left);
        let right_solid = past_blanks(right);
        if left_solid.is_empty() && right_solid.is_empty() {
            return Ok(());
        }
        if let Some((left_after, right_after)) = past_short(left_solid, right_solid) {
            left = left_after;
            right = right_after;
            continue;
        }
        let (left_after, right_after) = past_long(alloc, stay, left_solid, right_solid)?;
        left = left_after;
        right = right_after;
    }
}

/// What follows a token or a comma that is spelled alike, or a key that has quotes in one text alone.
#[inline(always)]
fn past_short<'x>(left: &'x str, right: &'x str) -> Option<(&'x str, &'x str)>
    ensures { IfSome result (λ p. PassesShort left.now right.now p.0.now p.1.now) }
{
    if let Some((first, left_rest, right_rest)) = past_same(left, right) {
        let (left_after, right_after) = past_token(first, left_rest, right_rest)?;
        return Some((left_after, right_after));
    }
    if let Some((left_after, right_after)) = past_quotes(left, right) {
        return Some((left_after, right_after));
    }
    let (right_after, left_after) = past_quotes(right, left)?;
    Some((left_after, right_after))
}

/// What follows a key and its colon, where the first text has the key in quotes and the second has it bare.
#[inline(always)]
fn past_quotes<'x>(quoted: &'x str, bare: &'x str) -> Option<(&'x str, &'x str)>
    ensures { IfSome result (λ p. Unquotes quoted.now bare.now p.0.now p.1.now) }
{
    let quote = quote_of(quoted)?;
    let inside = past_byte(quoted, quote)?;
    if past_byte(bare, b':').is_some() {
        return None;
    }
    let (quoted_rest, bare_rest) = past_same_name(inside, bare)?;
    let quoted_end = past_byte(quoted_rest, quote)?;
    let quoted_after = past_byte(quoted_end, b':')?;
    let bare_after = past_byte(bare_rest, b':')?;
    Some((quoted_after, bare_after))
}

/// The quote in front.
#[inline(always)]
fn quote_of(text: &str) -> Option<u8>
    ensures { IfSome result (λ quote. is_quote quote ≡ true) }
{
    match text.as_bytes().first() {
        Some(b'"') => Some(b'"'),
        Some(b'\'') => Some(b'\''),
        _ => None,
    }
}

/// The same of what is seldom: a string in other quotes, a blank that JSON hasn't, a comment, a comma, or another token that is
/// spelled anew.
#[inline(never)]
fn past_long<'x>(
    alloc: Global,
    stay: bool,
    left: &'x str,
    right: &'x str,
) -> Result<(&'x str, &'x str)>
    ensures { IfOk result (λ p. PassesOn stay false left.now right.now p.0.now p.1.now) }
{
    if quote_of(left).is_some() && quote_of(right).is_some() {
        let (left_after, right_after) = past_strings(alloc, left, right)?;
        return Ok((left_after, right_after));
    }
    if let Some((left_after, right_after)) = past_gap(stay, left, right) {
        return Ok((left_after, right_after));
    }
    if let Some((left_after, right_after)) = past_comma(left, right) {
        return Ok((left_after, right_after));
    }
    let (colon_due, left_rest, right_rest) = past_respelled(alloc, left, right)?;
    if colon_due {
        let (left_end, right_end) = past_colon(stay, left_rest, right_rest)?;
        return Ok((left_end, right_end));
    }
    Ok((left_rest, right_rest))
}

/// What follows a blank in one text, or a comment of the first, which the second has too if it stays.
fn past_gap<'x>(stay: bool, left: &'x str, right: &'x str) -> Option<(&'x str, &'x str)>
    ensures { IfSome result (λ p. PassesGap stay left.now right.now p.0.now p.1.now) }
{
    if let Some((comment, left_after)) = split_comment(left) {
        if !stay {
            return Some((left_after, right));
        }
        if let Some(right_after) = past_repeated(comment, right) {
            return Some((left_after, right_after));
        }
    }
    if let Some(left_after) = past_blank(left) {
        return Some((left_after, right));
    }
    let right_after = past_blank(right)?;
    Some((left, right_after))
}

/// What follows a blank.
fn past_blank(text: &str) -> Option<&str>
    ensures { IfSome result (λ rest. IsBlankBefore (chars text.now) (chars rest.now)) }
{
    let (c, rest) = front(text)?;
    if is_json5_whitespace(c) {
        Some(rest)
    } else {
        None
    }
}

/// What follows this comment, where it is in front. Most comments end with their line, and aren't looked through again.
fn past_repeated<'x>(comment: &str, text: &'x str) -> Option<&'x str>
    ensures { IfSome result (λ rest. Repeats (chars comment.now) (chars text.now) (chars rest.now)) }
{
    if let Some((other, rest)) = text.split_at_checked(comment.len()) {
        if comment == other && ends_line(rest) {
            return Some(rest);
        }
    }
    let Some((other, rest)) = split_comment(text) else {
        return None;
    };
    if comment == other { Some(rest) } else { None }
}

/// Whether nothing follows, or a line end.
fn ends_line(text: &str) -> bool
    ensures { IsTrue result ↔ NotBegun is_line_part (chars text.now) }
{
    match front(text) {
        Some((c, _)) => is_json5_line_terminator(c),
        None => true,
    }
}

/// The comment in front, and what follows it.
fn split_comment(text: &str) -> Option<(&str, &str)>
    ensures { IfSome result (λ p. IsComment (chars p.0.now) (chars text.now) (chars p.1.now)) }
{
    let Some(rest) = skip_comment(text) else {
        return None;
    };
    Some(text.split_at(text.len() - rest.len()))
}

/// What follows the comment in front.
fn skip_comment(text: &str) -> Option<&str>
    ensures { IfSome result (λ rest. IsUtf8 rest.now × BeginsComment (chars text.now) (chars rest.now)) }
{
    let mut pieces = Pieces::new(text);
    match pieces.next() {
        Some(Piece::Line) => Some(pieces.as_str()),
        Some(Piece::Block) => Some(pieces.as_str()),
        _ => None,
    }
}

/// What follows a comma of one text.
fn past_comma<'x>(left: &'x str, right: &'x str) -> Option<(&'x str, &'x str)>
    ensures { IfSome result (λ p. PassesComma left.now right.now p.0.now p.1.now) }
{
    if let Some(left_after) = past_byte(left, b',') {
        return Some((left_after, right));
    }
    let Some(right_after) = past_byte(right, b',') else {
        return None;
    };
    Some((left, right_after))
}

/// What follows a number or a key that is spelled anew, and whether a colon is due, as after a key.
fn past_respelled<'x>(
    alloc: Global,
    left: &'x str,
    right: &'x str,
) -> Result<(bool, &'x str, &'x str)>
    ensures { IfOk result (λ p. PassesAnew p.0 left.now right.now p.1.now p.2.now) }
{
    if begins_number(left) {
        let (left_after, right_after) = past_numbers(alloc, left, right)?;
        return Ok((false, left_after, right_after));
    }
    let (left_rest, right_rest) = past_keys(alloc, left, right)?;
    Ok((true, left_rest, right_rest))
}

/// Whether a sign, a point or a digit is in front, with which no key begins.
fn begins_number(text: &str) -> bool
    ensures { IsTrue result → BeginsNumber (chars text.now) }
{
    match front(text) {
        Some((c, _)) => begins_number_at(c),
        None => false,
    }
}

fn begins_number_at(c: char) -> bool
    ensures { result ≡ begins_number c }
{
    matches!(c, '+' | '-' | '.' | '0'..='9')
}

/// What follows a string that both texts have.
fn past_strings<'x>(alloc: Global, left: &'x str, right: &'x str) -> Result<(&'x str, &'x str)>
    ensures { IfOk result (λ p. PassesShort left.now right.now p.0.now p.1.now) }
{
    let (text, left_after) = split_string(alloc, left)?;
    let (other, right_after) = split_string(alloc, right)?;
    if text == other {
        return Ok((left_after, right_after));
    }
    Err(RespellError::Failed)
}

/// The text of the string in front, and what follows it.
fn split_string<'x>(alloc: Global, text: &'x str) -> Result<(CowStr<'x>, &'x str)>
    ensures { IfOk result (λ p. IsStringAt (chars text.now) p.0 (chars p.1.now)) }
{
    let mut scanner = Scanner::new(alloc, text);
    let string = scanner.string()?;
    let rest = rest_of(&scanner);
    check_ended(rest)?;
    Ok((string, rest))
}

/// What follows a number that both texts have.
fn past_numbers<'x>(alloc: Global, left: &'x str, right: &'x str) -> Result<(&'x str, &'x str)>
    ensures { IfOk result (λ p. PassesNumbers left.now right.now p.0.now p.1.now) }
{
    let (number, left_after) = split_number(alloc, left)?;
    let (other, right_after) = split_number(alloc, right)?;
    if is_same_number(&number, &other) {
        return Ok((left_after, right_after));
    }
    Err(RespellError::Failed)
}

/// The number in front, and what follows it.
fn split_number<'x>(alloc: Global, text: &'x str) -> Result<(Number, &'x str)>
    ensures { IfOk result (λ p. IsNumberAt (chars text.now) p.0 (chars p.1.now)) }
{
    let mut scanner = Scanner::new(alloc, text);
    let number = scanner.number()?;
    let rest = rest_of(&scanner);
    check_ended(rest)?;
    Ok((number, rest))
}

/// Whether both are the same number.
fn is_same_number(number: &Number, other: &Number) -> bool
    ensures { IsTrue result → number_of other.now ≡ number_of number.now }
{
    match (number, other) {
        (Number::Whole(number), Number::Whole(other)) => number == other,
        (Number::Decimal(number), Number::Decimal(other)) => number == other,
        _ => false,
    }
}

/// What follows a key that both texts have.
fn past_keys<'x>(alloc: Global, left: &'x str, right: &'x str) -> Result<(&'x str, &'x str)>
    ensures { IfOk result (λ p. PassesAnew true left.now right.now p.0.now p.1.now) }
{
    let (key, left_after) = split_key(alloc, left)?;
    let (other, right_after) = split_key(alloc, right)?;
    if key == other {
        return Ok((left_after, right_after));
    }
    Err(RespellError::Failed)
}

/// The text of the key in front, and what follows it.
fn split_key<'x>(alloc: Global, text: &'x str) -> Result<(CowStr<'x>, &'x str)>
    ensures { IfOk result (λ p. IsKeyAt (chars text.now) p.0 (chars p.1.now)) }
{
    let mut scanner = Scanner::new(alloc, text);
    let token = scanner.key()?;
    let rest = rest_of(&scanner);
    check_ended(rest)?;
    Ok((scanner.borrowed_text_of(token), rest))
}

/// What follows blanks, comments and a colon.
fn past_colon<'x>(stay: bool, left: &'x str, right: &'x str) -> Result<(&'x str, &'x str)>
    ensures { IfOk result (λ p. PassesOn stay true left.now right.now p.0.now p.1.now) }
{
    let mut left_rest = left;
    let mut right_rest = right;
    loop {
        if let Some(left_after) = past_byte(left_rest, b':') {
            if let Some(right_after) = past_byte(right_rest, b':') {
                return Ok((left_after, right_after));
            }
        }
        let Some((left_next, right_next)) = past_gap(stay, left_rest, right_rest) else {
            return Err(RespellError::Failed);
        };
        left_rest = left_next;
        right_rest = right_next;
    }
}

/// Refuses with `Failed` where part of a number, a literal or a name is next.
fn check_ended(rest: &str) -> Result<()>
    ensures { OnOk result (NotBegun is_word_part (chars rest.now)) }
{
    if ends_word(rest) {
        Ok(())
    } else {
        Err(RespellError::Failed)
    }
}

/// What the scanner hasn't read.
fn rest_of<'x>(scanner: &Scanner<&'x str>) -> &'x str
    ensures { chars result.now ≡ scanner.now.unread }
{
    let text: &'x str = scanner.input();
    text.split_at(scanner.offset()).1
}
