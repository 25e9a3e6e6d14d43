//! Whether a text is JSON but for comments, by its lexemes.

ghost use Rattle.std.specs.Prelude.{◌≡◌, ◌≢◌, ◌↔◌, ◌<◌, ◌∷◌, IsTrue, true, length, MatchOption};
ghost use Rattle.std.specs.Str.{chars};
ghost use Rattle.json5_grammar.specs.Language.Characters.{NotBegun, is_hex_digit};
ghost use Rattle.json5_styles.specs.Json.{JsonNumber, is_escape_letter, is_json_blank};
ghost use Rattle.json5_tokens.specs.ByteRuns.{is_line_part as is_surely_in_line, is_no_star};
ghost use Rattle.json5_tokens.specs.Scan.{SkipsAll};
ghost use Rattle.json5_lexemes.specs.Plain.{is_closing, is_opening, IsPlain, KeepsPlain, Plain};
ghost use Rattle.json5_lexemes.specs.PlainSteps.{begins_number, is_slash, EndsWord, Leaves, LeavesWith, PassesComment, PassesLexeme, PassesNumber, PassesSign, StaysPassed, TakesBlock, TakesCode, TakesComment, TakesEscape, TakesHex, TakesLine, TakesString, TakesWord, Then};
ghost use Rattle.json5_lexemes.specs.declared.plain.Last.TheVariants as last_tokens;

use crate::byte_runs::{blanks_len, is_json_blank};
use crate::json_words::{begins_word, end_number, skip_decimal, skip_four, skip_number};
use crate::rest::{front, past_byte, past_first};
use json5_styles::json_runs::skip_unescaped_within;
use json5_tokens::byte_runs::{line_len, star_offset};
use json5_tokens::char::is_json5_line_terminator;
use json5_types::digit_runs::is_digit;

/// What the last token was.
#[derive(Clone, Copy, Drop)]
pub(crate) enum Last {
    /// A bracket or a colon, or there was none.
    Sign,
    Comma,
    /// A number or a literal.
    Word,
    Text,
}

/// Whether the text is JSON but for comments, by its lexemes: strings between double quotes with JSON's escapes, JSON's
/// numbers and literals, its four blanks, no comma before a closing bracket, and no key but strings. Whether it is a
/// document is not asked: `check_document` says that.
///
/// ```text
/// is_plain("{\"a\": 1} // one")    // true
/// is_plain("{a: 1}")               // false
/// ```
pub fn is_plain(text: &str) -> bool
    ensures { IsTrue result ↔ IsPlain (chars text.now) }
{
    is_plain_with(true, text)
}

/// The same, where comments are allowed or not.
///
/// ```text
/// is_plain_with(false, "[1] // one")    // false
/// ```
#[inline(never)]
pub fn is_plain_with(comments: bool, text: &str) -> bool
    ensures { IsTrue result ↔ Plain comments last_tokens.Sign (chars text.now) }
{
    let mut rest = text;
    let mut last = Last::Sign;
    while !rest.is_empty() {
        let Some((now, left)) = pass_lexeme(comments, last, rest) else {
            return false;
        };
        last = now;
        rest = left;
    }
    true
}

/// Whether the second text is as plain as the first: JSON without comments if that is, else JSON but for comments if
/// that is.
///
/// ```text
/// keeps_plain("{a: 1}", "[1,]")      // true
/// keeps_plain("[1] // one", "[1,]")  // false
/// ```
pub fn keeps_plain<'x>(text: &'x str, made: &'x str) -> bool
    ensures { IsTrue result → KeepsPlain text.now made.now }
{
    if is_plain_with(false, text) {
        return is_plain_with(false, made);
    }
    !is_plain(text) || is_plain(made)
}

/// What the lexeme in front makes of what came last, and what follows it; None if it is none of JSON. Blanks count as a
/// lexeme here, and a colon or a comma after a lexeme is passed with it, and a space after that.
#[inline(always)]
fn pass_lexeme(comments: bool, last: Last, text: &str) -> Option<(Last, &str)>
    requires { 0 < length text.now }
    ensures { PassesLexeme comments last text.now result }
{
    let first = text.as_bytes()[0];
    if first == b'"' {
        return with_sign(pass_string(past_first(text)));
    }
    if is_json_blank(first) {
        return Some((last, skip_json_blanks(text)));
    }
    if begins_number(first) {
        return pass_number_within(text);
    }
    if is_opening(first) {
        return Some((Last::Sign, past_first(text)));
    }
    if is_closing(first) {
        return with_comma(pass_closing(last, past_first(text)));
    }
    if first == b',' {
        return Some((Last::Comma, past_first(text)));
    }
    if first == b':' {
        return pass_colon(last, past_first(text));
    }
    if first == b'/' {
        return pass_comment(comments, last, past_first(text));
    }
    with_comma(pass_word(text))
}

/// Whether a number may begin so.
#[inline(always)]
fn begins_number(byte: u8) -> bool
    ensures { result ≡ begins_number byte }
{
    byte == b'-' || is_digit(byte)
}

#[inline(always)]
fn is_opening(byte: u8) -> bool
    ensures { result ≡ is_opening byte }
{
    byte == b'[' || byte == b'{'
}

#[inline(always)]
fn is_closing(byte: u8) -> bool
    ensures { result ≡ is_closing byte }
{
    byte == b']' || byte == b'}'
}

/// The same where a colon or a comma may follow.
#[inline(always)]
fn with_sign<'x>(passed: Option<(Last, &'x str)>) -> Option<(Last, &'x str)>
    ensures { StaysPassed passed.entry result }
{
    let Some((last, rest)) = passed else {
        return None;
    };
    match past_byte(rest, b':') {
        Some(after) => with_space(pass_colon(last, after)),
        None => with_comma(passed),
    }
}

/// The same where a comma may follow.
#[inline(always)]
fn with_comma<'x>(passed: Option<(Last, &'x str)>) -> Option<(Last, &'x str)>
    ensures { StaysPassed passed.entry result }
{
    let Some((_, rest)) = passed else {
        return None;
    };
    match past_byte(rest, b',') {
        Some(after) => with_space(Some((Last::Comma, after))),
        None => passed,
    }
}

/// The same where a space may follow.
#[inline(always)]
fn with_space<'x>(passed: Option<(Last, &'x str)>) -> Option<(Last, &'x str)>
    ensures { StaysPassed passed.entry result }
{
    let Some((last, rest)) = passed else {
        return None;
    };
    match past_byte(rest, b' ') {
        Some(after) => Some((last, after)),
        None => passed,
    }
}

/// The same after the first quote of a string.
#[inline(always)]
fn pass_string(after: &str) -> Option<(Last, &str)>
    ensures { LeavesWith TakesString last_tokens.Text after.now result }
{
    let Some(left) = skip_string(after) else {
        return None;
    };
    Some((Last::Text, left))
}

/// The same after a closing bracket, which may not follow a comma.
#[inline(always)]
fn pass_closing(last: Last, after: &str) -> Option<(Last, &str)>
    ensures { PassesSign (last ≢ last_tokens.Comma) after.now result }
{
    match last {
        Last::Comma => None,
        _ => Some((Last::Sign, after)),
    }
}

/// The same after a colon, which follows a string alone.
#[inline(always)]
fn pass_colon(last: Last, after: &str) -> Option<(Last, &str)>
    ensures { PassesSign (last ≡ last_tokens.Text) after.now result }
{
    match last {
        Last::Text => Some((Last::Sign, after)),
        _ => None,
    }
}

/// The same after the first slash of a comment.
#[inline(always)]
fn pass_comment(comments: bool, last: Last, after: &str) -> Option<(Last, &str)>
    ensures { PassesComment comments last after.now result }
{
    if !comments {
        return None;
    }
    let Some(left) = skip_comment(after) else {
        return None;
    };
    Some((last, left))
}

/// The same of a number or a literal in front.
#[inline(always)]
fn pass_word(text: &str) -> Option<(Last, &str)>
    requires { 0 < length text.now }
    ensures { LeavesWith TakesWord last_tokens.Word text.now result }
{
    let first = text.as_bytes()[0];
    if first == b'n' {
        return pass_literal(skip_four(text, b'n', b'u', b'l', b'l'));
    }
    if first == b't' {
        return pass_literal(skip_four(text, b't', b'r', b'u', b'e'));
    }
    if first == b'f' {
        return pass_literal(skip_four(past_first(text), b'a', b'l', b's', b'e'));
    }
    pass_number(text)
}

/// The same after a literal, if it was one.
#[inline(always)]
fn pass_literal(rest: Option<&str>) -> Option<(Last, &str)>
    ensures { EndsWord rest.entry result }
{
    let Some(left) = rest else {
        return None;
    };
    if begins_word(left) {
        return None;
    }
    Some((Last::Word, left))
}

/// The same of a number in front, where a comma may follow.
#[inline(always)]
fn pass_number_within(text: &str) -> Option<(Last, &str)>
    ensures { PassesNumber text.now result }
{
    let Some(left) = skip_decimal(text) else {
        return None;
    };
    if let Some(after) = past_byte(left, b',') {
        return with_space(Some((Last::Comma, after)));
    }
    let Some(end) = end_number(left) else {
        return None;
    };
    Some((Last::Word, end))
}

/// The same of a number in front.
#[inline(always)]
fn pass_number(text: &str) -> Option<(Last, &str)>
    ensures { LeavesWith (Then JsonNumber) last_tokens.Word text.now result }
{
    let Some(left) = skip_number(text) else {
        return None;
    };
    Some((Last::Word, left))
}

/// What follows the blanks of JSON in front.
#[inline(always)]
fn skip_json_blanks(text: &str) -> &str
    ensures { SkipsAll is_json_blank text.now result.now }
{
    text.split_at(blanks_len(text.as_bytes())).1
}

/// After the first quote of a string: what follows its last one; None if it is no string of JSON.
fn skip_string(text: &str) -> Option<&str>
    ensures { Leaves TakesString text.now result }
{
    let mut rest = skip_unescaped_within(text);
    while let Some(after) = past_byte(rest, b'\\') {
        let Some(next) = skip_escape(after) else {
            return None;
        };
        rest = skip_unescaped_within(next);
    }
    past_byte(rest, b'"')
}

/// After a backslash: what follows the escape; None if it is none of JSON.
fn skip_escape(text: &str) -> Option<&str>
    ensures { Leaves TakesEscape text.now result }
{
    let Some((c, after)) = front(text) else {
        return None;
    };
    if is_escape_letter(c) {
        return Some(after);
    }
    if c == 'u' {
        return skip_code(after);
    }
    None
}

/// Whether the character after a backslash is an escape by itself.
#[inline(always)]
fn is_escape_letter(c: char) -> bool
    ensures { result ≡ is_escape_letter c }
{
    matches!(c, '"' | '\\' | '/' | 'b' | 'f' | 'n' | 'r' | 't')
}

/// What follows four hexadecimal digits in front.
fn skip_code(text: &str) -> Option<&str>
    ensures { Leaves TakesCode text.now result }
{
    let Some(first) = skip_hex(text) else {
        return None;
    };
    let Some(second) = skip_hex(first) else {
        return None;
    };
    let Some(third) = skip_hex(second) else {
        return None;
    };
    skip_hex(third)
}

/// What follows a hexadecimal digit in front.
fn skip_hex(text: &str) -> Option<&str>
    ensures { Leaves TakesHex text.now result }
{
    let Some((c, after)) = front(text) else {
        return None;
    };
    if is_hex_digit(c) { Some(after) } else { None }
}

#[inline(always)]
fn is_hex_digit(c: char) -> bool
    ensures { result ≡ is_hex_digit c }
{
    matches!(c, '0'..='9' | 'a'..='f' | 'A'..='F')
}

/// After a comment's first slash: what follows the comment, which a line terminator is no part of; None if it is none.
#[inline(never)]
pub(crate) fn skip_comment(text: &str) -> Option<&str>
    ensures { Leaves TakesComment text.now result }
{
    let Some((c, after)) = front(text) else {
        return None;
    };
    match c {
        '/' => Some(skip_line(after)),
        '*' => skip_block(after),
        _ => None,
    }
}

/// After `//`: what follows the comment, which ends before a line terminator.
fn skip_line(text: &str) -> &str
    ensures { TakesLine (chars text.now) (chars result.now) }
{
    let mut rest = skip_line_part(text);
    while let Some((c, after)) = front(rest) {
        if is_json5_line_terminator(c) {
            return rest;
        }
        rest = skip_line_part(after);
    }
    rest
}

/// What follows the characters in front that surely end no line.
fn skip_line_part(text: &str) -> &str
    ensures { SkipsAll is_surely_in_line text.now result.now }
{
    text.split_at(line_len(text.as_bytes())).1
}

/// After `/*`: what follows the first `*/`.
fn skip_block(text: &str) -> Option<&str>
    ensures { Leaves TakesBlock text.now result }
{
    let mut rest = skip_to_star(text);
    while let Some((c, after)) = front(rest) {
        if let Some(end) = block_end(c, after) {
            return Some(end);
        }
        rest = skip_to_star(after);
    }
    None
}

/// What follows a slash in front, if the character before is a star.
fn block_end(c: char, after: &str) -> Option<&str>
    ensures { MatchOption result (c ≡ 42 → NotBegun is_slash (chars after.now)) (λ end. (c ≡ 42) × (chars after.now ≡ 47 ∷ chars end.now)) }
{
    if c != '*' {
        return None;
    }
    match front(after) {
        Some(('/', end)) => Some(end),
        _ => None,
    }
}

/// What follows the characters in front that are no star.
fn skip_to_star(text: &str) -> &str
    ensures { SkipsAll is_no_star text.now result.now }
{
    text.split_at(star_offset(text.as_bytes())).1
}
