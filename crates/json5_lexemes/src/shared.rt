//! Tokens that are in front of two texts, spelled alike.

ghost use Rattle.std.specs.Prelude.{◌≡◌, IsTrue, true};
ghost use Rattle.std.specs.Str.{chars};
ghost use Rattle.json5_grammar.specs.Language.Characters.{NotBegun};
ghost use Rattle.json5_grammar.specs.Language.Strings.{is_quote};
ghost use Rattle.json5_lexemes.specs.Runs.{IsRun, is_part, is_word_byte};
ghost use Rattle.json5_lexemes.specs.SameLexemes.{is_word_part};
ghost use Rattle.json5_lexemes.specs.SharedTokens.{PassesBlanks, PassesBoth, PassesEscaped, PassesName, PassesPart, PassesSame, PassesToken, ends_words, is_mark};

use crate::byte_runs::blanks_len;
use crate::json_words::front_is_part;
use crate::rest::{front, past_byte};
use crate::runs::Run;
use crate::same::is_word_part;

/// Returns what follows blanks of JSON in front.
///
/// ```text
/// past_blanks(" \n80")    // 80
/// ```
#[inline(always)]
pub fn past_blanks(text: &str) -> &str
    ensures { PassesBlanks text.now result.now }
{
    let bytes = text.as_bytes();
    if bytes.is_empty() || bytes[0] > b' ' {
        return text;
    }
    text.split_at(blanks_len(bytes)).1
}

/// Returns the character of ASCII in front of both texts, and what follows it; None if there is none.
///
/// ```text
/// past_same("[1]", "[ 1 ]")    // Some((b'[', "1]", " 1 ]"))
/// ```
#[inline(always)]
pub fn past_same<'x>(left: &'x str, right: &'x str) -> Option<(u8, &'x str, &'x str)>
    ensures { PassesSame left.now right.now result }
{
    let bytes = left.as_bytes();
    if bytes.is_empty() {
        return None;
    }
    let first = bytes[0];
    if first >= 128 {
        return None;
    }
    let Some(left_rest) = past_byte(left, first) else {
        return None;
    };
    let Some(right_rest) = past_byte(right, first) else {
        return None;
    };
    Some((first, left_rest, right_rest))
}

/// Returns what follows the rest of a token or a comma, which is the same in both texts, after its first character; None
/// where none is.
///
/// ```text
/// past_token(b'8', "0, 1", "0 ,1")    // Some((", 1", " ,1"))
/// ```
#[inline(always)]
pub fn past_token<'x>(first: u8, left: &'x str, right: &'x str) -> Option<(&'x str, &'x str)>
    ensures { PassesToken first left.now right.now result }
{
    if is_mark(first) {
        return Some((left, right));
    }
    if begins_word(first) {
        return past_word(first, left, right);
    }
    past_string(first, left, right)
}

#[inline(always)]
fn is_quote(byte: u8) -> bool
    ensures { result ≡ is_quote byte }
{
    byte == b'"' || byte == b'\''
}

#[inline(always)]
fn is_mark(byte: u8) -> bool
    ensures { result ≡ is_mark byte }
{
    matches!(byte, b',' | b':' | b'[' | b']' | b'{' | b'}')
}

/// Returns what follows the parts of a name without an escape that are in front of both texts, as far as they are ASCII.
///
/// ```text
/// past_same_name("port: 80", "port\": 80")    // Some((": 80", "\": 80"))
/// ```
#[inline(always)]
pub fn past_same_name<'x>(left: &'x str, right: &'x str) -> Option<(&'x str, &'x str)>
    ensures { PassesName left.now right.now result }
{
    let len = shared_len(Run::Text, left.as_bytes(), right.as_bytes());
    if shared_len(Run::Word, left.as_bytes(), right.as_bytes()) != len {
        return None;
    }
    let Some((_, left_rest)) = left.split_at_checked(len) else {
        return None;
    };
    let Some((_, right_rest)) = right.split_at_checked(len) else {
        return None;
    };
    Some((left_rest, right_rest))
}

/// Whether the byte surely is part of a number, a literal or a name.
#[inline(always)]
fn begins_word(byte: u8) -> bool
    ensures { IsTrue result → is_word_part byte ≡ true }
{
    is_word_byte(byte) || byte == b'$'
}

/// The same of a number, a literal or a name.
#[inline(always)]
fn past_word<'x>(first: u8, left: &'x str, right: &'x str) -> Option<(&'x str, &'x str)>
    requires { is_word_part first ≡ true }
    ensures { PassesToken first left.now right.now result }
{
    let mut left_rest = left;
    let mut right_rest = right;
    loop {
        let Some((left_run, right_run)) = past_run(Run::Word, left_rest, right_rest) else {
            return None;
        };
        if ends_word(left_run) && ends_word(right_run) {
            return Some((left_run, right_run));
        }
        let Some((left_next, right_next)) = past_part(left_run, right_run) else {
            return None;
        };
        left_rest = left_next;
        right_rest = right_next;
    }
}

/// Returns whether no part of a number, a literal or a name is in front.
///
/// ```text
/// ends_word(": 80")    // true
/// ```
#[inline(always)]
pub fn ends_word(text: &str) -> bool
    ensures { IsTrue result → NotBegun is_word_part (chars text.now) }
{
    let bytes = text.as_bytes();
    if bytes.is_empty() {
        return true;
    }
    ends_words(bytes[0]) || !front_is_part(text)
}

/// Whether the byte is a character that mostly follows a word.
#[inline(always)]
fn ends_words(byte: u8) -> bool
    ensures { result ≡ ends_words byte }
{
    is_mark(byte) || matches!(byte, b' ' | b'\t' | b'\n' | b'\r')
}

/// What follows a character of a word, which is in front of both texts.
#[inline(never)]
fn past_part<'x>(left: &'x str, right: &'x str) -> Option<(&'x str, &'x str)>
    ensures { PassesPart left.now right.now result }
{
    let Some((c, left_rest)) = front(left) else {
        return None;
    };
    let Some((d, right_rest)) = front(right) else {
        return None;
    };
    if c != d || !is_word_part(c) {
        return None;
    }
    Some((left_rest, right_rest))
}

/// The same of a string; None if it was no quote that was passed.
#[inline(always)]
fn past_string<'x>(quote: u8, left: &'x str, right: &'x str) -> Option<(&'x str, &'x str)>
    ensures { PassesToken quote left.now right.now result }
{
    if !is_quote(quote) {
        return None;
    }
    let mut left_rest = left;
    let mut right_rest = right;
    loop {
        let Some((left_run, right_run)) = past_run(Run::Text, left_rest, right_rest) else {
            return None;
        };
        let Some((c, left_next, right_next)) = past_same(left_run, right_run) else {
            return None;
        };
        if c == quote {
            return Some((left_next, right_next));
        }
        let Some((left_after, right_after)) = past_escaped(c, left_next, right_next) else {
            return None;
        };
        left_rest = left_after;
        right_rest = right_after;
    }
}

/// After a backslash, what follows the next character; after another character, which ends no string, the same texts.
#[inline(always)]
fn past_escaped<'x>(c: u8, left: &'x str, right: &'x str) -> Option<(&'x str, &'x str)>
    ensures { PassesEscaped c left.now right.now result }
{
    if c != b'\\' {
        return Some((left, right));
    }
    let Some((_, left_after, right_after)) = past_same(left, right) else {
        return None;
    };
    Some((left_after, right_after))
}

/// Returns what follows a run that is the same in both texts.
///
/// ```text
/// past_run(Run::Text, "ab'", "ab\"")    // Some(("'", "\""))
/// ```
#[inline(always)]
pub fn past_run<'x>(run: Run, left: &'x str, right: &'x str) -> Option<(&'x str, &'x str)>
    ensures { PassesBoth run left.now right.now result }
{
    let len = shared_len(run, left.as_bytes(), right.as_bytes());
    let Some((_, left_rest)) = left.split_at_checked(len) else {
        return None;
    };
    let Some((_, right_rest)) = right.split_at_checked(len) else {
        return None;
    };
    Some((left_rest, right_rest))
}

/// How many bytes of the run are in front of both texts.
#[inline(always)]
fn shared_len(run: Run, left: &[u8], right: &[u8]) -> usize
    ensures { IsRun run left.now right.now result }
{
    let len = run.shared_len(left, right);
    let room = len.saturating_add(16);
    if room <= left.len() && room <= right.len() {
        return len;
    }
    last_shared(run, left, right, len)
}

/// The same byte by byte, where so many were counted.
#[tactic(auto, using(crate::proofs::SharedSteps::run_step))]
#[inline(never)]
fn last_shared(run: Run, left: &[u8], right: &[u8], from: usize) -> usize
    requires { IsRun run left.now right.now from }
    ensures { IsRun run left.now right.now result }
{
    let mut i = from;
    while i < left.len() && i < right.len() && left[i] == right[i] && is_part(run, left[i]) {
        i += 1;
    }
    i
}

/// Whether the byte goes on with the run.
fn is_part(run: Run, byte: u8) -> bool
    ensures { IsTrue result → is_part run byte ≡ true }
{
    match run {
        Run::Word => is_word_byte(byte),
        Run::Text => byte != b'"' && byte != b'\'' && byte != b'\\',
        _ => false,
    }
}

#[inline(always)]
fn is_word_byte(byte: u8) -> bool
    ensures { result ≡ is_word_byte byte }
{
    !(byte < b'('
        || byte > b'z'
        || byte == b','
        || byte == b'/'
        || byte == b':'
        || byte == b'['
        || byte == b']')
}
