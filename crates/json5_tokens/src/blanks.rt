//! Blanks: white space, line terminators and comments (JSON5 sections 7 and 8, ECMAScript 5.1 sections 7.2 to 7.4).

ghost use Rattle.std.specs.Prelude.{◌≡◌, ◌<◌, true, MatchOption, MatchResult, ◌≤◌, ◌+◌, length, drop, map, IfSome};
ghost use Rattle.std.specs.Str.{chars};
ghost use Rattle.json5_grammar.specs.Model.ReadBlanks.{Mode, skip, between, slash};
ghost use Rattle.json5_tokens.specs.ByteRuns.{BeginsSolid, is_ascii_blank, is_no_blank};
ghost use Rattle.json5_tokens.specs.TokenResults.{Skips, RefusesByCode};
ghost use Rattle.json5_tokens.specs.ScanComments.{Continues, IsUnclosed};
ghost use Rattle.std.specs.List.{prefix_len};
ghost use Rattle.std.specs.Simd.Lanes.{mask_l};
ghost use Rattle.json5_tokens.specs.ShortWays.{FollowsBlanks, IsInFront};

use crate::byte_runs::{line_len, star_offset};
use crate::char::{front, is_json5_line_terminator, is_json5_whitespace};
use crate::refusal::Refusal;
use json5_grammar::error_code::ErrorCode;
use std::simd::prelude::*;

/// After `//`: what follows the line's end (JSON5 section 7, ECMAScript 5.1 section 7.4).
fn skip_line(text: &str) -> &str
    ensures { Continues Mode.line text.now result.now }
{
    let mut rest = text;
    loop {
        rest = rest.split_at(line_len(rest.as_bytes())).1;
        let Some((c, next)) = front(rest) else {
            return rest;
        };
        if is_json5_line_terminator(c) {
            return next;
        }
        rest = next;
    }
}

/// After `/*`: what follows the first `*/` (JSON5 section 7, ECMAScript 5.1 section 7.4).
fn skip_block(text: &str) -> Option<&str>
    ensures { MatchOption result (IsUnclosed (chars text.now)) (λ rest. Continues Mode.block text.now rest.now) }
{
    let mut rest = text;
    loop {
        rest = rest.split_at(star_offset(rest.as_bytes())).1;
        let (_, next) = front(rest)?;
        if let Some(('/', after)) = front(next) {
            return Some(after);
        }
        rest = next;
    }
}

/// After a comment's first slash: what follows the comment (JSON5 section 7, ECMAScript 5.1 section 7.4).
fn skip_comment(text: &str) -> Result<&str, Refusal>
    ensures { MatchResult result (λ rest. Continues slash text.now rest.now) (λ e. RefusesByCode e (skip slash (chars text.now))) }
{
    let missing = Refusal::TokenError {
        code: ErrorCode::EofParsingComment,
        remaining: None,
    };
    let Some((c, next)) = front(text) else {
        return Err(missing);
    };
    if c == '/' {
        Ok(skip_line(next))
    } else if c == '*' {
        let Some(rest) = skip_block(next) else {
            return Err(missing);
        };
        Ok(rest)
    } else {
        Err(Refusal::TokenError {
            code: ErrorCode::ExpectedComment,
            remaining: Some(text.len()),
        })
    }
}

/// Whether the byte is one of U+0009 to U+000D or the space.
#[inline(always)]
fn is_ascii_blank(byte: u8) -> bool
    ensures { result ≡ is_ascii_blank byte }
{
    byte == b' ' || byte >= 9 && byte <= 13
}

/// Which of the bytes are no ASCII blank.
#[inline(always)]
fn no_blanks(bytes: u8x16) -> u64
    ensures { result ≡ mask_l (map is_no_blank bytes) }
{
    (bytes.simd_ne(u8x16::splat(b' '))
        & (bytes.simd_lt(u8x16::splat(9)) | bytes.simd_gt(u8x16::splat(13)))).to_bitmask()
}

/// The same as `blanks_len` from this index on, byte by byte.
#[inline(never)]
fn blanks_len_slowly(bytes: &[u8], from: usize) -> usize
    requires { from ≤ length bytes.now }
    ensures { result ≡ from + prefix_len is_ascii_blank (drop from bytes.now) }
{
    let mut i = from;
    while i < bytes.len() && is_ascii_blank(bytes[i]) {
        i += 1;
    }
    i
}

/// The same as `blanks_len`, for more than 16 blanks too.
#[inline(never)]
fn many_blanks_len(bytes: &[u8]) -> usize
    ensures { result ≡ prefix_len is_ascii_blank bytes.now }
{
    let mut i = 0;
    while bytes.len() - i >= 16 {
        let found = no_blanks(u8x16::from_slice(&bytes[i..]));
        if found != 0 {
            return i + found.trailing_zeros() as usize;
        }
        i += 16;
    }
    blanks_len_slowly(bytes, i)
}

/// How many ASCII blanks are in front, seen 16 at a time. Mostly there are fewer.
#[inline(never)]
fn blanks_len(bytes: &[u8]) -> usize
    ensures { result ≡ prefix_len is_ascii_blank bytes.now }
{
    if bytes.len() >= 16 {
        let found = no_blanks(u8x16::from_slice(bytes));
        if found != 0 {
            return found.trailing_zeros() as usize;
        }
    }
    many_blanks_len(bytes)
}

/// What follows the ASCII blanks in front (JSON5 section 8). Mostly there is none, or one space.
#[inline(always)]
pub(crate) fn skip_ascii(text: &str) -> &str
    ensures { Continues between text.now result.now }
{
    let bytes = text.as_bytes();
    if !bytes.is_empty() && bytes[0] > b' ' {
        return text;
    }
    if bytes.len() > 1 && bytes[0] == b' ' && bytes[1] > b' ' {
        return text.split_at(1).1;
    }
    text.split_at(blanks_len(bytes)).1
}

/// Whether a character from `!` to `~` is in front that is no slash.
#[inline(always)]
pub(crate) fn begins_solid(text: &str) -> bool
    ensures { result ≡ true → BeginsSolid text.now }
{
    let bytes = text.as_bytes();
    !bytes.is_empty() && bytes[0] > b' ' && bytes[0] <= b'~' && bytes[0] != b'/'
}

/// What follows blanks (JSON5 sections 7 and 8).
#[inline(never)]
#[tactic(auto, using(crate::proofs::BlankSteps::line_steps))]
pub(crate) fn skip_blank(text: &str) -> Result<&str, Refusal>
    ensures { Skips (skip between (chars text.now)) result }
{
    let mut rest = skip_ascii(text);
    while let Some((c, next)) = front(rest) {
        if is_json5_whitespace(c) {
            rest = skip_ascii(next);
        } else if c == '/' {
            rest = skip_ascii(skip_comment(next)?);
        } else {
            return Ok(rest);
        }
    }
    Ok(rest)
}

/// Whether the ASCII character is in front.
#[inline(always)]
pub(crate) fn is_in_front(sign: u8, text: &str) -> bool
    requires { sign < 128 }
    ensures { IsInFront sign text.now result }
{
    let bytes = text.as_bytes();
    !bytes.is_empty() && bytes[0] == sign
}

/// What follows blanks of any kind, comments among them. None at the end of the text, and at a comment that has a fault.
#[inline(never)]
fn skip_any_blanks(text: &str) -> Option<&str>
    ensures { IfSome result (FollowsBlanks text.now) }
{
    let Ok(rest) = skip_blank(text) else {
        return None;
    };
    if rest.is_empty() {
        return None;
    }
    Some(rest)
}

/// What follows blanks. None at the end of the text, and at a comment that has a fault.
#[inline(always)]
pub(crate) fn skip_to_solid(text: &str) -> Option<&str>
    ensures { IfSome result (FollowsBlanks text.now) }
{
    let rest = skip_ascii(text);
    if begins_solid(rest) {
        return Some(rest);
    }
    skip_any_blanks(rest)
}

/// The same, where a comma is likely: most follow a value at once, so one in front is tested for before blanks are.
#[inline(always)]
pub(crate) fn skip_to_likely_comma(text: &str) -> Option<&str>
    ensures { IfSome result (FollowsBlanks text.now) }
{
    if is_in_front(b',', text) {
        return Some(text);
    }
    skip_to_solid(text)
}
