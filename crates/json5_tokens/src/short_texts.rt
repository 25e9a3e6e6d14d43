//! Short ways of strings and keys: one without an escape is taken at once and isn't copied, or any string as a `String`. Each
//! returns no `Error`, so the caller's frame holds none. When it returns None it takes nothing, and the scanner's other calls say
//! what is there. Which ASCII characters a name may have stands here too.

ghost use Rattle.std.specs.Prelude.{◌≡◌, ◌∷◌, true, IfSome, string_bytes};
ghost use Rattle.std.specs.List.{prefix_len};
ghost use Rattle.std.specs.Str.{chars};
ghost use Rattle.json5_tokens.specs.ScanTexts.{quote_of, string_at, text_at};
ghost use Rattle.json5_tokens.specs.ByteRuns.{is_ascii_start, is_ascii_part, IsAsciiName};
ghost use Rattle.json5_tokens.specs.ShortWays.{IsInFront};
ghost use Rattle.json5_tokens.specs.ShortTexts.{IsEscapeFreeString, IsEscapeFreeKey, FindsEscapeFree, FindsFirst, TakesShortString, TakesShortKey, TakesShortOwned};
ghost use Rattle.json5_tokens.specs.declared.strings_and_names.Kind.TheVariants as kind;
ghost use Rattle.json5_tokens.specs.TokenResults.{GivesMore, GivesText, IsOwned, IsOwnedBehind};

use crate::blanks::{is_in_front, skip_ascii};
use crate::char::front;
use crate::input::Input;
use crate::scanner::Scanner;
use crate::strings::skip_raw;
use crate::strings_and_names::{Kind, Quote, push_escapes, push_rest, with_room};
use std::alloc::Global;

/// The offsets of a text in the input, from `start` up to `end`, in bytes.
#[derive(Clone, Copy)]
pub struct Span {
    pub start: usize,
    pub end: usize,
}

/// The body of a string or a key in front: how many bytes are left where it begins, where it ends, and after the whole token.
#[derive(Clone, Copy)]
struct TextBounds {
    from: usize,
    to: usize,
    left: usize,
}

/// The quote in front.
#[inline(always)]
pub(crate) fn front_quote(text: &str) -> Option<Quote>
    ensures { IfSome result (λ quote. IsInFront (quote_of quote) text.now true) }
{
    if is_in_front(b'"', text) {
        return Some(Quote::Double);
    }
    if is_in_front(b'\'', text) {
        return Some(Quote::Single);
    }
    None
}

/// Whether it is an ASCII character that may begin a name.
#[inline(always)]
pub(crate) fn is_ascii_start(byte: u8) -> bool
    ensures { result ≡ is_ascii_start byte }
{
    byte >= b'a' && byte <= b'z' || byte >= b'A' && byte <= b'Z' || byte == b'_' || byte == b'$'
}

/// Whether it is an ASCII character that may continue a name.
#[inline(always)]
pub(crate) fn is_ascii_part(byte: u8) -> bool
    ensures { result ≡ is_ascii_part byte }
{
    is_ascii_start(byte) || byte >= b'0' && byte <= b'9'
}

/// How many ASCII characters in front may continue a name.
#[inline(always)]
pub(crate) fn name_len(bytes: &[u8]) -> usize
    ensures { result ≡ prefix_len is_ascii_part bytes.now }
{
    let mut i = 0;
    while i < bytes.len() && is_ascii_part(bytes[i]) {
        i += 1;
    }
    i
}

/// How long the name in front is, if it is of ASCII characters alone and an ASCII character that begins no escape follows it.
#[inline(always)]
fn ascii_name_len(bytes: &[u8]) -> Option<usize>
    ensures { IfSome result (IsAsciiName bytes.now) }
{
    if bytes.is_empty() || !is_ascii_start(bytes[0]) {
        return None;
    }
    let len = name_len(bytes);
    if len < bytes.len() && bytes[len] < 128 && bytes[len] != b'\\' {
        return Some(len);
    }
    None
}

/// The string without an escape whose first quote the body follows.
#[inline(always)]
fn quoted(quote: Quote, body: &str) -> Option<TextBounds>
    ensures { IfSome result (FindsEscapeFree IsEscapeFreeString (quote_of quote ∷ chars body.now)) }
{
    let rest = skip_raw(quote, body);
    if !is_in_front(quote.byte(), rest) {
        return None;
    }
    Some(TextBounds {
        from: body.len(),
        to: rest.len(),
        left: rest.len() - 1,
    })
}

/// The string without an escape in front.
#[inline(always)]
fn front_string(text: &str) -> Option<TextBounds>
    ensures { IfSome result (FindsFirst IsEscapeFreeString (chars text.now)) }
{
    let quote = front_quote(text)?;
    quoted(quote, text.split_at(1).1)
}

/// The key without an escape in front: a string, or a name of ASCII characters that an ASCII character follows.
#[inline(always)]
fn front_key(text: &str) -> Option<TextBounds>
    ensures { IfSome result (FindsFirst IsEscapeFreeKey (chars text.now)) }
{
    if let Some(quote) = front_quote(text) {
        return quoted(quote, text.split_at(1).1);
    }
    let len = ascii_name_len(text.as_bytes())?;
    let left = text.len() - len;
    Some(TextBounds {
        from: text.len(),
        to: left,
        left,
    })
}

impl<I: Input> Scanner<I> {
    /// Takes ASCII blanks and a string without an escape, and returns the span of its text. Returns None where anything else is in
    /// front, and takes nothing then.
    #[inline(always)]
    pub fn short_string(&mut self) -> Option<Span>
        ensures { TakesShortString self.old self.new result }
    {
        let found = front_string(skip_ascii(self.rest(self.input.as_text())))?;
        let span = Span {
            start: self.end - found.from,
            end: self.end - found.to,
        };
        self.set_remaining(found.left);
        Some(span)
    }

    /// Takes ASCII blanks and a key: a string without an escape, or a name of ASCII characters alone up to an ASCII character that
    /// can't continue it. Returns the span of its text. Returns None where anything else is in front, and takes nothing then.
    #[inline(always)]
    pub fn short_key(&mut self) -> Option<Span>
        ensures { TakesShortKey self.old self.new result }
    {
        let found = front_key(skip_ascii(self.rest(self.input.as_text())))?;
        let span = Span {
            start: self.end - found.from,
            end: self.end - found.to,
        };
        self.set_remaining(found.left);
        Some(span)
    }

    /// Takes ASCII blanks and a string, and returns its text, escapes replaced, as a `String`. Returns None where anything else is in
    /// front, where the string has a fault, or where memory runs out, and takes nothing then.
    #[inline(always)]
    pub fn short_string_owned(&mut self) -> Option<String>
        ensures { TakesShortOwned self.old self.new result }
    {
        let (text, rest) = front_owned(
            self.allocator(),
            skip_ascii(self.rest(self.input.as_text())),
        )?;
        let left = rest.len();
        self.set_remaining(left);
        Some(text)
    }
}

/// Adds what is spelled up to the quote at the end of a string, and returns what follows the quote.
#[inline(never)]
fn push_to_quote<'t>(text: &mut String, quote: Quote, rest: &'t str) -> Option<&'t str>
    ensures { IfSome result (λ left. GivesMore (string_bytes text.old) (text_at (kind.String quote) (chars rest.now)) (string_bytes text.new) left.now) }
{
    let Some(('\\', after)) = front(rest) else {
        return None;
    };
    push_rest(text, Kind::String(quote), rest, after).ok()
}

/// An owned copy of the run of a string and of what is spelled behind it, and what follows the string.
#[inline(never)]
fn spelled_behind<'t>(
    alloc: Global,
    quote: Quote,
    run: &str,
    escape: &'t str,
) -> Option<(String, &'t str)>
    ensures { IfSome result (λ p. GivesText (IsOwnedBehind run.now) (text_at (kind.String quote) (chars escape.now)) p.0 p.1.now) }
{
    let Ok(mut spelled) = with_room(alloc, run) else {
        return None;
    };
    let Ok(rest) = push_escapes(&mut spelled, Kind::String(quote), escape) else {
        return None;
    };
    if is_in_front(quote.byte(), rest) {
        return Some((spelled, rest.split_at(1).1));
    }
    let left = push_to_quote(&mut spelled, quote, rest)?;
    Some((spelled, left))
}

/// An owned copy of what the string in front spells, and what follows the string. A string without an escape is searched once.
#[inline(always)]
fn front_owned(alloc: Global, text: &str) -> Option<(String, &str)>
    ensures { IfSome result (λ p. GivesText IsOwned (string_at (chars text.now)) p.0 p.1.now) }
{
    let quote = front_quote(text)?;
    let body = text.split_at(1).1;
    let rest = skip_raw(quote, body);
    let run = &body[..body.len() - rest.len()];
    if !is_in_front(quote.byte(), rest) {
        return spelled_behind(alloc, quote, run, rest);
    }
    let Ok(owned) = String::from_str(alloc, run) else {
        return None;
    };
    Some((owned, rest.split_at(1).1))
}
