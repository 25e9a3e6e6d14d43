//! The lexemes of a document: its tokens and its comments, one after another.

ghost use Rattle.std.specs.Prelude.{◌≡◌, ◌≤◌, ◌-◌, length};
ghost use Rattle.json5_tidy.specs.Lexemes.{EndsWithin, IsFurther, IsLexeme, is_end};

use crate::layout::blanks::{blank_len, byte_at, line_end_len};
use crate::layout::runs::Run;
use memchr::{memchr, memchr2};

/// What kind of lexeme it is.
#[derive(Clone, Copy, Debug, Drop)]
pub(crate) enum Kind {
    /// `[` or `{`.
    Open,
    /// `]` or `}`.
    Close,
    Colon,
    Comma,
    /// A string, a number, a literal or a name.
    Word,
    /// A `//` comment, without its line end and the blanks before it.
    Line,
    /// A `/* */` comment.
    Block,
    /// The end of the text.
    End,
}

/// A lexeme, from one offset to another, and how many line ends come before it, after the lexeme before.
#[derive(Clone, Copy, Debug, Drop)]
pub(crate) struct Lexeme {
    pub(crate) kind: Kind,
    pub(crate) start: usize,
    pub(crate) end: usize,
    pub(crate) lines: usize,
    /// Whether an LF or a CR is in it.
    pub(crate) is_broken: bool,
}

impl Lexeme {
    #[inline(always)]
    pub(crate) fn is_end(self) -> bool
        ensures { result ≡ is_end self }
    {
        matches!(self.kind, Kind::End)
    }

    /// Its text.
    #[inline(always)]
    pub(crate) fn of(self, bytes: &[u8]) -> &[u8] {
        part_of(bytes, self.start, self.end)
    }
}

/// The bytes from one offset to another; none where these aren't in the text.
#[inline(always)]
pub(crate) fn part_of(bytes: &[u8], start: usize, end: usize) -> &[u8]
    ensures { length result.now ≤ end - start }
{
    bytes.get(start..end).unwrap_or(b"")
}

/// The lexeme in front, from this offset on.
#[inline(always)]
pub(crate) fn lexeme_at(bytes: &[u8], from: usize) -> Lexeme
    ensures { IsLexeme bytes.now from result }
{
    let (start, lines) = after_blanks(bytes, from);
    if start >= bytes.len() {
        return Lexeme {
            kind: Kind::End,
            start,
            end: start,
            lines,
            is_broken: false,
        };
    }
    let (kind, end, is_broken) = kind_and_end(bytes, start);
    Lexeme {
        kind,
        start,
        end,
        lines,
        is_broken,
    }
}

/// Where the blanks in front end, and how many line ends they hold.
#[inline(always)]
pub(crate) fn after_blanks(bytes: &[u8], from: usize) -> (usize, usize)
    ensures { IsFurther bytes.now from result.0 }
{
    let mut at = from;
    let mut lines: usize = 0;
    while at < bytes.len() {
        let byte = bytes[at];
        if byte > b' ' && byte < 128 {
            return (at, lines);
        }
        if byte == b' ' {
            at += 1;
            if byte_at(bytes, at) == b' ' {
                at += Run::Spaces.len(&bytes[at..]);
            }
            continue;
        }
        let line = line_end_len(bytes, at);
        if line > 0 {
            at += line;
            lines = lines.saturating_add(1);
            continue;
        }
        let len = blank_len(bytes, at);
        if len == 0 {
            return (at, lines);
        }
        at += len;
    }
    (at, lines)
}

/// The kind of the lexeme at this offset, where it ends, and whether an LF or a CR is in it.
#[inline(always)]
pub(crate) fn kind_and_end(bytes: &[u8], at: usize) -> (Kind, usize, bool)
    ensures { EndsWithin bytes.now at result.1 }
{
    match byte_at(bytes, at) {
        b'[' | b'{' => (Kind::Open, past(bytes, at), false),
        b']' | b'}' => (Kind::Close, past(bytes, at), false),
        b':' => (Kind::Colon, past(bytes, at), false),
        b',' => (Kind::Comma, past(bytes, at), false),
        b'"' | b'\'' => string_and_end(bytes, at),
        b'/' => comment_and_end(bytes, at),
        _ => (Kind::Word, word_end(bytes, at), false),
    }
}

/// The same of a comment. A slash that begins no comment is a word.
#[inline(always)]
fn comment_and_end(bytes: &[u8], at: usize) -> (Kind, usize, bool)
    ensures { EndsWithin bytes.now at result.1 }
{
    match byte_at(bytes, past(bytes, at)) {
        b'/' => (Kind::Line, line_comment_end(bytes, at), false),
        b'*' => {
            let end = block_end(bytes, at);
            (Kind::Block, end, has_break(part_of(bytes, at, end)))
        }
        _ => (Kind::Word, word_end(bytes, at), false),
    }
}

/// Whether an LF or a CR is in the text.
fn has_break(text: &[u8]) -> bool {
    memchr2(b'\n', b'\r', text).is_some()
}

#[inline(always)]
fn is_break(byte: u8) -> bool {
    byte == b'\n' || byte == b'\r'
}

/// The same of a string.
#[inline(always)]
fn string_and_end(bytes: &[u8], from: usize) -> (Kind, usize, bool)
    ensures { EndsWithin bytes.now from result.1 }
{
    let quote = byte_at(bytes, from);
    let mut at = past(bytes, from);
    let mut is_broken = false;
    while at < bytes.len() {
        at += Run::Quoted(quote).len(&bytes[at..]);
        if byte_at(bytes, at) != b'\\' {
            return (Kind::Word, past(bytes, at), is_broken);
        }
        at = past(bytes, at);
        is_broken = is_broken || is_break(byte_at(bytes, at));
        at = past(bytes, at);
    }
    (Kind::Word, at, is_broken)
}

/// The next offset, if there is one.
#[inline(always)]
fn past(bytes: &[u8], at: usize) -> usize
    ensures further { IsFurther bytes.now at result }
    ensures after { EndsWithin bytes.now at result }
{
    if at < bytes.len() { at + 1 } else { at }
}

/// Where the `//` comment at this offset ends, without the blanks at its end.
fn line_comment_end(bytes: &[u8], from: usize) -> usize
    ensures { EndsWithin bytes.now from result }
{
    let start = past(bytes, from);
    let mut end = line_end_after(bytes, start);
    while end > start && matches!(byte_at(bytes, end - 1), b' ' | 9..=13) {
        end -= 1;
    }
    end
}

/// Where the first line end from this offset on begins.
pub(crate) fn line_end_after(bytes: &[u8], from: usize) -> usize
    ensures { IsFurther bytes.now from result }
{
    let mut at = from;
    while at < bytes.len() {
        at += Run::Line.len(&bytes[at..]);
        if line_end_len(bytes, at) > 0 {
            return at;
        }
        at = past(bytes, at);
    }
    at
}

/// Where the `/* */` comment at this offset ends.
fn block_end(bytes: &[u8], from: usize) -> usize
    ensures { EndsWithin bytes.now from result }
{
    let mut at = past(bytes, past(bytes, from));
    while let Some(star) = memchr(b'*', part_of(bytes, at, bytes.len())) {
        at += star + 1;
        if byte_at(bytes, at) == b'/' {
            return past(bytes, at);
        }
    }
    bytes.len().max(from)
}

/// Where a number, a literal or a name ends: before a blank, a sign of punctuation, a quote or a slash.
#[inline(always)]
fn word_end(bytes: &[u8], from: usize) -> usize
    ensures { EndsWithin bytes.now from result }
{
    let mut at = past(bytes, from);
    while at < bytes.len() {
        at += Run::Word.len(&bytes[at..]);
        if byte_at(bytes, at) < 128 || blank_len(bytes, at) > 0 {
            return at;
        }
        at = past(bytes, at);
    }
    at
}
