//! Strings and names: runs of characters that spell themselves, and escapes (ECMAScript 5.1 sections 7.6 and 7.8.4).

ghost use Rattle.std.specs.Prelude.{◌≡◌, ◌++◌, ℕ, List, IfOk, OnOk, string_bytes};
ghost use Rattle.std.specs.Str.{chars, encode_utf8_all};
ghost use Rattle.json5_grammar.specs.Language.Characters.{NotBegun};
ghost use Rattle.json5_tokens.specs.TokenResults.{AnswersAs, AnswersCow, AddsRest, AnswersMore, AnswersOwned, Passes};
ghost use Rattle.json5_tokens.specs.Scan.{AtEscape, in_list};
ghost use Rattle.json5_tokens.specs.ScanTexts.{quote_of, after_first_char, past, ends_early, text_at, item, is_raw_in, SkipsRaw, AnswersStop, AnswersRun, AnswersStep, IsReadTo, AddsUpTo, PassesSteps, AddsSteps};

use crate::char::front;
use crate::escapes::{front_escape, read_escape};
use crate::names::{self, skip_parts, skip_start};
use crate::refusal::Refusal;
use crate::strings::skip_raw;
use json5_grammar::error_code::ErrorCode;
use json5_types::cow_str::CowStr;
use std::alloc::{AllocError, Global};

/// How many bytes a string with an escape has room for after the run before its first escape.
const ROOM: usize = 16;

/// The quotes of a string (JSON5 section 5).
#[derive(Clone, Copy)]
pub(crate) enum Quote {
    Double,
    Single,
}

impl Quote {
    #[inline(always)]
    pub(crate) fn byte(self) -> u8
        ensures { result ≡ quote_of self }
    {
        match self {
            Quote::Double => b'"',
            Quote::Single => b'\'',
        }
    }
}

/// What is read.
#[derive(Clone, Copy)]
pub(crate) enum Kind {
    /// A name from its start on.
    Name,
    /// A name after its first character.
    NameRest,
    /// A string in these quotes, after the first of them.
    String(Quote),
}

impl Kind {
    /// What is read after a character.
    #[inline(always)]
    fn rest(self) -> Kind
        ensures { result ≡ after_first_char self }
    {
        match self {
            Kind::Name | Kind::NameRest => Kind::NameRest,
            Kind::String(_) => self,
        }
    }

    /// What is read after these characters.
    #[inline(always)]
    fn past(self, run: &str) -> Kind
        ensures { result ≡ past self (chars run.now) }
    {
        if run.is_empty() { self } else { self.rest() }
    }

    /// The code of an input that ends in it.
    fn ends_early(self) -> ErrorCode
        ensures { result ≡ ends_early self }
    {
        match self {
            Kind::Name | Kind::NameRest => ErrorCode::EofParsingIdentifier,
            Kind::String(_) => ErrorCode::EofParsingString,
        }
    }
}

/// What ends a run of characters that spell themselves.
#[derive(Clone, Copy)]
enum Stop<'t> {
    /// The end of the string or name; this is what follows it.
    End(&'t str),
    /// An escape: the kind that it is read as, the input from the backslash on, and the input after the backslash.
    Escape(Kind, &'t str, &'t str),
}

/// An escape and the run after it.
#[derive(Clone, Copy)]
struct EscapeStep<'t> {
    /// What the escape spells.
    spelled: Option<char>,
    run: &'t str,
    stop: Stop<'t>,
}

/// What the string or name in front spells, and what follows it. It is borrowed if there is no backslash in it.
#[inline(always)]
pub(crate) fn read_text<'t>(
    alloc: Global,
    kind: Kind,
    text: &'t str,
) -> Result<(CowStr<'t>, &'t str), Refusal>
    ensures { AnswersCow (text_at kind (chars text.now)) result }
{
    let (run, stop) = read_run(kind, text)?;
    match stop {
        Stop::End(rest) => Ok((CowStr::Borrowed(run), rest)),
        Stop::Escape(kind, escape, after) => {
            let (text, rest) = read_escaped(alloc, run, kind, escape, after)?;
            Ok((CowStr::Owned(text), rest))
        }
    }
}

/// An owned copy of what the string or name in front spells, and what follows it.
#[inline(always)]
pub(crate) fn read_text_owned(
    alloc: Global,
    kind: Kind,
    text: &str,
) -> Result<(String, &str), Refusal>
    ensures { AnswersOwned (text_at kind (chars text.now)) result }
{
    let (run, stop) = read_run(kind, text)?;
    match stop {
        Stop::End(rest) => Ok((String::from_str(alloc, run)?, rest)),
        Stop::Escape(kind, escape, after) => read_escaped(alloc, run, kind, escape, after),
    }
}

/// What follows the string or name in front.
#[inline(always)]
pub(crate) fn skip_text(kind: Kind, text: &str) -> Result<&str, Refusal>
    ensures { Passes (text_at kind (chars text.now)) result }
{
    let (_, stop) = read_run(kind, text)?;
    match stop {
        Stop::End(rest) => Ok(rest),
        Stop::Escape(kind, escape, after) => skip_rest(kind, escape, after),
    }
}

/// What follows the string or name whose tail is in front; no character that spells itself is next.
#[inline(always)]
pub(crate) fn skip_stop(kind: Kind, tail: &str) -> Result<&str, Refusal>
    requires { NotBegun (is_raw_in kind) (chars tail.now) }
    ensures { Passes (text_at kind (chars tail.now)) result }
{
    match read_stop(kind, tail)? {
        Stop::End(rest) => Ok(rest),
        Stop::Escape(kind, escape, after) => skip_rest(kind, escape, after),
    }
}

/// What follows the string or name, from the escape in front on.
fn skip_rest<'t>(kind: Kind, escape: &'t str, after: &'t str) -> Result<&'t str, Refusal>
    requires { AtEscape escape.now after.now }
    ensures { Passes (text_at kind (chars escape.now)) result }
{
    let mut stop = Stop::Escape(kind, escape, after);
    loop {
        match stop {
            Stop::End(rest) => return Ok(rest),
            Stop::Escape(kind, escape, after) => stop = skip_steps(kind, escape, after)?,
        }
    }
}

/// What ends the run after the escape in front, or the run after the escapes behind it that have a short way.
fn skip_steps<'t>(kind: Kind, escape: &'t str, after: &'t str) -> Result<Stop<'t>, Refusal>
    requires { AtEscape escape.now after.now }
    ensures { PassesSteps kind escape.now after.now result }
{
    let step = read_step(kind, escape, after)?;
    match step.stop {
        Stop::End(rest) => Ok(Stop::End(rest)),
        Stop::Escape(kind, escape, _) => read_stop(kind, skip_escapes(kind, escape)),
    }
}

/// What follows the escapes in front that have a short way, and the runs after them. In a name no escape has one.
#[inline(never)]
pub(crate) fn skip_escapes(kind: Kind, escape: &str) -> &str
    ensures { (u : List ℕ) × IsReadTo kind escape.now u result.now }
{
    let Kind::String(quote) = kind else {
        return escape;
    };
    let mut rest = escape;
    while let Some((_, body)) = front_escape(rest) {
        rest = skip_raw(quote, body);
    }
    rest
}

/// The run in front with what the rest spells from the first escape on, and what follows the string or name.
fn read_escaped<'t>(
    alloc: Global,
    run: &str,
    kind: Kind,
    escape: &'t str,
    after: &'t str,
) -> Result<(String, &'t str), Refusal>
    requires { AtEscape escape.now after.now }
    ensures { AnswersMore run.now (text_at kind (chars escape.now)) result }
{
    let mut text = with_room(alloc, run)?;
    let rest = push_rest(&mut text, kind, escape, after)?;
    Ok((text, rest))
}

/// Adds what is spelled from the escape in front on, and returns what follows the string or name.
pub(crate) fn push_rest<'t>(
    text: &mut String,
    kind: Kind,
    escape: &'t str,
    after: &'t str,
) -> Result<&'t str, Refusal>
    requires { AtEscape escape.now after.now }
    ensures { AddsRest (string_bytes text.old) (text_at kind (chars escape.now)) (string_bytes text.new) result }
{
    let mut stop = Stop::Escape(kind, escape, after);
    loop {
        match stop {
            Stop::End(left) => return Ok(left),
            Stop::Escape(kind, escape, after) => {
                stop = push_steps(text, kind, escape, after)?;
            }
        }
    }
}

/// Adds what is spelled from the escape in front on, up to the end of the run after it or of a later run. Returns what ends that
/// run.
fn push_steps<'t>(
    text: &mut String,
    kind: Kind,
    escape: &'t str,
    after: &str,
) -> Result<Stop<'t>, Refusal>
    requires { AtEscape escape.now after.now }
    ensures { AddsSteps kind escape.now after.now (string_bytes text.old) (string_bytes text.new) result }
{
    let rest = push_escapes(text, kind, escape)?;
    match read_stop(kind, rest)? {
        Stop::End(rest) => Ok(Stop::End(rest)),
        Stop::Escape(kind, escape, after) => {
            let step = read_step(kind, escape, after)?;
            push_spelled(text, step.spelled)?;
            text.push_str(step.run)?;
            Ok(step.stop)
        }
    }
}

/// Adds what the escapes in front that have a short way and the runs after them spell, and returns what follows. In a name no
/// escape has one.
#[inline(never)]
pub(crate) fn push_escapes<'t>(
    text: &mut String,
    kind: Kind,
    escape: &'t str,
) -> Result<&'t str, AllocError>
    ensures { IfOk result (λ rest. AddsUpTo kind escape.now (string_bytes text.old) (string_bytes text.new) rest.now) }
{
    let Kind::String(quote) = kind else {
        return Ok(escape);
    };
    let mut rest = escape;
    while let Some((spelled, body)) = front_escape(rest) {
        rest = skip_raw(quote, body);
        text.push(spelled)?;
        text.push_str(&body[..body.len() - rest.len()])?;
    }
    Ok(rest)
}

/// An owned copy of the run, with room for what follows it, so that a short string with an escape is allocated once.
#[inline(always)]
pub(crate) fn with_room(alloc: Global, run: &str) -> Result<String, AllocError>
    ensures { IfOk result (λ text. string_bytes text ≡ run.now) }
{
    let mut text = String::with_capacity(alloc, run.len() + ROOM)?;
    text.push_str(run)?;
    Ok(text)
}

fn push_spelled(text: &mut String, spelled: Option<char>) -> Result<(), AllocError>
    ensures { OnOk result (string_bytes text.new ≡ string_bytes text.old ++ encode_utf8_all (in_list spelled)) }
{
    match spelled {
        Some(c) => text.push(c),
        None => Ok(()),
    }
}

/// The escape in front and the run after it.
#[inline(never)]
fn read_step<'t>(kind: Kind, escape: &str, after: &'t str) -> Result<EscapeStep<'t>, Refusal>
    requires { AtEscape escape.now after.now }
    ensures { AnswersStep kind escape.now after.now result }
{
    let (spelled, rest) = read_item(kind, escape, after)?;
    let (run, stop) = read_run(kind.rest(), rest)?;
    Ok(EscapeStep { spelled, run, stop })
}

/// What an escape spells, and what follows the escape.
fn read_item<'t>(
    kind: Kind,
    escape: &str,
    after: &'t str,
) -> Result<(Option<char>, &'t str), Refusal>
    ensures { AnswersAs in_list (item kind (chars escape.now) (chars after.now)) result }
{
    match kind {
        Kind::Name => names::read_name_item(true, escape, after),
        Kind::NameRest => names::read_name_item(false, escape, after),
        Kind::String(_) => read_escape(escape, after),
    }
}

/// The characters in front that spell themselves, and what ends them.
#[inline(always)]
fn read_run(kind: Kind, text: &str) -> Result<(&str, Stop<'_>), Refusal>
    ensures { AnswersRun kind text.now result }
{
    let rest = skip_run(kind, text);
    let run = &text[..text.len() - rest.len()];
    let stop = read_stop(kind.past(run), rest)?;
    Ok((run, stop))
}

/// What follows the characters in front that spell themselves.
#[inline(always)]
fn skip_run(kind: Kind, text: &str) -> &str
    ensures { SkipsRaw kind text.now result.now }
{
    match kind {
        Kind::Name => skip_start(text),
        Kind::NameRest => skip_parts(text),
        Kind::String(quote) => skip_raw(quote, text),
    }
}

/// What ends a run there.
#[inline(always)]
fn read_stop(kind: Kind, text: &str) -> Result<Stop<'_>, Refusal>
    requires { NotBegun (is_raw_in kind) (chars text.now) }
    ensures { AnswersStop kind text.now result }
{
    let Some((c, next)) = front(text) else {
        return Err(Refusal::TokenError {
            code: kind.ends_early(),
            remaining: None,
        });
    };
    if c == '\\' {
        return Ok(Stop::Escape(kind, text, next));
    }
    match kind {
        Kind::Name => Err(Refusal::TokenError {
            code: ErrorCode::ExpectedIdentifier,
            remaining: Some(text.len()),
        }),
        Kind::NameRest => Ok(Stop::End(text)),
        Kind::String(quote) => {
            if c == char::from(quote.byte()) {
                Ok(Stop::End(next))
            } else {
                Err(Refusal::TokenError {
                    code: ErrorCode::LineTerminatorInString,
                    remaining: Some(text.len()),
                })
            }
        }
    }
}
