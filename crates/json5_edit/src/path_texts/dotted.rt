//! Names with dots between them, indices and keys between brackets.

ghost use Rattle.std.specs.Prelude.{◌≡◌, ◌++◌, true, IfOk};
ghost use Rattle.std.specs.List.{prefix_len};
ghost use Rattle.json5_edit.specs.PathTexts.{ReadsBetween, ReadsIndex, ReadsInside, ReadsQuoted, ReadsStep, SpellsDotted, SplitsName, dot_unless, is_in_name};

use crate::path_texts::faults::{Expected, PathError};
use crate::path_texts::parsed::{Written, expected};
use json5_types::digit_runs::split_digits;
use std::alloc::Global;

/// Reads a path's steps.
pub(crate) fn read_dotted(alloc: Global, text: &str) -> Result<Vec<Written>, PathError>
    ensures { IfOk result (λ steps. SpellsDotted true steps.items text.now) }
{
    let mut steps = Vec::new(alloc);
    let mut rest = text;
    'steps: while !rest.is_empty() {
        let (step, after) = read_step(alloc, text, rest, steps.is_empty())?;
        steps.push(step)?;
        rest = after;
    }
    Ok(steps)
}

/// The step in front, and what follows it: one between brackets, or a name, behind a dot but at the start of the path.
fn read_step<'t>(
    alloc: Global,
    text: &str,
    rest: &'t str,
    is_first: bool,
) -> Result<(Written, &'t str), PathError>
    ensures { IfOk result (λ p. ReadsStep is_first rest.now p.0 p.1.now) }
{
    if let Some(inner) = rest.strip_prefix('[') {
        return read_bracketed(alloc, text, inner);
    }
    let begun = skip_dot(text, rest, is_first)?;
    let (name, after) = split_name(begun);
    if name.is_empty() {
        return Err(expected(text, after, Expected::Name));
    }
    let key = String::from_str(alloc, name)?;
    Ok((Written::Key(key), after))
}

/// What follows the dot before a name; at the start of the path there is none.
fn skip_dot<'t>(text: &str, rest: &'t str, is_first: bool) -> Result<&'t str, PathError>
    ensures { IfOk result (λ begun. rest.now ≡ dot_unless is_first ++ begun.now) }
{
    if is_first {
        return Ok(rest);
    }
    match rest.strip_prefix('.') {
        Some(begun) => Ok(begun),
        None => Err(expected(text, rest, Expected::DotOrBracket)),
    }
}

/// The index or key after an opening bracket, and what follows the closing one.
fn read_bracketed<'t>(
    alloc: Global,
    text: &str,
    inner: &'t str,
) -> Result<(Written, &'t str), PathError>
    ensures { IfOk result (λ p. ReadsBetween inner.now p.0 p.1.now) }
{
    let (step, after) = read_inside(alloc, text, inner)?;
    match after.strip_prefix(']') {
        Some(rest) => Ok((step, rest)),
        None => Err(expected(text, after, Expected::ClosingBracket)),
    }
}

/// The index or key in front, and what follows it.
fn read_inside<'t>(
    alloc: Global,
    text: &str,
    inner: &'t str,
) -> Result<(Written, &'t str), PathError>
    ensures { IfOk result (λ p. ReadsInside inner.now p.0 p.1.now) }
{
    if let Some(begun) = inner.strip_prefix('"') {
        return read_quoted(alloc, text, begun, '"');
    }
    if let Some(begun) = inner.strip_prefix('\'') {
        return read_quoted(alloc, text, begun, '\'');
    }
    let (index, after) = read_index(text, inner)?;
    Ok((Written::Index(index), after))
}

/// The key after a quote, and what follows the next one.
fn read_quoted<'t>(
    alloc: Global,
    text: &str,
    begun: &'t str,
    quote: char,
) -> Result<(Written, &'t str), PathError>
    ensures { IfOk result (λ p. ReadsQuoted quote begun.now p.0 p.1.now) }
{
    let Some((name, rest)) = begun.split_once(quote) else {
        return Err(expected(text, "", Expected::Quote));
    };
    let key = String::from_str(alloc, name)?;
    Ok((Written::Key(key), rest))
}

/// The index in front, and what follows it.
fn read_index<'t>(text: &str, inner: &'t str) -> Result<(usize, &'t str), PathError>
    ensures { IfOk result (λ p. ReadsIndex inner.now p.0 p.1.now) }
{
    let (digits, after) = split_digits(inner);
    if digits.is_empty() {
        return Err(expected(text, after, Expected::IndexOrKey));
    }
    match digits.parse::<usize>() {
        Ok(index) => Ok((index, after)),
        Err(_) => Err(expected(text, inner, Expected::SmallerIndex)),
    }
}

/// The name in front, up to a dot or a bracket, and what follows it.
fn split_name(text: &str) -> (&str, &str)
    ensures { SplitsName text.now result.0.now result.1.now }
{
    text.split_at(name_len(text.as_bytes()))
}

/// How many bytes in front are no dot and no bracket.
fn name_len(bytes: &[u8]) -> usize
    ensures { result ≡ prefix_len is_in_name bytes.now }
{
    let mut i = 0;
    while i < bytes.len() && is_in_name(bytes[i]) {
        i += 1;
    }
    i
}

/// Whether a name may have the byte.
fn is_in_name(byte: u8) -> bool
    ensures { result ≡ is_in_name byte }
{
    !matches!(byte, b'.' | b'[' | b']')
}
