//! Pointers as of RFC 6901.

ghost use Rattle.std.specs.Prelude.{IfOk, IfSome};
ghost use Rattle.json5_types.specs.Pointers.{parts_of};
ghost use Rattle.json5_edit.specs.PathTexts.{IsEscape, SpellsParts, SpellsPartOf, UnescapesTo};

use crate::path_texts::faults::{Expected, PathError};
use crate::path_texts::parsed::Written;
use json5_types::value_pointer::index_of;
use std::alloc::Global;

/// Reads the steps of a pointer of this length, of which `rest` follows the first slash.
pub(crate) fn read_pointer(alloc: Global, len: usize, rest: &str) -> Result<Vec<Written>, PathError>
    ensures { IfOk result (λ steps. SpellsParts steps.items (parts_of rest.now)) }
{
    let mut steps = Vec::new(alloc);
    let mut left = rest;
    'parts: while let Some((part, more)) = left.split_once('/') {
        let end = len.saturating_sub(more.len()).saturating_sub(1);
        steps.push(read_part(alloc, end, part)?)?;
        left = more;
    }
    steps.push(read_part(alloc, len, left)?)?;
    Ok(steps)
}

/// The step that a part spells, which ends at this offset in the pointer.
fn read_part(alloc: Global, end: usize, part: &str) -> Result<Written, PathError>
    ensures { IfOk result (SpellsPartOf part.now) }
{
    match index_of(part) {
        Some(index) => Ok(Written::Digits(String::from_str(alloc, part)?, index)),
        None => Ok(Written::Key(unescaped(alloc, end, part)?)),
    }
}

/// The key that a part spells, which ends at this offset in the pointer.
fn unescaped(alloc: Global, end: usize, part: &str) -> Result<String, PathError>
    ensures { IfOk result (UnescapesTo part.now) }
{
    let mut key = String::new(alloc);
    let mut rest = part;
    'escapes: while let Some((plain, escape)) = rest.split_once('~') {
        let Some((c, after)) = unescaped_front(escape) else {
            let place = end.saturating_sub(escape.len());
            return Err(PathError::At(place, Expected::ZeroOrOne));
        };
        key.push_str(plain)?;
        key.push(c)?;
        rest = after;
    }
    key.push_str(rest)?;
    Ok(key)
}

/// The character that is escaped, of what follows a tilde, and the rest.
fn unescaped_front(escape: &str) -> Option<(char, &str)>
    ensures { IfSome result (λ p. IsEscape escape.now p.0 p.1.now) }
{
    if let Some(after) = escape.strip_prefix('0') {
        return Some(('~', after));
    }
    match escape.strip_prefix('1') {
        Some(after) => Some(('/', after)),
        None => None,
    }
}
