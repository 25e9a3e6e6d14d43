//! The names in a message, and the nearest of those that are known.
//!
//! Plain code, of which no promise is made but that it is safe and ends: change it by the rows of reports, which judge it.

use crate::wording::{Change, Changed};
use std::alloc::{AllocError, Global};
use strsim::osa_distance;

/// The name in the message: what stands first between backquotes.
pub(crate) fn name_in(message: &str) -> Option<&str> {
    let (_, rest) = message.split_once('`')?;
    let (name, _) = rest.split_once('`')?;
    Some(name)
}

/// The known name of the message that is nearest to this one, if one is near: its letters in other case, or one letter
/// away of three at least, or two of six. Letters of other alphabets count as those that they look like.
pub(crate) fn near_name<'m>(
    alloc: Global,
    name: &str,
    message: &'m str,
) -> Result<Option<&'m str>, AllocError> {
    let Some((_, known)) = message.split_once(", expected ") else {
        return Ok(None);
    };
    let plain = format!(in alloc; "{}", Changed(name, Change::Plain))?;
    let mut least: usize = 2;
    let mut near = None;
    let mut is_known = false;
    for part in known.split('`') {
        if is_known {
            let is_same = plain.eq_ignore_ascii_case(part);
            let distance = if is_same {
                0
            } else {
                osa_distance(alloc, plain.as_str(), part)?
            };
            let is_near = distance <= name.len().max(part.len()) / 3;
            if is_near && (distance < least || distance == least && near.is_none()) {
                (near, least) = (Some(part), distance);
            }
        }
        is_known = !is_known;
    }
    Ok(near.or(begun_name(plain.as_str(), known)))
}

/// The only known name that begins as this one does, or that this one begins with: three letters are the same at least.
fn begun_name<'m>(name: &str, known: &'m str) -> Option<&'m str> {
    let mut found = None;
    let mut is_known = false;
    for part in known.split('`') {
        if is_known && is_begun(name, part) {
            if found.is_some() {
                return None;
            }
            found = Some(part);
        }
        is_known = !is_known;
    }
    found
}

/// Whether one of the names begins with the other, which has three letters at least.
fn is_begun(name: &str, known: &str) -> bool {
    let len = name.len().min(known.len());
    match (name.get(..len), known.get(..len)) {
        (Some(name), Some(known)) => len >= 3 && name.eq_ignore_ascii_case(known),
        _ => false,
    }
}
