//! Members of the object that begins at an offset, by their keys.
//!
//! Plain code, of which no promise is made but that it is safe and ends: change it by the rows of reports, which judge it.

use crate::lexemes::{Kind, Lexeme, lexeme_at};
use crate::path::is_named;
use std::alloc::{AllocError, Global};

/// The keys of the object that begins at the offset.
pub(crate) fn member_keys(
    alloc: Global,
    text: &str,
    from: usize,
) -> Result<Vec<Lexeme>, AllocError> {
    let mut keys = Vec::new(alloc);
    let mut next = lexeme_at(text, from);
    let is_object = next.of(text) == "{";
    let mut is_key_due = is_object;
    let mut depth: usize = 0;
    for _ in from..text.len() {
        match next.kind {
            Kind::Open => depth = depth.saturating_add(1),
            Kind::Close => depth = depth.saturating_sub(1),
            Kind::Comma if depth == 1 => is_key_due = is_object,
            Kind::Text | Kind::Word if depth == 1 && is_key_due => {
                keys.push(next)?;
                is_key_due = false;
            }
            _ => {}
        }
        if depth == 0 || next.kind == Kind::End {
            break;
        }
        next = lexeme_at(text, next.end);
    }
    Ok(keys)
}

/// The key with this name in the object that begins at the offset, after so many others of that name.
pub(crate) fn member_key(
    alloc: Global,
    text: &str,
    from: usize,
    name: &str,
    others: usize,
) -> Result<Option<Lexeme>, AllocError> {
    let keys = member_keys(alloc, text, from)?;
    let mut left = others;
    for key in &keys {
        if is_named(text, *key, name) {
            if left == 0 {
                return Ok(Some(*key));
            }
            left = left.saturating_sub(1);
        }
    }
    Ok(None)
}
