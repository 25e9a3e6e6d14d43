//! The name that is meant by another one, of those that are known.
//!
//! Plain code, of which no promise is made but that it is safe and ends: change it by the rows of schemas, which judge it.

use std::alloc::{AllocError, Global};
use strsim::osa_distance;

/// The known name that is nearest to this one, if one is near: its letters in other case, or one letter away of three at
/// least, or two of six.
pub fn nearest<'m>(
    alloc: Global,
    name: &str,
    known: &[&'m str],
) -> Result<Option<&'m str>, AllocError> {
    let mut least: usize = 3;
    let mut near = None;
    for other in known {
        let distance = distance_of(alloc, name, other)?;
        if distance < least && distance <= name.len().max(other.len()) / 3 {
            (near, least) = (Some(*other), distance);
        }
    }
    Ok(near)
}

/// How many letters the names differ in; 0 if only in case.
fn distance_of(alloc: Global, name: &str, known: &str) -> Result<usize, AllocError> {
    if name.eq_ignore_ascii_case(known) {
        return Ok(0);
    }
    osa_distance(alloc, name, known)
}
