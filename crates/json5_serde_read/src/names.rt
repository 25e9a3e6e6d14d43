//! The names of a type: the search for one among them, and how they are told.

use serde::{Case, Name, NameKind};
use std::alloc::Global;

macro_rules! return_field {
    ($names:ident, $key:ident, $($at:literal)*) => {
        $(if $at < $names.len() && is_field(&$names[$at], $key) {
            return $at;
        })*
    };
}

/// The index of the first name that the key stands for, or `usize::MAX`. The first names are tried without a loop, so that
/// over a constant table a jump on the key's length is left, and compares with constants.
#[inline(always)]
pub(crate) fn find_field(names: &[Name<'_>], key: &str) -> usize {
    if names.is_empty() || !is_key(&names[0]) {
        return serde::find(names, key);
    }
    return_field!(names, key, 0 1 2 3 4 5 6 7 8 9 10 11 12 13 14 15);
    if names.len() <= 16 {
        return usize::MAX;
    }
    find_name(names, key)
}

/// Whether a name without an alias is the field's key as it stands.
#[inline(always)]
fn is_key(name: &Name<'_>) -> bool {
    matches!(
        (name.case, name.kind),
        (Case::AsIs, _) | (Case::Lower | Case::Snake, NameKind::Field)
    )
}

/// Whether the key stands for the name of a field.
#[inline(always)]
fn is_field(name: &Name<'_>, key: &str) -> bool {
    if is_key(name) && name.aliases.is_empty() {
        return !name.skipped && is_same(name.name.as_bytes(), key.as_bytes());
    }
    stands_for(name, key)
}

/// Whether the bytes are the same. They are compared one by one, so that those of a constant become compares.
#[inline(always)]
fn is_same(name: &[u8], key: &[u8]) -> bool {
    if name.len() != key.len() {
        return false;
    }
    for at in 0..name.len() {
        if name.get(at) != key.get(at) {
            return false;
        }
    }
    true
}

/// The index of the first name that the key stands for, where no call knows the names beforehand, as those of an enum.
#[inline(never)]
pub(crate) fn find_name(names: &[Name<'_>], key: &str) -> usize {
    let first = first_of(key);
    for at in 0..names.len() {
        if is_name(&names[at], key, first) {
            return at;
        }
    }
    usize::MAX
}

/// Whether the key, which begins with this byte, stands for the name. Most names have another first letter.
#[inline(always)]
fn is_name(name: &Name<'_>, key: &str, first: u8) -> bool {
    if let (Case::AsIs, true) = (name.case, name.aliases.is_empty()) {
        return first_of(name.name) == first && name.name == key && !name.skipped;
    }
    may_be(name, first) && stands_for(name, key)
}

/// Whether a key may begin with this byte: each case keeps a first letter, and an alias has another one.
#[inline(always)]
fn may_be(name: &Name<'_>, first: u8) -> bool {
    let begins = first_of(name.name);
    !begins.is_ascii_alphabetic() || begins.eq_ignore_ascii_case(&first) || !name.aliases.is_empty()
}

#[inline(never)]
fn stands_for(name: &Name<'_>, key: &str) -> bool {
    !name.skipped && (name.case.matches(name.kind, name.name, key) || is_among(name.aliases, key))
}

fn is_among(aliases: &[&str], key: &str) -> bool {
    aliases.contains(&key)
}

/// The first byte, or 0.
#[inline(always)]
fn first_of(text: &str) -> u8 {
    match text.as_bytes().first() {
        Some(byte) => *byte,
        None => 0,
    }
}

/// What a name has to be: `` expected `a` ``, `` expected `a` or `b` ``, or `` expected one of `a`, `b`, `c` ``.
#[cold]
#[inline(never)]
pub(crate) fn list_of(alloc: Global, names: &[Name<'_>]) -> Option<String> {
    let count = count_of(names);
    let (lead, mark) = match count {
        0 => ("there are no ", ""),
        1 | 2 => ("expected `", "` or `"),
        _ => ("expected one of `", "`, `"),
    };
    let mut list = String::from_str(alloc, lead).ok()?;
    let mut left = count;
    for name in names {
        if !name.skipped {
            left = left.saturating_sub(1);
            name.case.append(name.kind, name.name, &mut list).ok()?;
            list.push_str(if left == 0 { "`" } else { mark }).ok()?;
        }
    }
    Some(list)
}

/// The key of a field.
pub(crate) fn key_of(alloc: Global, name: &Name<'_>) -> Option<String> {
    let mut key = String::new(alloc);
    name.case.append(name.kind, name.name, &mut key).ok()?;
    Some(key)
}

/// How many of the names may be read.
fn count_of(names: &[Name<'_>]) -> usize {
    let mut count: usize = 0;
    for name in names {
        if !name.skipped {
            count = count.saturating_add(1);
        }
    }
    count
}
