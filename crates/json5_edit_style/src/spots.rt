//! Where the elements or members of a collection stand in its text.

use crate::gaps::Gap;
use json5_read::brackets::BracketKind;
use json5_types::ErrorCode;
use json5_types::cow_str::CowStr;
use json5_types::error::{Error, Result};
use json5_types::nesting::Limit;
use json5_walk::entry::EntryKey;
use json5_walk::walk::Walk;
use std::alloc::Global;

/// Where an element or a member stands, in bytes of the collection's text.
#[derive(Clone, Copy, Drop)]
pub(crate) struct Spot {
    /// Where the blanks before it begin.
    from: usize,
    /// Where the key begins and ends: in an array both are where the value begins.
    pub(crate) start: usize,
    pub(crate) key_end: usize,
    /// Where the value begins and ends.
    pub(crate) value: usize,
    pub(crate) end: usize,
    pub(crate) comma: Option<usize>,
}

impl Spot {
    /// Where it ends with its comma.
    pub(crate) fn full_end(self) -> usize {
        match self.comma {
            Some(comma) => comma.saturating_add(1),
            None => self.end,
        }
    }

    /// Whether blanks and comments alone stand before it on its line, and it isn't the first line.
    pub(crate) fn begins_line(self, text: &str) -> bool {
        Gap::of(text, self.from, self.start).line_end.is_some()
    }
}

/// Which entry is meant.
///
/// ```text
/// Which::Key("a")    // of `{ a: 1, b: 2, a: 3 }` the third
/// ```
#[derive(Clone, Copy, Drop)]
pub enum Which<'k> {
    /// The last member with this key.
    Key(&'k str),
    /// The entry that so many others come before.
    Index(usize),
}

impl<'k> Which<'k> {
    /// Whether it may be the entry with this index and this key.
    fn fits(self, index: usize, key: &str) -> bool {
        match self {
            Which::Key(wanted) => key == wanted,
            Which::Index(wanted) => index == wanted,
        }
    }
}

/// An entry, those beside it, and where the closing bracket begins.
#[derive(Clone, Copy, Drop)]
pub(crate) struct Around {
    pub(crate) before: Option<Spot>,
    pub(crate) here: Option<Spot>,
    pub(crate) after: Option<Spot>,
    /// How many come before it.
    pub(crate) index: usize,
    /// How many there are in all.
    pub(crate) count: usize,
    pub(crate) close: usize,
}

impl Around {
    /// Where the entry before it ends with its comma, or after the opening bracket.
    pub(crate) fn from(self) -> usize {
        match self.before {
            Some(spot) => spot.full_end(),
            None => 1,
        }
    }
}

/// The entry that is meant, and what is beside it; where there is none, the last entry is before it.
pub(crate) fn find_around(alloc: Global, text: &str, which: Which<'_>) -> Result<Around> {
    let mut walk = opened(alloc, text)?;
    let mut last = None;
    let mut around = Around {
        before: None,
        here: None,
        after: None,
        index: 0,
        count: 0,
        close: 0,
    };
    for count in 0..text.len() {
        let Some((spot, key)) = next_spot(&mut walk)? else {
            around.count = count;
            around.close = text.len().saturating_sub(1);
            return Ok(around);
        };
        if which.fits(count, key.as_str()) {
            around.before = last;
            around.here = Some(spot);
            around.after = None;
            around.index = count;
        } else if around.here.is_none() {
            around.before = Some(spot);
        } else if around.after.is_none() {
            around.after = Some(spot);
        }
        last = Some(spot);
    }
    Err(Error::new(ErrorCode::Failed))
}

/// A walk over the collection whose bracket was taken, with the blanks before it.
pub(crate) fn opened(alloc: Global, text: &str) -> Result<Walk<'_>> {
    let mut walk = Walk::new(alloc, text, Limit::full());
    walk.gap()?;
    if walk.open(BracketKind::Array) || walk.open(BracketKind::Object) {
        return Ok(walk);
    }
    Err(Error::new(ErrorCode::Failed))
}

/// The next entry and its key, or None after the closing bracket, which is taken.
pub(crate) fn next_spot<'t>(walk: &mut Walk<'t>) -> Result<Option<(Spot, CowStr<'t>)>> {
    let from = walk.offset();
    let Some(key) = walk.entry()? else {
        return Ok(None);
    };
    let EntryKey {
        text,
        start,
        end: key_end,
    } = key;
    let value = walk.offset();
    walk.skip()?;
    let end = walk.offset();
    walk.gap()?;
    let comma = walk.offset();
    let comma = if walk.comma() { Some(comma) } else { None };
    let spot = Spot {
        from,
        start,
        key_end,
        value,
        end,
        comma,
    };
    Ok(Some((spot, text)))
}
