//! Where the parts of a document stand that JSON pointers lead to: their keys too, unlike `find` of json5_edit.

use json5_read::brackets::BracketKind;
use json5_types::error::Result;
use json5_types::nesting::Limit;
use json5_walk::walk::Walk;
use std::alloc::{AllocError, Global};

/// Where a part begins, in bytes.
#[derive(Clone, Copy, Drop)]
pub(crate) struct Spot {
    /// Its key; the value itself, where that has none.
    pub(crate) key: usize,
    pub(crate) value: usize,
}

/// A part of a JSON pointer.
#[derive(Drop)]
struct Part {
    key: String,
    /// The index that it is in an array.
    index: Option<usize>,
}

/// A part of a document that is looked for.
#[derive(Drop)]
pub(crate) struct Sought {
    parts: Vec<Part>,
    /// How many of these lead to the value that the walk is in.
    met: usize,
    /// Where it begins; the whole value, as long as it isn't found.
    pub(crate) spot: Spot,
}

impl Sought {
    /// What this pointer leads to.
    pub(crate) fn new(alloc: Global, pointer: &str) -> Result<Sought> {
        let mut parts = Vec::new(alloc);
        for part in pointer.split('/').skip(1) {
            parts.push(Part {
                key: unescaped(alloc, part)?,
                index: part.parse::<usize>().ok(),
            })?;
        }
        Ok(Sought {
            parts,
            met: 0,
            spot: Spot { key: 0, value: 0 },
        })
    }

    /// Whether the pointer goes on to this entry of what it met so far.
    fn leads_to(&self, kind: BracketKind, key: &str, index: usize) -> bool {
        match (self.parts.get(self.met), kind) {
            (Some(part), BracketKind::Object) => part.key.as_str() == key,
            (Some(part), BracketKind::Array) => part.index == Some(index),
            (None, _) => false,
        }
    }
}

/// The part as a key.
fn unescaped(alloc: Global, part: &str) -> std::result::Result<String, AllocError> {
    let mut text = String::new(alloc);
    let mut is_escaped = false;
    for c in part.chars() {
        match c {
            '0' if is_escaped => text.push('~')?,
            '1' if is_escaped => text.push('/')?,
            '~' => {}
            _ => text.push(c)?,
        }
        is_escaped = c == '~';
    }
    Ok(text)
}

/// Puts to each where it begins, of equal keys the last, in one walk over the text.
pub(crate) fn find_all(alloc: Global, text: &str, sought: &mut [Sought]) -> Result<()> {
    let mut walk = Walk::new(alloc, text, Limit::full());
    walk.gap()?;
    let top = walk.offset();
    for one in sought.iter_mut() {
        one.spot = Spot {
            key: top,
            value: top,
        };
    }
    seek(&mut walk, sought, usize::from(Limit::full().get()), top)
}

/// Passes over the value in front, whose key begins there, and puts the spots in it, so many levels deep.
#[cycle(seek)]
fn seek(walk: &mut Walk<'_>, sought: &mut [Sought], levels: usize, key: usize) -> Result<()> {
    let value = walk.offset();
    let goes_on = put_spots(sought, walk.depth(), Spot { key, value });
    let below = match levels.checked_sub(1) {
        Some(below) if goes_on => below,
        _ => return walk.skip(),
    };
    for kind in [BracketKind::Object, BracketKind::Array] {
        if walk.open(kind) {
            return seek_entries(walk, sought, below, kind);
        }
    }
    walk.skip()
}

/// Passes over the rest of an object or array.
#[cycle(seek)]
fn seek_entries(
    walk: &mut Walk<'_>,
    sought: &mut [Sought],
    levels: usize,
    kind: BracketKind,
) -> Result<()> {
    for index in 0..walk.text().len() {
        let Some(key) = walk.entry()? else {
            break;
        };
        let depth = walk.depth();
        if meet(sought, depth, kind, key.text.as_str(), index) {
            seek(walk, sought, levels, key.start)?;
            go_back(sought, depth);
        } else {
            walk.skip()?;
        }
    }
    Ok(())
}

/// Puts the spot to those that lead to the value at this depth and no further, and says whether one leads further.
fn put_spots(sought: &mut [Sought], depth: usize, spot: Spot) -> bool {
    let mut goes_on = false;
    for one in sought.iter_mut() {
        if one.met == depth && one.parts.len() == depth {
            one.spot = spot;
        }
        goes_on = goes_on || (one.met == depth && one.parts.len() > depth);
    }
    goes_on
}

/// Goes on to the entry with those that lead to it, which is so deep, and says whether there is one.
fn meet(sought: &mut [Sought], depth: usize, kind: BracketKind, key: &str, index: usize) -> bool {
    let mut is_met = false;
    for one in sought.iter_mut() {
        if one.met < depth && depth - one.met == 1 && one.leads_to(kind, key, index) {
            one.met = depth;
            is_met = true;
        }
    }
    is_met
}

/// Goes back from an entry that is so deep.
fn go_back(sought: &mut [Sought], depth: usize) {
    for one in sought.iter_mut() {
        one.met = one.met.min(depth.saturating_sub(1));
    }
}
