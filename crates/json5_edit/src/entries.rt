//! The elements or members of a collection, as a walk passes them.

ghost use Rattle.std.specs.Prelude.{IfOk};
ghost use Rattle.json5_edit.specs.Entries.{TakesText, PassesEntry};
ghost use Rattle.json5_walk.specs.Walks.{Moved};

use json5_types::ErrorCode;
use json5_types::cow_str::CowStr;
use json5_types::error::{Error, Result};
use json5_walk::entry::EntryKey;
use json5_walk::walk::Walk;

/// An element or a member: its key, which is empty in an array, and the text of its value; and in bytes of the text where
/// what stands before it begins, after another value or the bracket, and where it begins and ends.
#[derive(Drop)]
pub(crate) struct Entry<'t> {
    pub(crate) key: CowStr<'t>,
    pub(crate) value: &'t str,
    pub(crate) from: usize,
    pub(crate) start: usize,
    pub(crate) end: usize,
}

/// Passes over the next entry with the comma before it, or over the closing bracket, where it returns None.
pub(crate) fn next_entry<'t>(walk: &mut Walk<'t>) -> Result<Option<Entry<'t>>>
    ensures { IfOk result (PassesEntry walk.old walk.new) }
{
    let from = walk.offset();
    let Some(
        EntryKey {
            text: key,
            start,
            ..
        },
    ) = walk.entry()?
    else {
        return Ok(None);
    };
    let value = value_text(walk)?;
    let end = walk.offset();
    Ok(Some(Entry {
        key,
        value,
        from,
        start,
        end,
    }))
}

/// Passes over a value, and returns its text.
fn value_text<'t>(walk: &mut Walk<'t>) -> Result<&'t str>
    ensures { IfOk result (λ text. Moved (TakesText text.now) walk.old walk.new) }
{
    let text = walk.text();
    let start = walk.offset();
    walk.skip()?;
    let end = walk.offset();
    match text.get(start..end) {
        Some(value) => Ok(value),
        None => Err(failed()),
    }
}

/// Two texts that don't agree.
#[cold]
pub(crate) fn failed() -> Error {
    Error::new(ErrorCode::Failed)
}
