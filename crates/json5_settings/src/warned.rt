//! Warnings of what is likely a slip in a document.

ghost use Rattle.std.specs.Prelude.{◌≡◌, ◌++◌, IfOk, IfErr, OnOk, MatchResult};
ghost use Rattle.json5_types.specs.Errors.{LacksMemory};
ghost use Rattle.json5_settings.specs.Warnings.{AreWarnings, IsFaultAt, Looks, LooksAt, LooksInto, NotesKey, RefusesReading, told_if};

use crate::positions::position_of;
use crate::slips::{Slip, slip_of};
use json5_read::brackets::BracketKind;
use json5_read::check_document;
use json5_types::ErrorCode;
use json5_types::cow_str::CowStr;
use json5_types::error::{Error, Result};
use json5_types::nesting::Limit;
use json5_walk::entry::EntryKey;
use json5_walk::walk::Walk;
use std::alloc::{AllocError, Global};
use std::collections::BTreeSet;

/// How many brackets may be open at once.
const LEVELS: usize = 128;

/// What is likely a slip, and where it stands, in bytes.
///
/// ```text
/// Warning { offset: 11, slip: Slip::RepeatedKey }    // of `{ port: 1, port: 2 }`
/// ```
#[derive(Clone, Copy, Debug, Drop)]
pub struct Warning {
    /// Where the key or the string begins.
    pub offset: usize,
    pub slip: Slip,
}

impl Warning {
    /// Makes the fault that says so, where it stands: its report shows it.
    ///
    /// ```text
    /// for warning in &warnings(alloc, &text)? {
    ///     let fault = warning.fault(alloc, &text)?;
    ///     println!(rt; "warning: {}", Report::new(alloc, "shop.json5", &text, &fault)?)?;
    /// }
    /// ```
    ///
    /// # Errors
    ///
    /// - `OutOfMemory`, without a position, where a request for memory was refused.
    pub fn fault(&self, alloc: Global, text: &str) -> Result<Error>
        ensures { MatchResult result (IsFaultAt text.now self.now.offset) LacksMemory }
    {
        Error::custom_at(alloc, position_of(text, self.offset), self.slip.message())
    }
}

/// Returns what is likely a slip in a document, in its order: each key that a member before it in the same object has,
/// and strings that likely mean other characters than they were written for.
///
/// ```text
/// warnings(alloc, "{ port: 1, key: 'C:\\new', port: 2 }")?    // of the string, and of the second `port`
/// ```
///
/// # Errors
///
/// - As reading the text as a value.
pub fn warnings(alloc: Global, text: &str) -> Result<Vec<Warning>>
    ensures warned { IfOk result (λ ws. AreWarnings text.now ws.items) }
    ensures refused { IfErr result (RefusesReading text.now) }
{
    match check_document(alloc, text) {
        Ok(()) => {}
        Err(e) => return Err(e),
    }
    match found_in(alloc, text) {
        Ok(found) => Ok(found),
        Err(_) => Err(Error::new(ErrorCode::OutOfMemory)),
    }
}

/// The warnings of a document.
fn found_in(alloc: Global, text: &str) -> Result<Vec<Warning>>
    ensures { IfOk result (λ found. AreWarnings text.now found.items) }
{
    let mut found = Vec::new(alloc);
    let mut walk = Walk::new(alloc, text, Limit::full());
    walk.gap()?;
    look(alloc, &mut walk, LEVELS, &mut found)?;
    walk.finish()?;
    Ok(found)
}

/// Looks at the value in front, and passes over it.
#[cycle(look)]
fn look(alloc: Global, walk: &mut Walk<'_>, levels: usize, found: &mut Vec<Warning>) -> Result<()>
    ensures { OnOk result (Looks walk.old walk.new found.old.items found.new.items) }
{
    if walk.open(BracketKind::Object) {
        return look_into(alloc, walk, BracketKind::Object, levels, found);
    }
    if walk.open(BracketKind::Array) {
        return look_into(alloc, walk, BracketKind::Array, levels, found);
    }
    look_at(walk, found)
}

/// Looks at the entries of a bracket of this kind that was opened, and closes it.
#[cycle(look)]
fn look_into(
    alloc: Global,
    walk: &mut Walk<'_>,
    kind: BracketKind,
    levels: usize,
    found: &mut Vec<Warning>,
) -> Result<()>
    ensures { OnOk result (LooksInto kind walk.old walk.new found.old.items found.new.items) }
{
    let Some(inner) = levels.checked_sub(1) else {
        return Err(Error::new(ErrorCode::Failed));
    };
    let mut keys = BTreeSet::new(alloc);
    for _ in 0..walk.text().len() {
        let Some(key) = walk.entry()? else {
            return Ok(());
        };
        note_key(kind, key, &mut keys, found)?;
        look(alloc, walk, inner, found)?;
    }
    Err(Error::new(ErrorCode::Failed))
}

/// Adds the key of a member to those before it, and a warning if it is among them.
fn note_key<'t>(
    kind: BracketKind,
    key: EntryKey<'t>,
    keys: &mut BTreeSet<CowStr<'t>>,
    found: &mut Vec<Warning>,
) -> std::result::Result<(), AllocError>
    ensures { OnOk result (NotesKey kind key.entry keys.old keys.new found.old.items found.new.items) }
{
    match kind {
        BracketKind::Array => Ok(()),
        BracketKind::Object => {
            let EntryKey { text, start, .. } = key;
            let is_new = keys.insert(text)?;
            warn_if(!is_new, start, found)
        }
    }
}

/// Adds a warning of the key at this offset, if it is a repeated one.
fn warn_if(
    is_repeated: bool,
    offset: usize,
    found: &mut Vec<Warning>,
) -> std::result::Result<(), AllocError>
    ensures { OnOk result (found.new.items ≡ found.old.items ++ told_if is_repeated offset) }
{
    if !is_repeated {
        return Ok(());
    }
    let slip = Slip::RepeatedKey;
    found.push(Warning { offset, slip })?;
    Ok(())
}

/// Looks at the spelling of a value without brackets, and passes over it.
fn look_at(walk: &mut Walk<'_>, found: &mut Vec<Warning>) -> Result<()>
    ensures { OnOk result (LooksAt walk.old walk.new found.old.items found.new.items) }
{
    let offset = walk.offset();
    walk.skip()?;
    let Some(spelled) = walk.text().get(offset..walk.offset()) else {
        return Err(Error::new(ErrorCode::Failed));
    };
    let Some(slip) = slip_of(spelled) else {
        return Ok(());
    };
    found.push(Warning { offset, slip })?;
    Ok(())
}
