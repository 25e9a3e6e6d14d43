//! What a patch puts into a text.

ghost use Rattle.std.specs.Prelude.{◌≡◌, [], IfErr, IfOk, string_bytes};
ghost use Rattle.std.specs.Str.{chars};
ghost use Rattle.json5_grammar.specs.Language.Trees.{Tree};
ghost use Rattle.json5_grammar.specs.Language.Values.{Val};
ghost use Rattle.json5_edit.specs.Refusals.{RefusesPath};
ghost use Rattle.json5_edit_values.specs.News.{Brings};

use crate::laid_out::lays_out;
use crate::seats::{Goes, seat_of};
use crate::spelled::spelled;
use json5_edit::{Result, Step};
use json5_edit_style::relined;
use json5_types::value::Value;
use std::alloc::Global;

/// What a patch puts into a text: a value of its own, or one that is spelled so in the text.
#[derive(Clone, Copy, Drop)]
pub(crate) enum New<'n> {
    Value(&'n Value),
    Text(&'n str),
}

/// Its text, laid out for where it goes.
pub(crate) fn new_text(
    alloc: Global,
    new: New<'_>,
    text: &str,
    path: &[Step<'_>],
    goes: Goes,
) -> Result<String>
    ensures { IfOk result (λ made. (v : Tree) → Val (chars (string_bytes made)) v → Brings new.entry v) }
{
    match new {
        New::Value(value) => spelled(alloc, value, text, path, goes, None),
        New::Text(part) => lined(alloc, part, text, path, goes),
    }
}

/// The value with its lines indented for where it goes; as it is, if they can't be.
fn lined(alloc: Global, part: &str, text: &str, path: &[Step<'_>], goes: Goes) -> Result<String>
    ensures { IfOk result (λ made. (v : Tree) → Val (chars (string_bytes made)) v → Val (chars part.now) v) }
{
    if let Some(made) = relined_at(alloc, part, text, path, goes) {
        if lays_out(alloc, made.as_str(), part) {
            return Ok(made);
        }
    }
    owned(alloc, part)
}

/// A copy.
pub(crate) fn owned(alloc: Global, text: &str) -> Result<String>
    ensures made { IfOk result (λ made. string_bytes made ≡ text.now) }
    ensures refused { IfErr result (RefusesPath text.now []) }
{
    Ok(String::from_str(alloc, text)?)
}

/// What is made of its lines, which isn't trusted; None if it has one.
fn relined_at(
    alloc: Global,
    part: &str,
    text: &str,
    path: &[Step<'_>],
    goes: Goes,
) -> Option<String> {
    if !part.contains('\n') {
        return None;
    }
    let seat = seat_of(alloc, text, path, goes, None).ok()?;
    relined(alloc, text, seat.indent.as_str(), part).ok()
}
