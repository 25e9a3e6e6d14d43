//! A written value with its lines as they are where it goes.

ghost use Rattle.std.specs.Bool.{OnTrue};
ghost use Rattle.std.specs.Prelude.{IfOk, string_bytes};
ghost use Rattle.std.specs.Str.{chars};
ghost use Rattle.json5_edit.specs.Places.{IsValue};
ghost use Rattle.json5_grammar.specs.Language.Documents.{max_depth};
ghost use Rattle.json5_grammar.specs.Language.Trees.{Tree};
ghost use Rattle.json5_grammar.specs.Language.Values.{Val};

use crate::lines::arranged;
use crate::seats::{Goes, seat_of};
use json5_edit::Step;
use json5_lexemes::same_lexemes;
use json5_read::skip::skip_value;
use json5_styles::Layout;
use json5_tokens::scanner::Scanner;
use std::alloc::{AllocError, Global};

/// The written value, laid out for where it goes; as it is, if it has one line.
pub(crate) fn laid_out(
    alloc: Global,
    text: &str,
    path: &[Step<'_>],
    goes: Goes,
    layout: Option<Layout>,
    written: String,
) -> Result<String, AllocError>
    ensures { (t : Tree) → Val (chars (string_bytes written)) t → IfOk result (λ new. Val (chars (string_bytes new)) t) }
{
    if !written.as_str().contains('\n') {
        return Ok(written);
    }
    let made = seated(alloc, text, path, goes, layout, written.as_str())?;
    if lays_out(alloc, written.as_str(), made.as_str()) {
        return Ok(made);
    }
    Ok(written)
}

/// What is made of it, which isn't trusted.
fn seated(
    alloc: Global,
    text: &str,
    path: &[Step<'_>],
    goes: Goes,
    layout: Option<Layout>,
    written: &str,
) -> Result<String, AllocError> {
    let seat = seat_of(alloc, text, path, goes, layout)?;
    arranged(alloc, &seat, written)
}

/// Whether it is a value with the lexemes of the written one.
pub(crate) fn lays_out(alloc: Global, written: &str, made: &str) -> bool
    ensures { (t : Tree) → Val (chars written.now) t → OnTrue result (Val (chars made.now) t) }
{
    if !is_value(alloc, made) {
        return false;
    }
    same_lexemes(written, made)
}

/// Whether the text is a value, without blanks or comments around it.
pub(crate) fn is_value(alloc: Global, made: &str) -> bool
    ensures { OnTrue result (IsValue max_depth (chars made.now)) }
{
    let mut scanner = Scanner::new(alloc, made);
    let Ok(()) = skip_value(&mut scanner, 128) else {
        return false;
    };
    match scanner.peek() {
        None => true,
        Some(_) => false,
    }
}
