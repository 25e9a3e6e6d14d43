//! What is put into the document for VALUE.

ghost use Rattle.std.specs.Prelude.{◌≡◌, IfOk, IsTrue, string_bytes};
ghost use Rattle.json5_types.specs.ValueMeanings.{value_of};
ghost use Rattle.json5_grammar.specs.Language.Documents.{max_depth};
ghost use Rattle.json5_styles.specs.LaidBack.{ReadsAs};
ghost use Rattle.std.specs.Str.{chars};
ghost use Rattle.cli_edit.specs.Values.{IsContent, IsTextOf, Means, Strips};

use crate::requests::{Command, Source, Task};
use json5_edit::{EditError, Names, Result, part_at};
use json5_edit_style::{Collection, Respelling, Which, respelling_for};
use json5_read::brackets::BracketKind;
use json5_read::read_document;
use json5_styles::to_json;
use json5_types::nesting::Limit;
use json5_types::value::Value;
use json5_walk::next::Next;
use json5_walk::walk::Walk;
use std::alloc::{AllocError, Global};

/// What VALUE means: the value without blanks and comments around it, or the string of this content, spelled as the
/// document spells strings. KEY, TO and TEXT are the word itself.
pub(crate) fn meant(
    alloc: Global,
    task: &Task<'_>,
    text: &str,
    value: &str,
) -> Result<String, AllocError>
    ensures { IfOk result (λ made. Means task.now value.now (string_bytes made)) }
{
    if task.given.is_text {
        return spelled(alloc, text, content_of(task.given.source, value));
    }
    match task.work {
        Command::Rename => String::from_str(alloc, value),
        Command::Move => String::from_str(alloc, value),
        Command::Copy => String::from_str(alloc, value),
        Command::Comment => String::from_str(alloc, value),
        _ => stripped(alloc, value),
    }
}

/// The value without blanks and comments around it; or the bytes themselves, if they are no document.
fn stripped(alloc: Global, value: &str) -> Result<String, AllocError>
    ensures { IfOk result (λ made. Strips value.now (string_bytes made)) }
{
    match part_at(alloc, value, &[]) {
        Ok(part) => String::from_str(alloc, part),
        Err(EditError::NoMemory) => Err(AllocError),
        Err(_) => String::from_str(alloc, value),
    }
}

/// The content that is meant: the word, or what a file holds without the line feed at its end.
fn content_of<'v>(source: Source<'_>, value: &'v str) -> &'v str
    ensures { IsContent source.entry value.now result.now }
{
    match (source, value.strip_suffix("\n")) {
        (Source::Word(_), _) => value,
        (_, Some(line)) => line,
        (_, None) => value,
    }
}

/// The pattern of a key in single quotes.
const PATTERN: Collection<'static> = Collection {
    document: "{'':0}",
    start: 0,
    end: 6,
    names: Names::Quoted,
};

/// The string of this content: in single quotes if the document's last string has them, else as JSON writes it.
fn spelled(alloc: Global, document: &str, content: &str) -> Result<String, AllocError>
    ensures { IfOk result (λ made. IsTextOf content.now (string_bytes made)) }
{
    let value = Value::String(String::from_str(alloc, content)?);
    if let Some('\'') = last_quote(alloc, document)
        && let Ok(Respelling { key: made, .. }) = respelling_for(
            alloc,
            &PATTERN,
            Which::Key(""),
            content,
        )
        && spells(alloc, made.as_str(), &value)
    {
        return Ok(made);
    }
    match to_json(alloc, &value) {
        Ok(made) => Ok(made),
        Err(_) => Err(AllocError),
    }
}

/// Whether the text is read as this value.
fn spells(alloc: Global, text: &str, value: &Value) -> bool
    ensures { IsTrue result → ReadsAs max_depth (chars text.now) (value_of value.now) }
{
    match read_document(alloc, text) {
        Ok(read) => read == *value,
        Err(_) => false,
    }
}

/// The quote of the document's last string that is no key.
fn last_quote(alloc: Global, document: &str) -> Option<char> {
    let mut walk = Walk::new(alloc, document, Limit::full());
    let mut quote = None;
    for _ in 0..document.len() {
        walk.gap().ok()?;
        let front = walk.peek();
        if walk.close().is_some()
            || walk.open(BracketKind::Array)
            || walk.open(BracketKind::Object)
        {
            continue;
        }
        match (walk.next(), front) {
            (Next::Value | Next::Element, Some('"' | '\'')) => quote = front,
            _ => {}
        }
        let is_passed = match walk.next() {
            Next::Key => walk.key().is_ok(),
            Next::Colon => walk.colon(),
            Next::Comma => walk.comma(),
            _ => walk.skip().is_ok(),
        };
        if !is_passed {
            return quote;
        }
    }
    quote
}
