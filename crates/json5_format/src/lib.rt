//! Formats a document: reads its value, and writes that anew.
#![tactic(auto)]

ghost use Rattle.std.specs.Prelude.{IfOk, IfErr, MatchResult, string_bytes};
ghost use Rattle.std.specs.Str.{chars};
ghost use Rattle.json5_grammar.specs.Language.Trees.{Tree};
ghost use Rattle.json5_grammar.specs.Language.Documents.{Doc, max_depth};
ghost use Rattle.json5_tokens.specs.Cursor.{IsOutOfMemory};
ghost use Rattle.json5_read.specs.DocumentReads.{IsRefused, IsRefusedWithin};
ghost use Rattle.json5_format.specs.Formatted.{WritesUnmarked, IsFormatted, IsFormattedWithin};

use json5_read::read_document_within;
use json5_types::error::Result;
use json5_types::nesting::Limit;
use json5_write::to_string;
use std::alloc::Global;

/// Formats a document: writes its value anew, without comments. Each number and each string gets its one spelling, and each
/// element and each member a line of its own. No line feed ends the text.
///
/// Returns Ok exactly when the text is a document (JSON5 section 2) nested at most 128 deep, unless memory runs out. Formatting
/// the answer again changes nothing. It is [`format_within`] at the full limit.
///
/// ```text
/// json5::format(alloc, " +0x1F90 // in hexadecimal")?    // 8080
/// json5::format(alloc, "{'a': 1e3}")?                    // three lines: `{`, `  a: 1000.0,` and `}`
/// ```
///
/// # Errors
///
/// As [`format_within`].
pub fn format(alloc: Global, text: &str) -> Result<String>
    ensures formatted { IfOk result (λ s. IsFormatted (chars text.now) (string_bytes s)) }
    ensures complete { (t : Tree) → Doc max_depth (chars text.now) t → MatchResult result (λ s. WritesUnmarked max_depth t (string_bytes s)) IsOutOfMemory }
    ensures refused { IfErr result (IsRefused (chars text.now)) }
{
    format_within(alloc, Limit::full(), text)
}

/// Formats a document as [`format`] does, if it is nested no deeper than the limit.
///
/// ```text
/// json5::format_within(alloc, Limit::new(1).unwrap(), "[1, 2]")?;
/// ```
///
/// # Errors
///
/// Positions are those in `text`.
/// - The codes of a [`Value`], `TooDeep` at the bracket past the limit among them.
/// - `TrailingCharacters` at a character after the value that is neither blank nor begins a comment.
/// - `OutOfMemory` where a request for memory was refused.
pub fn format_within(alloc: Global, limit: Limit, text: &str) -> Result<String>
    ensures formatted { IfOk result (λ s. IsFormattedWithin limit (chars text.now) (string_bytes s)) }
    ensures complete { (t : Tree) → Doc limit (chars text.now) t → MatchResult result (λ s. WritesUnmarked limit t (string_bytes s)) IsOutOfMemory }
    ensures refused { IfErr result (IsRefusedWithin limit (chars text.now)) }
{
    let value = read_document_within(alloc, limit, text)?;
    to_string(alloc, limit, &value)
}
