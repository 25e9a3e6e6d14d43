//! Whole documents: read as a value of any kind, or checked.

ghost use Rattle.std.specs.Str.{chars};
ghost use Rattle.json5_grammar.specs.Language.Documents.{max_depth};
ghost use Rattle.json5_read.specs.DocumentChecks.{ChecksText};
ghost use Rattle.json5_read.specs.DocumentReads.{ReadsText};

use crate::faults::fault_here;
use crate::read::read_value;
use crate::skip::skip_value;
use json5_tokens::scanner::Scanner;
use json5_types::ErrorCode;
use json5_types::error::Result;
use json5_types::nesting::Limit;
use json5_types::value::Value;
use std::alloc::Global;

/// Reads a document as a value, nested at most 128 deep. It is [`read_document_within`] at the full limit.
///
/// ```text
/// read_document(alloc, "{a: [1]}")?    // an Object of an Array
/// ```
///
/// # Errors
///
/// As [`read_document_within`].
pub fn read_document(alloc: Global, text: &str) -> Result<Value>
    ensures { ReadsText max_depth (chars text.now) result }
{
    read_document_within(alloc, Limit::full(), text)
}

/// Reads a document as a value, with no more brackets open at once than the limit.
///
/// Returns Ok exactly when the text is such a document, and then what its tree means, unless memory runs out. Any other text is
/// refused with its fault.
///
/// ```text
/// read_document_within(alloc, Limit::new(1).unwrap(), "[1, 'a'] // two")?    // an Array of a Whole and a String
/// ```
///
/// # Errors
///
/// Positions are those in `text`.
/// - The codes of a [`Value`], `TooDeep` at the bracket past the limit among them.
/// - `TrailingCharacters` at a character after the value that is neither blank nor begins a comment.
/// - `OutOfMemory` where a request for memory was refused.
pub fn read_document_within(alloc: Global, limit: Limit, text: &str) -> Result<Value>
    ensures { ReadsText limit (chars text.now) result }
{
    let mut scanner = Scanner::new(alloc, text);
    scanner.skip_blank()?;
    let value = read_value(&mut scanner, usize::from(limit.get()))?;
    scanner.skip_blank()?;
    match scanner.peek() {
        Some(_) => Err(fault_here(&scanner, ErrorCode::TrailingCharacters)),
        None => Ok(value),
    }
}

/// Checks that the text is a document, nested at most 128 deep. It takes no memory where it is one.
///
/// ```text
/// check_document(alloc, "{a: [1]} // a document")?;
/// ```
///
/// # Errors
///
/// As [`read_document`](read_document), with the same positions.
pub fn check_document(alloc: Global, text: &str) -> Result<()>
    ensures { ChecksText max_depth (chars text.now) result }
{
    let mut scanner = Scanner::new(alloc, text);
    scanner.skip_blank()?;
    skip_value(&mut scanner, 128)?;
    scanner.skip_blank()?;
    match scanner.peek() {
        Some(_) => Err(fault_here(&scanner, ErrorCode::TrailingCharacters)),
        None => Ok(()),
    }
}
