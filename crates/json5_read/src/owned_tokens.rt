//! Keys, and owned copies of their texts. A call with `fault` returns None where it is refused, and leaves its error there.

ghost use Rattle.json5_grammar.specs.Language.Blanks.{Solid};
ghost use Rattle.json5_grammar.specs.Model.ReadTexts.{key};
ghost use Rattle.json5_tokens.specs.TokenCalls.{TakesKey};
ghost use Rattle.json5_read.specs.OwnedReads.{Keeps, OwnsKey, OwnsText, IsFoundKey};
ghost use Rattle.json5_read.specs.ModelSteps.{IsInside, answered};

use crate::faults::{leave_code, leave_error};
use json5_tokens::input::Input;
use json5_tokens::scanner::Scanner;
use json5_tokens::short_texts::Span;
use json5_tokens::text_token::TextToken;
use json5_types::ErrorCode;
use json5_types::error::{Error, Result};

/// Returns the text of a key that the scanner took, as a `String`.
///
/// # Errors
///
/// - `OutOfMemory`, without a position, where a request for memory was refused.
pub fn key_owned<I: Input>(scanner: &Scanner<I>, key: TextToken) -> Result<String>
    ensures { OwnsKey scanner.now.input key result }
{
    if let TextToken::Escaped(text) = key {
        return Ok(text);
    }
    let text = String::from_str(scanner.allocator(), scanner.text_of(&key))?;
    Ok(text)
}

/// An owned copy of the text of a span.
#[inline(always)]
pub(crate) fn own_text<I: Input>(
    scanner: &Scanner<I>,
    span: Span,
    fault: &mut Error,
) -> Option<String>
    ensures { OwnsText scanner.now.input span (answered result fault.new) }
{
    match String::from_str(scanner.allocator(), scanner.text_of_span(span)) {
        Ok(text) => Some(text),
        Err(_) => {
            leave_code(ErrorCode::OutOfMemory, fault);
            None
        }
    }
}

/// The text of a key that the scanner took, as a `String`.
#[inline(always)]
pub(crate) fn own_key<I: Input>(
    scanner: &Scanner<I>,
    key: TextToken,
    fault: &mut Error,
) -> Option<String>
    ensures { OwnsKey scanner.now.input key (answered result fault.new) }
{
    match key {
        TextToken::EscapeFree(span) => own_text(scanner, span, fault),
        TextToken::Escaped(text) => Some(text),
    }
}

/// Takes a key, whatever it is.
#[inline(never)]
fn find_key<I: Input>(scanner: &mut Scanner<I>, fault: &mut Error) -> Option<TextToken>
    ensures { TakesKey scanner.old scanner.new (answered result fault.new) }
{
    leave_error(scanner.key(), fault)
}

/// Takes a key.
#[inline(always)]
pub(crate) fn take_key<I: Input>(scanner: &mut Scanner<I>, fault: &mut Error) -> Option<TextToken>
    requires ready { IsInside scanner.old }
    requires solid { Solid scanner.old.unread }
    ensures { Keeps (IsFoundKey scanner.old.input) (key scanner.old.unread) scanner.old scanner.new (answered result fault.new) }
{
    // Goals below need what `offset` promises: what is unread is of scalar values.
    let _offset = scanner.offset();
    if let Some(span) = scanner.short_key() {
        return Some(TextToken::EscapeFree(span));
    }
    if scanner.peek().is_none() {
        leave_code(ErrorCode::EofParsingObject, fault);
        return None;
    }
    find_key(scanner, fault)
}
