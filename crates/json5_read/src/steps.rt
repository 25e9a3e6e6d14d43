//! Steps to the next entry and over a colon, whatever is in front (JSON5 sections 3 and 4). `short_step` and `short_sign`
//! of a `Scanner` take the same steps where they can, and no error is made there.

ghost use Rattle.std.specs.Prelude.{◌≡◌, ◌==◌, true, false, Some, slice_get};
ghost use Rattle.json5_grammar.specs.Language.Characters.{NotBegun};
ghost use Rattle.json5_read.specs.Brackets.{brackets_of};
ghost use Rattle.json5_read.specs.FoundEntries.{FindsEntry, FindsColon};

use crate::brackets::BracketKind;
use crate::faults::unexpected_here;
use json5_tokens::input::Input;
use json5_tokens::scanner::Scanner;
use json5_types::ErrorCode;
use json5_types::error::Result;

/// Whether the closing bracket is next.
fn at_closing<I: Input>(scanner: &Scanner<I>, kind: BracketKind) -> bool
    ensures found { result ≡ true → slice_get scanner.now.unread 0 ≡ Some (brackets_of kind).closing }
    ensures other { result ≡ false → NotBegun (λ c. c == (brackets_of kind).closing) scanner.now.unread }
{
    scanner.peek() == Some(kind.brackets().closing)
}

/// Goes to where the next element or member may begin, after a comma if one is due, and returns true; or to the closing
/// bracket, which stays unread, and returns false. What a refused call has passed over stays passed over.
///
/// # Errors
///
/// - `ExpectedComma` at the character, where a comma is due and neither it nor the closing bracket is next.
/// - `EofParsingArray` or `EofParsingObject`, without a position, where a comma is due and the text ends.
/// - `ExpectedComment` and `EofParsingComment` of the blanks before an entry.
pub fn advance_to_entry<I: Input>(
    scanner: &mut Scanner<I>,
    kind: BracketKind,
    comma_due: bool,
) -> Result<bool>
    ensures { FindsEntry (brackets_of kind) comma_due scanner.old scanner.new result }
{
    scanner.skip_blank()?;
    if at_closing(scanner, kind) {
        return Ok(false);
    }
    if !comma_due {
        return Ok(true);
    }
    if !scanner.eat(',') {
        let ends = kind.brackets().ends;
        return Err(unexpected_here(scanner, ends, ErrorCode::ExpectedComma));
    }
    scanner.skip_blank()?;
    Ok(!at_closing(scanner, kind))
}

/// Takes the colon after a key, and the blanks before it. What a refused call has passed over stays passed over.
///
/// # Errors
///
/// - `ExpectedColon` at another character.
/// - `EofParsingObject`, without a position, where the text ends.
/// - `ExpectedComment` and `EofParsingComment` of the blanks.
pub fn pass_colon<I: Input>(scanner: &mut Scanner<I>) -> Result<()>
    ensures { FindsColon scanner.old scanner.new result }
{
    scanner.skip_blank()?;
    if !scanner.eat(':') {
        let ends = ErrorCode::EofParsingObject;
        return Err(unexpected_here(scanner, ends, ErrorCode::ExpectedColon));
    }
    Ok(())
}
