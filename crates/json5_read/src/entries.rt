//! What is around an entry, which is an element of an array or a member of an object (JSON5 sections 3 and 4). A call that is
//! refused returns None, and leaves its error in `fault`: so no error is in the frame of a loop over entries.

ghost use Rattle.std.specs.Prelude.{◌≡◌, true};
ghost use Rattle.json5_grammar.specs.Language.Blanks.{Solid};
ghost use Rattle.json5_grammar.specs.Language.Characters.{colon_sign};
ghost use Rattle.json5_grammar.specs.Model.ReadBlanks.{skip, between};
ghost use Rattle.json5_grammar.specs.Model.ReadSteps.{forget, colon_after, next_value};
ghost use Rattle.json5_grammar.specs.Model.ReadTexts.{key};
ghost use Rattle.json5_tokens.specs.TokenCalls.{PassesName, PassesString};
ghost use Rattle.json5_tokens.specs.ShortWays.{TakesShortSign};
ghost use Rattle.json5_read.specs.Brackets.{bracket_of, brackets_of};
ghost use Rattle.json5_read.specs.Entries.{IsVisible, next_entry};
ghost use Rattle.json5_read.specs.FoundEntries.{FindsColon, FindsEntry};
ghost use Rattle.json5_read.specs.ModelSteps.{IsInside, Steps, answered};

use crate::brackets::BracketKind;
use crate::faults::{leave_code, leave_error};
use crate::steps::{advance_to_entry, pass_colon};
use json5_tokens::input::Input;
use json5_tokens::scanner::{Scanner, ShortStep};
use json5_tokens::strings::is_quote;
use json5_types::ErrorCode;
use json5_types::error::Error;

/// Passes over blanks.
#[inline(never)]
fn skip_blank<I: Input>(scanner: &mut Scanner<I>, fault: &mut Error) -> Option<()>
    requires { IsInside scanner.old }
    ensures { Steps (skip between scanner.old.unread) scanner.old scanner.new (answered result fault.new) }
{
    leave_error(scanner.skip_blank(), fault)
}

/// Whether it is a character from `!` to `~` that is no slash.
#[inline(always)]
fn is_visible(c: char) -> bool
    ensures { result ≡ true → IsVisible c }
{
    c > ' ' && c <= '~' && c != '/'
}

/// Takes the colon after a key, and the blanks before it, whatever is in front.
#[inline(never)]
fn find_colon<I: Input>(scanner: &mut Scanner<I>, fault: &mut Error) -> Option<()>
    ensures { FindsColon scanner.old scanner.new (answered result fault.new) }
{
    leave_error(pass_colon(scanner), fault)
}

/// Takes blanks and a colon, and says whether they were in front. Else takes nothing. Most colons follow a key at once.
#[inline(always)]
fn short_colon<I: Input>(scanner: &mut Scanner<I>) -> bool
    ensures { TakesShortSign colon_sign scanner.old scanner.new result }
{
    if scanner.eat(':') {
        return true;
    }
    scanner.short_sign(b':')
}

/// Passes over blanks, a colon and blanks.
#[inline(always)]
pub(crate) fn skip_colon<I: Input>(scanner: &mut Scanner<I>, fault: &mut Error) -> Option<()>
    requires { IsInside scanner.old }
    ensures { Steps (colon_after scanner.old.unread) scanner.old scanner.new (answered result fault.new) }
{
    if !short_colon(scanner) {
        find_colon(scanner, fault)?;
        return skip_blank(scanner, fault);
    }
    // Most often one space follows, and then the value.
    let _ = scanner.eat(' ');
    match scanner.peek() {
        Some(c) if is_visible(c) => Some(()),
        _ => skip_blank(scanner, fault),
    }
}

/// Passes over a string.
#[inline(never)]
pub(crate) fn skip_string<I: Input>(scanner: &mut Scanner<I>, fault: &mut Error) -> Option<()>
    ensures { PassesString scanner.old scanner.new (answered result fault.new) }
{
    leave_error(scanner.skip_string(), fault)
}

/// Passes over an identifier.
#[inline(never)]
fn skip_identifier<I: Input>(scanner: &mut Scanner<I>, fault: &mut Error) -> Option<()>
    ensures { PassesName scanner.old scanner.new (answered result fault.new) }
{
    leave_error(scanner.skip_identifier(), fault)
}

/// Passes over a key.
#[inline(always)]
fn skip_key<I: Input>(scanner: &mut Scanner<I>, fault: &mut Error) -> Option<()>
    requires ready { IsInside scanner.old }
    requires solid { Solid scanner.old.unread }
    ensures { Steps (forget (key scanner.old.unread)) scanner.old scanner.new (answered result fault.new) }
{
    if let Some(_) = scanner.short_key() {
        return Some(());
    }
    let Some(c) = scanner.peek() else {
        leave_code(ErrorCode::EofParsingObject, fault);
        return None;
    };
    if is_quote(c) {
        return skip_string(scanner, fault);
    }
    skip_identifier(scanner, fault)
}

/// Goes to the next entry and returns true, or to the closing bracket and returns false, whatever is in front.
#[inline(never)]
fn find_entry<I: Input>(
    scanner: &mut Scanner<I>,
    kind: BracketKind,
    comma_due: bool,
    fault: &mut Error,
) -> Option<bool>
    ensures { FindsEntry (brackets_of kind) comma_due scanner.old scanner.new (answered result fault.new) }
{
    leave_error(advance_to_entry(scanner, kind, comma_due), fault)
}

/// Goes to the next entry, after a comma if one is due, and returns true; or passes over the closing bracket and returns false.
#[inline(always)]
pub(crate) fn next_entry<I: Input>(
    scanner: &mut Scanner<I>,
    kind: BracketKind,
    comma_due: bool,
    fault: &mut Error,
) -> Option<bool>
    requires { IsInside scanner.old }
    ensures { Steps (next_entry (bracket_of kind) comma_due scanner.old.unread) scanner.old scanner.new (answered result fault.new) }
{
    let closing = kind.brackets().closing;
    match scanner.short_step(closing as u8, comma_due) {
        ShortStep::Entry => return Some(true),
        ShortStep::Closing => {
            let _ = scanner.eat(closing);
            return Some(false);
        }
        ShortStep::Other => {}
    }
    let more = find_entry(scanner, kind, comma_due, fault)?;
    if !more {
        let _ = scanner.eat(closing);
    }
    Some(more)
}

/// Goes to the next entry as `next_entry` does, but on to its value: over the key and the colon of a member too.
#[inline(always)]
pub(crate) fn next_value<I: Input>(
    scanner: &mut Scanner<I>,
    kind: BracketKind,
    comma_due: bool,
    fault: &mut Error,
) -> Option<bool>
    requires { IsInside scanner.old }
    ensures { Steps (next_value (bracket_of kind) comma_due scanner.old.unread) scanner.old scanner.new (answered result fault.new) }
{
    let more = next_entry(scanner, kind, comma_due, fault)?;
    if !more {
        return Some(false);
    }
    match kind {
        BracketKind::Array => Some(true),
        BracketKind::Object => {
            skip_key(scanner, fault)?;
            skip_colon(scanner, fault)?;
            Some(true)
        }
    }
}
