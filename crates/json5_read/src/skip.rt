//! Passing over values of any kind (JSON5 sections 2 to 6). A call that is refused returns None, and leaves its error in `fault`.

ghost use Rattle.std.specs.Prelude.{◌<◌, ◌≤◌};
ghost use Rattle.json5_grammar.specs.Language.Documents.{max_depth};
ghost use Rattle.json5_read.specs.SkipSteps.{SkipsOrOpens, TakesTurn, SkipsBracket, SkipsValue};
ghost use Rattle.json5_read.specs.ModelSteps.{IsInside, answered};

use crate::brackets::{BracketKind, OpenBracket, OpenBrackets, kind_opened, open_bracket};
use crate::entries::next_value;
use crate::faults::{leave_code, place_fault};
use crate::scalars::{short_scalar, skip_scalar};
use json5_tokens::input::Input;
use json5_tokens::scanner::Scanner;
use json5_types::ErrorCode;
use json5_types::error::{Error, Result};

/// What a turn in a bracket came to.
#[derive(Clone, Copy)]
enum Turn {
    /// A value was passed over.
    Ended,
    /// A bracket was opened.
    Opened(OpenBracket),
    /// The bracket was closed.
    Closed,
}

/// Passes over a value that is no collection, or takes an opening bracket.
#[inline(always)]
fn skip_or_open<I: Input>(
    scanner: &mut Scanner<I>,
    room: usize,
    fault: &mut Error,
) -> Option<Option<OpenBracket>>
    requires { IsInside scanner.old }
    ensures { SkipsOrOpens room scanner.old scanner.new (answered result fault.new) }
{
    let Some(c) = scanner.peek() else {
        leave_code(ErrorCode::EofParsingValue, fault);
        return None;
    };
    if let Some(kind) = kind_opened(c) {
        let bracket = open_bracket(scanner, room, kind, fault)?;
        return Some(Some(bracket));
    }
    if short_scalar(scanner, c) {
        return Some(None);
    }
    skip_scalar(scanner, c, fault)?;
    Some(None)
}

/// Goes to the next value of a bracket, after a comma if one is due, and passes over it or opens it; or past the closing bracket.
#[inline(always)]
fn skip_turn<I: Input>(
    scanner: &mut Scanner<I>,
    room: usize,
    kind: BracketKind,
    comma_due: bool,
    fault: &mut Error,
) -> Option<Turn>
    requires { IsInside scanner.old }
    ensures { TakesTurn kind comma_due room scanner.old scanner.new (answered result fault.new) }
{
    let more = next_value(scanner, kind, comma_due, fault)?;
    if !more {
        return Some(Turn::Closed);
    }
    match skip_or_open(scanner, room, fault)? {
        Some(bracket) => Some(Turn::Opened(bracket)),
        None => Some(Turn::Ended),
    }
}

/// Passes over the rest of a bracket that was opened.
#[inline(never)]
fn skip_bracket<I: Input>(
    scanner: &mut Scanner<I>,
    room: usize,
    outermost: OpenBracket,
    fault: &mut Error,
) -> Option<()>
    requires ready { IsInside scanner.old }
    requires room { room ≤ max_depth }
    requires place { 0 < room }
    ensures { SkipsBracket room outermost scanner.old scanner.new (answered result fault.new) }
{
    let mut brackets = OpenBrackets::new();
    let mut bracket = outermost;
    let mut comma_due = false;
    // How many brackets may still be opened.
    let mut left = room - 1;
    loop {
        match skip_turn(scanner, left, bracket.kind, comma_due, fault) {
            Some(Turn::Ended) => comma_due = true,
            Some(Turn::Opened(inner)) => {
                brackets.push(bracket);
                bracket = inner;
                comma_due = false;
                left -= 1;
            }
            Some(Turn::Closed) => {
                let Some(outer) = brackets.pop() else {
                    return Some(());
                };
                bracket = outer;
                comma_due = true;
                left += 1;
            }
            None => {
                place_fault(scanner, bracket.start, fault);
                return None;
            }
        }
    }
}

/// Passes over the value in front, in which so many brackets may be open at once (JSON5 sections 2 to 6). Takes no memory where
/// it succeeds.
///
/// # Errors
///
/// As [`read_value`](crate::read::read_value), with the same positions.
pub fn skip_value<I: Input>(scanner: &mut Scanner<I>, room: usize) -> Result<()>
    requires { room ≤ max_depth }
    ensures { SkipsValue room scanner.old scanner.new result }
{
    // Goals below need what `offset` promises: what is unread is the end of the input.
    let _offset = scanner.offset();
    let mut fault = Error::new(ErrorCode::Failed);
    match skip_or_open(scanner, room, &mut fault) {
        None => Err(fault),
        Some(None) => Ok(()),
        Some(Some(bracket)) => match skip_bracket(scanner, room, bracket, &mut fault) {
            None => Err(fault),
            Some(()) => Ok(()),
        },
    }
}
