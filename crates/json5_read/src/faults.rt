//! Faults at the next character and at a bracket, and how a call leaves its error to its caller.

ghost use Rattle.std.specs.Prelude.{◌≡◌, [], Some, None};
ghost use Rattle.json5_tokens.specs.Cursor.{Refused, IsPositioned};
ghost use Rattle.json5_types.specs.Errors.{FaultKind, kind_of, SaysAt};
ghost use Rattle.json5_read.specs.Offsets.{PositionedAt, StartsAfter};
ghost use Rattle.json5_read.specs.ModelSteps.{Unexpected, answered};

use json5_tokens::input::Input;
use json5_tokens::scanner::Scanner;
use json5_types::ErrorCode;
use json5_types::error::{Error, Result};
use std::mem;

/// Makes the fault of what is next and isn't expected: `differs` at the character, or `ends` at the end of the input, without a
/// position.
#[cold]
#[inline(never)]
pub fn unexpected_here<I: Input>(scanner: &Scanner<I>, ends: ErrorCode, differs: ErrorCode) -> Error
    ensures { Refused (Unexpected ends differs) scanner.now result }
{
    match scanner.peek() {
        Some(_) => Error::new_at(scanner.position_of(scanner.offset()), differs),
        None => Error::new(ends),
    }
}

/// Makes a fault with this code at the next character.
#[cold]
#[inline(never)]
pub fn fault_here<I: Input>(scanner: &Scanner<I>, code: ErrorCode) -> Error
    ensures kind { kind_of result ≡ FaultKind.code code }
    ensures placed { IsPositioned scanner.now (Some []) result }
{
    let offset = scanner.offset();
    Error::new_at(scanner.position_of(offset), code)
}

/// Gives a fault without a position that of the bracket, which begins after so many bytes. Lines are counted only then.
#[cold]
#[inline(never)]
pub fn with_position_at<I: Input>(scanner: &Scanner<I>, start: usize, error: Error) -> Error
    ensures { PositionedAt (StartsAfter scanner.now.input start) error result }
{
    match error.position() {
        Some(_) => error,
        None => error.at(scanner.position_of(start)),
    }
}

/// Gives the fault that was left the bracket's position, if it has none.
#[cold]
#[inline(never)]
pub(crate) fn place_fault<I: Input>(scanner: &Scanner<I>, start: usize, fault: &mut Error)
    ensures { PositionedAt (StartsAfter scanner.now.input start) fault.old fault.new }
{
    let own = mem::replace(fault, Error::new(ErrorCode::Failed));
    *fault = with_position_at(scanner, start, own);
}

/// Leaves a fault with this code, without a position.
#[cold]
#[inline(never)]
pub(crate) fn leave_code(code: ErrorCode, fault: &mut Error)
    ensures { SaysAt (FaultKind.code code) None fault.new }
{
    *fault = Error::new(code);
}

/// Leaves a fault with this code at the next character.
#[cold]
#[inline(never)]
pub(crate) fn leave_here<I: Input>(scanner: &Scanner<I>, code: ErrorCode, fault: &mut Error)
    ensures kind { kind_of fault.new ≡ FaultKind.code code }
    ensures placed { IsPositioned scanner.now (Some []) fault.new }
{
    *fault = fault_here(scanner, code);
}

/// What a call found, or None where it was refused: then its error is left in `fault`.
#[inline(always)]
pub(crate) fn leave_error<T: Drop>(found: Result<T>, fault: &mut Error) -> Option<T>
    ensures { answered result fault.new ≡ found }
{
    match found {
        Ok(value) => Some(value),
        Err(e) => {
            *fault = e;
            None
        }
    }
}
