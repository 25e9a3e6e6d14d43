//! Reading of values of any kind (JSON5 sections 2 to 6).

ghost use Rattle.json5_read.specs.BuildSteps.{AtBracket, TurnsBuilding};
ghost use Rattle.json5_read.specs.OwnedReads.{ReadsDatum};
ghost use Rattle.json5_read.specs.ModelSteps.{IsInside, answered};

use crate::brackets::{BracketKind, open_bracket};
use crate::unfinished::{Next, Unfinished, attach_value, begin_value, resume_array, resume_object};
use json5_tokens::input::Input;
use json5_tokens::scanner::Scanner;
use json5_types::ErrorCode;
use json5_types::error::{Error, Result};
use json5_types::value::Value;

/// Takes the opening bracket of this kind in front, if there is room for one more, and goes on in it.
fn open_value<I: Input>(
    scanner: &mut Scanner<I>,
    room: usize,
    stack: &mut Vec<Unfinished>,
    kind: BracketKind,
    fault: &mut Error,
) -> Option<Next>
    requires ready { IsInside scanner.old }
    requires sign { AtBracket kind scanner.old }
    ensures { TurnsBuilding room kind stack.old.items stack.new.items scanner.old scanner.new (answered result fault.new) }
{
    let open = stack.len();
    let left = room.saturating_sub(open);
    let bracket = open_bracket(scanner, left, kind, fault)?;
    let start = bracket.start;
    let alloc = scanner.allocator();
    match bracket.kind {
        BracketKind::Array => resume_array(scanner, stack, start, Vec::new(alloc), false, fault),
        BracketKind::Object => resume_object(scanner, stack, start, Vec::new(alloc), false, fault),
    }
}

/// The same as `read_value`, with the error of a refusal left in `fault`.
fn take_value<I: Input>(scanner: &mut Scanner<I>, room: usize, fault: &mut Error) -> Option<Value>
    requires { IsInside scanner.old }
    ensures { ReadsDatum room scanner.old scanner.new (answered result fault.new) }
{
    let mut stack = Vec::new(scanner.allocator());
    let mut next = begin_value(scanner, fault)?;
    loop {
        match next {
            Next::Opens(kind) => next = open_value(scanner, room, &mut stack, kind, fault)?,
            Next::Ended(value) => {
                let Some(unfinished) = stack.pop() else {
                    return Some(value);
                };
                next = attach_value(scanner, &mut stack, unfinished, value, fault)?;
            }
        }
    }
}

/// Reads the value in front, in which so many brackets may be open at once: null, a boolean, a number, a string, an array or an
/// object, whose members keep their order and their equal keys. The arrays and objects that it opens are on a stack, the
/// outermost first.
///
/// ```text
/// let value = read_value(&mut scanner, 128)?;    // of `[1, 'a'] true` an Array; ` true` is left
/// ```
///
/// # Errors
///
/// Those of a [`Value`]; `TooDeep` at the bracket that there is no room for.
pub fn read_value<I: Input>(scanner: &mut Scanner<I>, room: usize) -> Result<Value>
    ensures { ReadsDatum room scanner.old scanner.new result }
{
    // Goals below need what `offset` promises: what is unread is the end of the input.
    let _offset = scanner.offset();
    let mut fault = Error::new(ErrorCode::Failed);
    match take_value(scanner, room, &mut fault) {
        Some(value) => Ok(value),
        None => Err(fault),
    }
}
