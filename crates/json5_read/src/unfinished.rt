//! Arrays and objects that are unfinished: how they go on to a value, and what a value makes of them (JSON5 sections 3 and 4). A
//! call that is refused returns None, and leaves its error in `fault`.

ghost use Rattle.json5_read.specs.BuildSteps.{ArrayGoesOn, BeginsValue, GoesOnAfter, ObjectGoesOn};
ghost use Rattle.json5_read.specs.TakenEntries.{TakesElements, TakesMembers};
ghost use Rattle.json5_read.specs.ModelSteps.{IsInside, answered};

use crate::brackets::{BracketKind, kind_opened};
use crate::entries::{next_entry, skip_colon};
use crate::faults::{leave_code, place_fault};
use crate::growth::add_entry;
use crate::owned_tokens::{own_key, take_key};
use crate::scalars::{read_scalar, short_value};
use json5_tokens::input::Input;
use json5_tokens::scanner::Scanner;
use json5_types::ErrorCode;
use json5_types::error::Error;
use json5_types::value::Value;

/// An array or an object in which a value is being read. `start` is the count of bytes before its bracket.
#[derive(Drop)]
pub(crate) enum Unfinished {
    Array {
        start: usize,
        elements: Vec<Value>,
    },
    /// `key` is that of the value.
    Object {
        start: usize,
        members: Vec<(String, Value)>,
        key: String,
    },
}

/// How far the reading of a value went.
#[derive(Drop)]
pub(crate) enum Next {
    /// A value has ended.
    Ended(Value),
    /// A value in brackets of this kind is in front.
    Opens(BracketKind),
}

/// Takes the value in front, if it is no collection.
#[inline(always)]
pub(crate) fn begin_value<I: Input>(scanner: &mut Scanner<I>, fault: &mut Error) -> Option<Next>
    requires { IsInside scanner.old }
    ensures { BeginsValue scanner.old scanner.new (answered result fault.new) }
{
    let Some(c) = scanner.peek() else {
        leave_code(ErrorCode::EofParsingValue, fault);
        return None;
    };
    if let Some(kind) = kind_opened(c) {
        return Some(Next::Opens(kind));
    }
    if let Some(value) = short_value(scanner, c) {
        return Some(Next::Ended(value));
    }
    let value = read_scalar(scanner, c, fault)?;
    Some(Next::Ended(value))
}

/// Takes the elements of an array that follow these, after a comma if one is due, up to one that is a collection, and returns its
/// kind; or all up to the closing bracket and that too, and returns no kind.
#[inline(never)]
fn take_elements<I: Input>(
    scanner: &mut Scanner<I>,
    elements: &mut Vec<Value>,
    comma_due: bool,
    fault: &mut Error,
) -> Option<Option<BracketKind>>
    requires { IsInside scanner.old }
    ensures { TakesElements comma_due elements.old.items elements.new.items scanner.old scanner.new (answered result fault.new) }
{
    let mut due = comma_due;
    loop {
        let more = next_entry(scanner, BracketKind::Array, due, fault)?;
        if !more {
            return Some(None);
        }
        match begin_value(scanner, fault)? {
            Next::Ended(value) => {
                if elements.push(value).is_err() {
                    leave_code(ErrorCode::OutOfMemory, fault);
                    return None;
                }
            }
            Next::Opens(kind) => return Some(Some(kind)),
        }
        due = true;
    }
}

/// Takes the members of an object that follow these, after a comma if one is due, up to one whose value is a collection,
/// and returns its key and kind; or all up to the closing brace and that too, and returns no key.
#[inline(never)]
fn take_members<I: Input>(
    scanner: &mut Scanner<I>,
    members: &mut Vec<(String, Value)>,
    comma_due: bool,
    fault: &mut Error,
) -> Option<Option<(String, BracketKind)>>
    requires { IsInside scanner.old }
    ensures { TakesMembers comma_due members.old.items members.new.items scanner.old scanner.new (answered result fault.new) }
{
    let mut due = comma_due;
    loop {
        let more = next_entry(scanner, BracketKind::Object, due, fault)?;
        if !more {
            return Some(None);
        }
        let key = take_key(scanner, fault)?;
        skip_colon(scanner, fault)?;
        let next = begin_value(scanner, fault)?;
        let text = own_key(scanner, key, fault)?;
        match next {
            Next::Ended(value) => add_entry(scanner, members, (text, value), fault)?,
            Next::Opens(kind) => return Some(Some((text, kind))),
        }
        due = true;
    }
}

/// Continues an array with these elements: goes to the next element that is a collection and pushes the array; or the array ends
/// and is returned.
pub(crate) fn resume_array<I: Input>(
    scanner: &mut Scanner<I>,
    stack: &mut Vec<Unfinished>,
    start: usize,
    elements: Vec<Value>,
    comma_due: bool,
    fault: &mut Error,
) -> Option<Next>
    requires { IsInside scanner.old }
    ensures { ArrayGoesOn start elements.items comma_due stack.old.items stack.new.items scanner.old scanner.new (answered result fault.new) }
{
    let mut elements = elements;
    match take_elements(scanner, &mut elements, comma_due, fault) {
        Some(Some(kind)) => {
            add_entry(scanner, stack, Unfinished::Array { start, elements }, fault)?;
            Some(Next::Opens(kind))
        }
        Some(None) => Some(Next::Ended(Value::Array(elements))),
        None => {
            place_fault(scanner, start, fault);
            None
        }
    }
}

/// Continues an object with these members: goes to the value of the next member whose value is a collection and pushes the object;
/// or the object ends and is returned.
pub(crate) fn resume_object<I: Input>(
    scanner: &mut Scanner<I>,
    stack: &mut Vec<Unfinished>,
    start: usize,
    members: Vec<(String, Value)>,
    comma_due: bool,
    fault: &mut Error,
) -> Option<Next>
    requires { IsInside scanner.old }
    ensures { ObjectGoesOn start members.items comma_due stack.old.items stack.new.items scanner.old scanner.new (answered result fault.new) }
{
    let mut members = members;
    match take_members(scanner, &mut members, comma_due, fault) {
        Some(Some((key, kind))) => {
            let object = Unfinished::Object {
                start,
                members,
                key,
            };
            add_entry(scanner, stack, object, fault)?;
            Some(Next::Opens(kind))
        }
        Some(None) => Some(Next::Ended(Value::Object(members))),
        None => {
            place_fault(scanner, start, fault);
            None
        }
    }
}

/// Puts the value into the array or the object round it, and continues that one.
pub(crate) fn attach_value<I: Input>(
    scanner: &mut Scanner<I>,
    stack: &mut Vec<Unfinished>,
    unfinished: Unfinished,
    value: Value,
    fault: &mut Error,
) -> Option<Next>
    requires { IsInside scanner.old }
    ensures { GoesOnAfter unfinished value stack.old.items stack.new.items scanner.old scanner.new (answered result fault.new) }
{
    match unfinished {
        Unfinished::Array {
            start,
            mut elements,
        } => {
            add_entry(scanner, &mut elements, value, fault)?;
            resume_array(scanner, stack, start, elements, true, fault)
        }
        Unfinished::Object {
            start,
            mut members,
            key,
        } => {
            add_entry(scanner, &mut members, (key, value), fault)?;
            resume_object(scanner, stack, start, members, true, fault)
        }
    }
}
