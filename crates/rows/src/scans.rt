//! Calls of one scanner, one after another: `scan blank eat[ number skip_string peek|TEXT`.

use crate::call_results::{Answer, Any, place, push_answer, shown, unknown};
use crate::call_spelling::by_name;
use json5::{ErrorCode, Result, Value};
use json5_tokens::scanner::Scanner;
use json5_types::number::Number;
use json5_types::whole::Whole;
use std::alloc::Global;

/// What each call returns.
pub fn scan(alloc: Global, names: &str, text: &str) -> Answer {
    let mut scanner = Scanner::new(alloc, text);
    let mut answers = String::new(alloc);
    for name in names.split_whitespace() {
        push_answer(alloc, call(&mut scanner, name), &mut answers)?;
    }
    Ok(answers)
}

fn call(scanner: &mut Scanner<&str>, name: &str) -> Answer {
    let alloc = scanner.allocator();
    by_name!(name;
        0 "blank" => shown(alloc, scanner.skip_blank()),
        1 "null" => shown(alloc, null(scanner)),
        2 "number" => shown(alloc, scanner.number().map(any)),
        3 "string" => shown(alloc, scanner.string()),
        4 "string_owned" => shown(alloc, scanner.string_owned()),
        5 "identifier" => shown(alloc, scanner.identifier()),
        6 "key" => key(scanner),
        7 "key_borrowed" => key_borrowed(scanner),
        8 "skip_string" => shown(alloc, scanner.skip_string()),
        9 "skip_identifier" => shown(alloc, scanner.skip_identifier()),
        10 "skip_number" => shown(alloc, scanner.skip_number().map(any_whole)),
        11 "peek" => shown(alloc, Ok(scanner.peek())),
        12 "offset" => shown(alloc, Ok(scanner.offset())),
        13 "place" => Ok(place(alloc, scanner.position_of(scanner.offset()))?);
        eat_named(scanner, name)
    )
}

/// `eat[` takes a bracket if it is next.
fn eat_named(scanner: &mut Scanner<&str>, name: &str) -> Answer {
    let alloc = scanner.allocator();
    match name.strip_prefix("eat") {
        Some(c) => shown(alloc, Ok(eat(scanner, c))),
        None => unknown(alloc),
    }
}

/// The key's text, found again after the next character was eaten.
fn key(scanner: &mut Scanner<&str>) -> Answer {
    let alloc = scanner.allocator();
    let key = scanner.key()?;
    let _ = scanner.eat(':');
    let text = scanner.text_of(&key);
    Ok(format!(in alloc; "{text:?}")?)
}

/// The key's text as it may be borrowed.
fn key_borrowed(scanner: &mut Scanner<&str>) -> Answer {
    let alloc = scanner.allocator();
    let key = scanner.key()?;
    shown(alloc, Ok(scanner.borrowed_text_of(key)))
}

fn eat(scanner: &mut Scanner<&str>, text: &str) -> bool {
    match text.chars().next() {
        Some(c) => scanner.eat(c),
        None => false,
    }
}

fn null(scanner: &mut Scanner<&str>) -> Result<()> {
    scanner.word("null", ErrorCode::EofParsingNull, ErrorCode::ExpectedNull)
}

fn any(number: Number) -> Any {
    match number {
        Number::Whole(whole) => Any(Value::Whole(whole)),
        Number::Decimal(decimal) => Any(Value::Decimal(decimal)),
    }
}

fn any_whole(number: Option<Whole>) -> Option<Any> {
    Some(Any(Value::Whole(number?)))
}
