//! Long texts. A test has a minute, so a time that grew as the square of the text's length would not do.

use json5::{Deserialize, Error, ErrorCode, IgnoredAny, Position, Result, Value, from_str};
use std::alloc::Global;
use std::test::Fail;

/// A piece of text so many times, between two texts.
fn between(alloc: Global, before: &str, piece: &str, count: usize, after: &str) -> Result<String> {
    let pieces = piece.repeat(alloc, count)?;
    let mut text = String::from_str(alloc, before)?;
    text.push_str(pieces.as_str())?;
    text.push_str(after)?;
    Ok(text)
}

/// A piece over and over, a quarter of a mebibyte in all, between two texts.
fn long_text(alloc: Global, before: &str, piece: &str, after: &str) -> Result<String> {
    between(alloc, before, piece, (1 << 18) / piece.len().max(1), after)
}

fn refusal<'de, T: Deserialize<&'de str>>(alloc: Global, text: &'de str) -> Option<Error> {
    from_str::<T>(alloc, text).err()
}

/// Whether the text is refused so, read and passed over.
fn is_refused(alloc: Global, text: &str, fault: &Error) -> bool {
    refusal::<Value>(alloc, text).as_ref() == Some(fault)
        && refusal::<IgnoredAny>(alloc, text).as_ref() == Some(fault)
}

fn at(column: usize, code: ErrorCode) -> Error {
    Error::new_at(Position { line: 0, column }, code)
}

#[test]
fn brackets_without_end_are_refused_at_the_129th(rt: HostRuntime) -> std::result::Result<(), Fail> {
    for (piece, column, code) in [
        ("[", 128, ErrorCode::TooDeep),
        ("{a:", 384, ErrorCode::TooDeep),
        ("[{a:", 256, ErrorCode::TooDeep),
        ("/*", 5, ErrorCode::ExpectedValue),
    ] {
        let text = long_text(rt.alloc(), "", piece, "")?;
        let fault = at(column, code);
        assert!(rt; is_refused(rt.alloc(), text.as_str(), &fault), "{piece}");
    }
    Ok(())
}

#[test]
fn tokens_without_end_are_refused(rt: HostRuntime) -> std::result::Result<(), Fail> {
    for (before, piece, code) in [
        ("'", "\\", ErrorCode::EofParsingString),
        ("'\\", "\\\\", ErrorCode::EofParsingEscapeSequence),
        ("/*", " /", ErrorCode::EofParsingComment),
    ] {
        let text = long_text(rt.alloc(), before, piece, "")?;
        let fault = Error::new(code);
        assert!(rt; is_refused(rt.alloc(), text.as_str(), &fault), "{piece}");
    }
    Ok(())
}

#[test]
fn long_tokens_are_passed_over(rt: HostRuntime) -> std::result::Result<(), Fail> {
    for (before, piece, after) in [
        ("'", "\\", "'"),
        ("'", "\\u0041", "'"),
        ("", "/**/", "null"),
        ("/*", "* ", "*/null"),
        ("{", "\\u0061", ":0}"),
        ("-0.", "00", ""),
    ] {
        let text = long_text(rt.alloc(), before, piece, after)?;
        assert!(rt;
            refusal::<IgnoredAny>(rt.alloc(), text.as_str()).is_none(),
            "{piece}"
        );
    }
    Ok(())
}

/// How many members the value of the text has.
fn members(alloc: Global, text: &str) -> Result<usize> {
    match from_str::<Value>(alloc, text)? {
        Value::Array(items) => Ok(items.len()),
        Value::Object(fields) => Ok(fields.len()),
        _ => Ok(0),
    }
}

#[test]
fn many_numbers_and_pairs_are_read(rt: HostRuntime) -> std::result::Result<(), Fail> {
    let numbers = between(rt.alloc(), "[", "0,", 100_000, "]")?;
    assert!(rt; members(rt.alloc(), numbers.as_str())? == 100_000);
    let pairs = between(rt.alloc(), "{", "'a':0,", 10_000, "}")?;
    assert!(rt; members(rt.alloc(), pairs.as_str())? == 10_000);
    Ok(())
}
