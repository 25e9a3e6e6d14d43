//! What codes, positions and faults print, and what a fault keeps.

use json5::{Error, ErrorCode, Position};
use std::alloc::{AllocError, Global};
use std::fmt::{self, Write};
use std::io::{self, ErrorKind};
use std::test::Fail;

static CODES: [ErrorCode; 34] = [
    ErrorCode::EofParsingArray,
    ErrorCode::EofParsingBool,
    ErrorCode::EofParsingComment,
    ErrorCode::EofParsingEscapeSequence,
    ErrorCode::EofParsingIdentifier,
    ErrorCode::EofParsingNull,
    ErrorCode::EofParsingNumber,
    ErrorCode::EofParsingObject,
    ErrorCode::EofParsingString,
    ErrorCode::EofParsingValue,
    ErrorCode::ExpectedBool,
    ErrorCode::ExpectedClosingBrace,
    ErrorCode::ExpectedClosingBracket,
    ErrorCode::ExpectedColon,
    ErrorCode::ExpectedComma,
    ErrorCode::ExpectedComment,
    ErrorCode::ExpectedIdentifier,
    ErrorCode::ExpectedNull,
    ErrorCode::ExpectedNumber,
    ErrorCode::ExpectedOpeningBrace,
    ErrorCode::ExpectedOpeningBracket,
    ErrorCode::ExpectedString,
    ErrorCode::ExpectedStringOrObject,
    ErrorCode::ExpectedValue,
    ErrorCode::InvalidBytes,
    ErrorCode::InvalidEscapeSequence,
    ErrorCode::InvalidKey,
    ErrorCode::LeadingZero,
    ErrorCode::LineTerminatorInString,
    ErrorCode::OverflowParsingNumber,
    ErrorCode::TrailingCharacters,
    ErrorCode::TooDeep,
    ErrorCode::OutOfMemory,
    ErrorCode::Failed,
];

const WORDS: &str = "\
EofParsingArray: EOF parsing array
EofParsingBool: EOF parsing bool
EofParsingComment: EOF parsing comment
EofParsingEscapeSequence: EOF parsing escape sequence
EofParsingIdentifier: EOF parsing identifier
EofParsingNull: EOF parsing null
EofParsingNumber: EOF parsing number
EofParsingObject: EOF parsing object
EofParsingString: EOF parsing string
EofParsingValue: EOF parsing value
ExpectedBool: expected bool
ExpectedClosingBrace: expected closing brace
ExpectedClosingBracket: expected closing bracket
ExpectedColon: expected colon
ExpectedComma: expected comma
ExpectedComment: expected comment
ExpectedIdentifier: expected identifier
ExpectedNull: expected null
ExpectedNumber: expected number
ExpectedOpeningBrace: expected opening brace
ExpectedOpeningBracket: expected opening bracket
ExpectedString: expected string
ExpectedStringOrObject: expected string or object
ExpectedValue: expected value
InvalidBytes: invalid bytes
InvalidEscapeSequence: invalid escape sequence
InvalidKey: invalid key
LeadingZero: leading zero
LineTerminatorInString: line terminator in string
OverflowParsingNumber: overflow parsing number
TrailingCharacters: trailing characters
TooDeep: nested too deep
OutOfMemory: out of memory
Failed: failed before
";

fn words_of_codes(alloc: Global) -> Result<String, AllocError> {
    let mut words = String::new(alloc);
    for code in &CODES {
        writeln!(words, "{code:?}: {code}")?;
    }
    Ok(words)
}

#[test]
fn codes_are_printed_in_words(rt: HostRuntime) -> Result<(), Fail> {
    assert_eq!(rt; words_of_codes(rt.alloc())?.as_str(), WORDS);
    Ok(())
}

#[test]
fn positions_are_printed_from_one(rt: HostRuntime) -> Result<(), Fail> {
    let first = Position { line: 0, column: 0 };
    let last = Position {
        line: usize::MAX,
        column: usize::MAX,
    };
    assert_eq!(rt;
        format!(in rt.alloc(); "{first}, {last}")?.as_str(),
        "line 1 column 1, line 18446744073709551616 column 18446744073709551616"
    );
    Ok(())
}

/// A message that writes its first half and then refuses.
#[derive(Drop)]
struct Broken;

impl fmt::Display for Broken {
    fn fmt<W: fmt::Write>(&self, f: &mut fmt::Formatter<W>) -> fmt::Result {
        f.write_str("half of")?;
        Err(fmt::Error)
    }
}

const FIRST: Position = Position { line: 2, column: 5 };

const SECOND: Position = Position { line: 0, column: 1 };

/// Appends what the fault prints, on a line.
fn push_fault(fault: json5::Result<Error>, lines: &mut String) -> json5::Result<()> {
    let fault = fault?;
    writeln!(lines, "{fault}")?;
    Ok(())
}

/// Faults that are made without memory.
fn push_bare_faults(lines: &mut String) -> json5::Result<()> {
    push_fault(Ok(Error::new(ErrorCode::EofParsingValue)), lines)?;
    push_fault(Ok(Error::new_at(FIRST, ErrorCode::ExpectedComma)), lines)?;
    push_fault(
        Ok(Error::from(io::Error::from(ErrorKind::Interrupted))),
        lines,
    )
}

/// Faults with a text of their own.
fn push_custom_faults(alloc: Global, lines: &mut String) -> json5::Result<()> {
    push_fault(Error::custom(alloc, "missing field `a`"), lines)?;
    push_fault(Error::custom_at(alloc, SECOND, 17u8), lines)?;
    push_fault(Error::custom(alloc, Broken), lines)?;
    let text = String::from_str(alloc, "of mine")?;
    push_fault(Ok(Error::from_text(text)), lines)
}

/// A fault of each kind, as it is printed.
fn printed_faults(alloc: Global) -> json5::Result<String> {
    let mut lines = String::new(alloc);
    push_bare_faults(&mut lines)?;
    push_custom_faults(alloc, &mut lines)?;
    Ok(lines)
}

#[test]
fn faults_are_printed_with_their_places(rt: HostRuntime) -> Result<(), Fail> {
    assert_eq!(rt;
        printed_faults(rt.alloc())?.as_str(),
        "EOF parsing value\n\
        expected comma at line 3 column 6\n\
        failed write\n\
        missing field `a`\n\
        17 at line 1 column 2\n\
        half of\n\
        of mine\n"
    );
    Ok(())
}

/// Whether `with_position` keeps a place, and `at` sets another.
fn places_hold() -> bool {
    let fault = Error::new(ErrorCode::LeadingZero).with_position(FIRST);
    let kept = fault.with_position(SECOND);
    let was_kept = kept == Error::new_at(FIRST, ErrorCode::LeadingZero);
    let moved = kept.at(SECOND);
    was_kept && moved == Error::new_at(SECOND, ErrorCode::LeadingZero)
}

/// Whether the clone of a fault is equal to it.
fn is_cloned(alloc: Global, fault: &Error) -> json5::Result<bool> {
    Ok(fault.clone(alloc)? == *fault)
}

/// Whether clones are equal to what they were made of.
fn clones_are_equal(alloc: Global) -> json5::Result<bool> {
    Ok(
        is_cloned(alloc, &Error::new_at(FIRST, ErrorCode::Failed))?
            && is_cloned(alloc, &Error::custom_at(alloc, SECOND, "out of memory")?)?
            && is_cloned(alloc, &Error::from(io::Error::from(ErrorKind::WriteZero)))?,
    )
}

/// Whether faults differ that say another thing or have another place.
fn others_differ(alloc: Global) -> json5::Result<bool> {
    let text = Error::custom(alloc, "out of memory")?;
    Ok(
        text != Error::new(ErrorCode::OutOfMemory)
            && text != Error::custom(alloc, "out of")?
            && Error::new(ErrorCode::OutOfMemory) != Error::new_at(FIRST, ErrorCode::OutOfMemory),
    )
}

#[test]
fn faults_are_compared_and_cloned(rt: HostRuntime) -> Result<(), Fail> {
    assert!(rt; places_hold());
    assert!(rt; clones_are_equal(rt.alloc())?);
    assert!(rt; others_differ(rt.alloc())?);
    Ok(())
}
