//! Documents one after another from a reader.

ghost use Rattle.std.specs.Prelude.{◌≡◌, ◌⊎◌, true, false, ℕ, List, slice_get, IsTrue, IfOk, IfErr, IfSome};
ghost use Rattle.std.specs.Str.{chars};
ghost use Rattle.json5_tokens.specs.Cursor.{IsOutOfMemory};
ghost use Rattle.json5_read.specs.ModelSteps.{IsUnprompted};
ghost use Rattle.json5_convert.specs.Sources.{Held, unread_of};
ghost use Rattle.json5_convert.specs.Streams.{BeginsStream, Decides, FailsOf, IsLasting, IsSettled, RefusesKnown, StaysFaulty, TakesKnown, TakesNextOf, is_of_end};

use crate::lines::next_value;
use crate::sources::Source;
use json5_tokens::scanner::Scanner;
use json5_types::error::{Error, Result};
use json5_types::value::Value;
use json5_types::{ErrorCode, Position};
use std::alloc::Global;
use std::io::Read;
use std::marker::Model;

/// The documents that a reader gives, one after another, as [`Values`](crate::Values) has them of a text. It holds one document
/// with the blanks in front, and of what follows as much again at most, or what one read gave. Where a document isn't whole, it
/// reads as much again as it holds.
///
/// ```text
/// let mut values = ValueStream::new(rt.alloc(), rt.stdin());
/// while let Some(value) = values.next()? {
///     println!(rt; "{}", shown(&value))?;
/// }
/// ```
#[derive(Drop)]
pub struct ValueStream<R: Read + Drop> {
    source: Source<R>,
    has_failed: bool,
}

impl<R: Read + Drop> Model for ValueStream<R> {
    ghost use Rattle.json5_convert.specs.Sources.{unread_of};
    ghost use Rattle.json5_convert.specs.Streams.{KnownStream};

    ghost Value = { KnownStream };

    ghost view = { λ a. record { unread = unread_of a.source; has_failed = a.has_failed } };
}

impl<R: Read + Drop> ValueStream<R> {
    /// Begins at what the reader gives next.
    ///
    /// ```text
    /// let mut values = ValueStream::new(alloc, file);
    /// ```
    pub fn new(alloc: Global, reader: R) -> ValueStream<R>
        ensures { BeginsStream (R.remaining reader) result }
    {
        ValueStream {
            source: Source::new(alloc, reader),
            has_failed: false,
        }
    }

    /// Reads the next document, nested at most 128 deep; None after the last. A number is returned only once a character
    /// follows it or the reader ends, and a fault of the text is told only once its line or the reader ends. After a refusal
    /// every call is refused with `Failed`.
    ///
    /// ```text
    /// values.next()?    // Some(1), then Some(2), then None of `1 2`
    /// ```
    ///
    /// # Errors
    ///
    /// As `json5_read::read_value`, with positions in the whole stream, and
    ///
    /// - a custom fault, `not UTF-8`, at the first byte with which the stream isn't;
    /// - a custom fault without a position, `failed read`, where the reader failed.
    pub fn next(&mut self) -> Result<Option<Value>>
        ensures taken { IfOk result (TakesNextOf self.old self.new) }
        ensures refused { IfErr result (FailsOf self.old self.new) }
    {
        if self.has_failed {
            return Err(Error::new(ErrorCode::Failed));
        }
        self.has_failed = true;
        let value = next_of(&mut self.source)?;
        self.has_failed = false;
        Ok(value)
    }
}

/// Reads the next document, and as much of the reader as that needs.
fn next_of<R: Read + Drop>(source: &mut Source<R>) -> Result<Option<Value>>
    ensures taken { IfOk result (TakesKnown (unread_of source.old) (unread_of source.new)) }
    ensures unprompted { IfErr result IsUnprompted }
    ensures faulty { IfErr result (RefusesKnown (unread_of source.old)) }
{
    for _ in 0..u64::MAX {
        match decided(source.allocator(), source.text(), source.has_ended()) {
            Ok(Some((value, count))) => {
                source.give(count);
                return Ok(value);
            }
            Ok(None) => source.read_on()?,
            Err(fault) => return Err(source.placed(fault)),
        }
    }
    // No reader gives so many pieces.
    Err(Error::new(ErrorCode::OutOfMemory))
}

/// The next document and how many bytes it takes, if what follows the text can't change that.
fn decided(alloc: Global, text: &str, is_whole: bool) -> Result<Option<(Option<Value>, usize)>>
    ensures taken { IfOk result (λ d. IfSome d (Decides text.now is_whole)) }
    ensures unprompted { IfErr result IsUnprompted }
    ensures faulty { IfErr result (StaysFaulty text.now is_whole) }
{
    let mut scanner = Scanner::new(alloc, text);
    match next_value(&mut scanner) {
        Ok(value) if is_whole || is_settled(&value, scanner.peek()) => Ok(Some((
            value,
            scanner.offset(),
        ))),
        Err(fault) if is_whole || is_lasting(&fault, text) => Err(fault),
        _ => Ok(None),
    }
}

/// Whether the document ends where it was read to, by what it is or by what is next.
fn is_settled(value: &Option<Value>, next: Option<char>) -> bool
    ensures { IsTrue result → (y : List ℕ) → next ≡ slice_get y 0 → IsSettled y value.now }
{
    match value {
        Some(value) if !value.is_number() => true,
        _ => next.is_some(),
    }
}

/// Whether the fault stays, whatever follows the text, as its line has ended.
fn is_lasting(fault: &Error, text: &str) -> bool
    ensures { IsTrue result → IsOutOfMemory fault.now ⊎ IsLasting (chars text.now) fault.now }
{
    if fault.code() == Some(ErrorCode::OutOfMemory) {
        return true;
    }
    match fault.position() {
        Some(position) => !is_of_end(fault.code()) && position.line < Position::after(text).line,
        None => false,
    }
}

/// Whether the code says that the text ends too early.
fn is_of_end(code: Option<ErrorCode>) -> bool
    ensures { result ≡ is_of_end code }
{
    matches!(
        code,
        Some(
            ErrorCode::EofParsingArray
                | ErrorCode::EofParsingBool
                | ErrorCode::EofParsingComment
                | ErrorCode::EofParsingEscapeSequence
                | ErrorCode::EofParsingIdentifier
                | ErrorCode::EofParsingNull
                | ErrorCode::EofParsingNumber
                | ErrorCode::EofParsingObject
                | ErrorCode::EofParsingString
                | ErrorCode::EofParsingValue
        )
    )
}
