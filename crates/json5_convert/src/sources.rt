//! What was read of a stream and isn't given yet.

ghost use Rattle.std.specs.Prelude.{◌≡◌, [], true, false, drop, IfErr, OnOk, MatchResult};
ghost use Rattle.std.specs.Io.KnownBytes.{IsAtEnd};
ghost use Rattle.std.specs.Str.{IsCharBoundary};
ghost use Rattle.json5_convert.specs.Sources.{Held, IsTextFront, KeepsStream, ReadsOn, StopsReading, stream_of};
ghost use Rattle.json5_types.specs.Errors.{kind_of};

use json5_types::error::{Error, Result};
use json5_types::{ErrorCode, Position};
use simdutf8::compat::from_utf8;
use std::alloc::{AllocError, Global};
use std::io::{ErrorKind, Read};
use std::marker::Model;
use std::str;

/// How many bytes are asked for at once.
const PIECE: usize = 8 * 1024;

/// A reader, and what was read of it and isn't given yet.
#[derive(Drop)]
pub(crate) struct Source<R: Read + Drop> {
    alloc: Global,
    reader: R,
    /// Text that was read.
    text: String,
    /// How much of the text is given.
    given: usize,
    /// Bytes behind the text that are no text, or not yet.
    rest: Vec<u8>,
    /// Whether the reader is at its end, and nothing is behind the text.
    has_ended: bool,
    /// Whether what is behind the text won't become text.
    is_broken: bool,
    /// How the reader failed, if it did. That is told once the text is given.
    failure: Option<ErrorKind>,
    /// Where in the stream the text begins that isn't given.
    start: Position,
}

impl<R: Read + Drop> Model for Source<R> {
    ghost use Rattle.std.specs.Prelude.{drop, string_bytes, vec_items};
    ghost use Rattle.std.specs.Io.KnownBytes.{prepend_known};
    ghost use Rattle.json5_convert.specs.Sources.{Held, IsCut};

    ghost Value = { Held };

    ghost view = { λ s. record { text = drop s.given (string_bytes s.text); behind = prepend_known (vec_items s.rest) (R.remaining s.reader); has_ended = s.has_ended } };

    ghost invariant = { λ s. IsCut (string_bytes s.text) s.given (prepend_known (vec_items s.rest) (R.remaining s.reader)) s.has_ended };
}

impl<R: Read + Drop> Source<R> {
    pub(crate) fn new(alloc: Global, reader: R) -> Source<R>
        ensures { result ≡ record { text = []; behind = R.remaining reader; has_ended = false } }
    {
        Source {
            alloc,
            reader,
            text: String::new(alloc),
            given: 0,
            rest: Vec::new(alloc),
            has_ended: false,
            is_broken: false,
            failure: None,
            start: Position { line: 0, column: 0 },
        }
    }

    /// The allocator that was given to `new`.
    pub(crate) fn allocator(&self) -> Global {
        self.alloc
    }

    /// Whether nothing is behind the text, and nothing will be.
    pub(crate) fn has_ended(&self) -> bool
        ensures said { result ≡ self.now.has_ended }
        ensures at_end { self.now.has_ended ≡ true → IsAtEnd self.now.behind }
    {
        self.has_ended
    }

    /// The text that was read and isn't given.
    pub(crate) fn text(&self) -> &str
        ensures { result.now ≡ self.now.text }
    {
        &self.text.as_str()[self.given..]
    }

    /// Gives so many bytes of the text.
    pub(crate) fn give(&mut self, count: usize)
        requires { IsCharBoundary self.old.text count }
        ensures { self.new ≡ record self.old { text = drop count self.old.text } }
    {
        let position = Position::after(&self.text()[..count]);
        self.start = moved(self.start, position);
        self.given += count;
    }

    /// The fault of the text, at its place in the stream.
    pub(crate) fn placed(&self, fault: Error) -> Error
        ensures { kind_of result ≡ kind_of fault }
    {
        match fault.position() {
            Some(position) => fault.at(moved(self.start, position)),
            None => fault,
        }
    }

    /// Reads on, until there is more than twice as much text, or the reader ends.
    ///
    /// # Errors
    ///
    /// As `ValueStream::next`, where a read fails, the bytes are no UTF-8 or memory is refused.
    pub(crate) fn read_on(&mut self) -> Result<()>
        ensures { ReadsOn self.old self.new result }
    {
        self.check_open()?;
        self.text = self.text.split_off(self.given)?;
        self.given = 0;
        let enough = self.text.len().saturating_mul(2);
        for _ in 0..u64::MAX {
            self.read_piece()?;
            self.move_text()?;
            if self.is_stopped() || self.text.len() > enough {
                return Ok(());
            }
        }
        // No reader gives so many pieces.
        Err(Error::new(ErrorCode::OutOfMemory))
    }

    /// Refuses where the reader can't be read on.
    fn check_open(&self) -> Result<()>
        ensures { IfErr result StopsReading }
    {
        match self.failure {
            None => {}
            Some(ErrorKind::OutOfMemory) => return Err(Error::new(ErrorCode::OutOfMemory)),
            Some(_) => return Err(Error::from_text(String::from_str(self.alloc, "failed read")?)),
        }
        if self.is_broken {
            return Err(self.not_utf8()?);
        }
        Ok(())
    }

    /// Reads once.
    fn read_piece(&mut self) -> std::result::Result<(), AllocError>
        ensures { OnOk result (KeepsStream self.old self.new) }
    {
        let mut piece = [0; PIECE];
        self.has_ended = false;
        let count = match self.reader.read(&mut piece) {
            Ok(count) => count,
            Err(fault) if fault.kind() == ErrorKind::Interrupted => return Ok(()),
            Err(fault) => {
                self.failure = Some(fault.kind());
                return Ok(());
            }
        };
        self.rest.extend_from_slice(&piece[..count])?;
        self.has_ended = count == 0 && self.rest.is_empty();
        self.is_broken = count == 0 && !self.rest.is_empty();
        Ok(())
    }

    /// Whether the reader has ended or can't be read on.
    fn is_stopped(&self) -> bool {
        self.has_ended || self.is_broken || self.failure.is_some()
    }

    /// Moves what is text in front of the rest behind the text.
    fn move_text(&mut self) -> std::result::Result<(), AllocError>
        ensures { OnOk result (stream_of self.new ≡ stream_of self.old) }
    {
        let (count, is_broken) = text_front(&self.rest);
        let front = unsafe { str::from_utf8_unchecked(&self.rest[..count]) };
        self.text.push_str(front)?;
        self.rest = self.rest.split_off(count)?;
        self.is_broken = self.is_broken || is_broken;
        Ok(())
    }

    /// The fault of bytes behind the text that are no text.
    fn not_utf8(&self) -> Result<Error>
        ensures { MatchResult result StopsReading StopsReading }
    {
        let words = String::from_str(self.alloc, "not UTF-8")?;
        let position = moved(self.start, Position::after(self.text()));
        Ok(Error::from_text(words).at(position))
    }
}

/// How many bytes in front are text, and whether what follows them won't become text.
fn text_front(bytes: &[u8]) -> (usize, bool)
    ensures { IsTextFront bytes.now result.0 }
{
    match from_utf8(bytes) {
        Ok(_) => (bytes.len(), false),
        Err(fault) => (fault.valid_up_to(), fault.error_len().is_some()),
    }
}

/// Where a position in a text is, if the text begins at `start`.
fn moved(start: Position, position: Position) -> Position {
    if position.line == 0 {
        return Position {
            line: start.line,
            column: start.column.saturating_add(position.column),
        };
    }
    Position {
        line: start.line.saturating_add(position.line),
        column: position.column,
    }
}
