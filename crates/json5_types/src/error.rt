//! Faults of reading and writing.

ghost use Rattle.std.specs.Prelude.{◌≡◌, ◌↔◌, Some, None, IsTrue, MatchResult, string_bytes};
ghost use Rattle.json5_types.specs.Errors.{FaultKind, custom, failed_write, kind_of, error_position, known_code, or_position, kind_text, error_text, SaysAt, IsCustomAt, LacksMemory};
ghost use Rattle.json5_types.specs.ErrorEquality.{same_fault, same_fault_equiv};
ghost use Rattle.std.specs.Cmp.{partial_equiv_from_equiv};

use json5_grammar::error_code::ErrorCode;
use json5_grammar::position::Position;
use std::alloc::{AllocError, AllocFailed, Global};
use std::fmt::{self, Write};
use std::io;

/// What reading and writing return: the value, or a fault.
///
/// ```text
/// fn read_port(alloc: Global, text: &str) -> json5::Result<u16>
/// ```
pub type Result<T> = std::result::Result<T, Error>;

/// What a fault says.
#[derive(Debug, PartialEq, Eq, Drop)]
enum Content {
    Code(ErrorCode),
    Custom(String),
    FailedWrite,
}

/// A fault of reading or writing: a code, a custom message, or a failed write; and perhaps its position in the text that was
/// read.
///
/// It prints as its message and its position, if it has one, counted from 1: `expected comma at line 1 column 4`. A fault is
/// made without a position if the text ends too early (`EofParsing..`), memory ran out, an earlier call was refused
/// (`Failed`), or it comes from writing. An array or an object gives it the position of the opening bracket then, and an
/// `Option<T>` gives a fault of `T` that of the value's first character.
///
/// ```text
/// match json5::from_str::<u16>(alloc, "[80") {
///     Err(error) => println!(rt; "{error}")?,    // expected number at line 1 column 1
///     Ok(port) => ..
/// }
/// ```
#[derive(Debug, Drop)]
pub struct Error {
    content: Content,
    position: Option<Position>,
}

impl Error {
    /// Makes a fault with this code, without a position. Takes no memory.
    ///
    /// ```text
    /// Error::new(ErrorCode::InvalidBytes)    // prints `invalid bytes`
    /// ```
    pub fn new(code: ErrorCode) -> Error
        ensures { SaysAt (FaultKind.code code) None result }
    {
        Error {
            content: Content::Code(code),
            position: None,
        }
    }

    /// Makes a fault with this code at this position. Takes no memory.
    ///
    /// ```text
    /// Error::new_at(Position { line: 0, column: 2 }, ErrorCode::InvalidBytes)    // prints `invalid bytes at line 1 column 3`
    /// ```
    pub fn new_at(position: Position, code: ErrorCode) -> Error
        ensures { SaysAt (FaultKind.code code) (Some position) result }
    {
        Error::new(code).at(position)
    }

    /// Makes a custom fault with this message, without a position. Takes no memory.
    ///
    /// ```text
    /// Error::from_text(String::from_str(alloc, "port 0 can't be opened")?)
    /// ```
    pub fn from_text(text: String) -> Error
        ensures { SaysAt (custom (string_bytes text)) None result }
    {
        Error {
            content: Content::Custom(text),
            position: None,
        }
    }

    /// Makes a custom fault with what the message prints, without a position. If its `Display` fails, the text up to there is
    /// kept.
    ///
    /// ```text
    /// return Err(Error::custom(alloc, format_args!("missing field `{name}`"))?);
    /// ```
    ///
    /// # Errors
    ///
    /// - `OutOfMemory`, without a position, where a request for memory was refused.
    pub fn custom<D: fmt::Display + Drop>(alloc: Global, message: D) -> Result<Error>
        ensures { MatchResult result (IsCustomAt None) LacksMemory }
    {
        let mut out = Message {
            text: String::new(alloc),
            is_full: false,
        };
        let _ = out.write(message);
        let Message { text, is_full } = out;
        if is_full {
            Err(out_of_memory())
        } else {
            Ok(Error::from_text(text))
        }
    }

    /// Makes a custom fault with what the message prints, at this position. If its `Display` fails, the text up to there is kept.
    ///
    /// ```text
    /// let position = de.position_of(port.start);
    /// return Err(Error::custom_at(alloc, position, "port 0 can't be opened")?);
    /// ```
    ///
    /// # Errors
    ///
    /// As [`custom`](Error::custom).
    pub fn custom_at<D: fmt::Display + Drop>(
        alloc: Global,
        position: Position,
        message: D,
    ) -> Result<Error>
        ensures { MatchResult result (IsCustomAt (Some position)) LacksMemory }
    {
        let error = Error::custom(alloc, message)?;
        Ok(error.at(position))
    }

    /// Returns an equal fault. Only the message of a custom fault takes memory.
    ///
    /// ```text
    /// let copy = error.clone(alloc)?;    // equal to `error`
    /// ```
    ///
    /// # Errors
    ///
    /// - `OutOfMemory`, without a position, where a request for memory was refused.
    pub fn clone(&self, alloc: Global) -> Result<Error>
        ensures { MatchResult result (SaysAt (kind_of self.now) (error_position self.now)) LacksMemory }
    {
        let content = match &self.content {
            Content::Code(code) => Content::Code(*code),
            Content::Custom(text) => Content::Custom(String::from_str(alloc, text.as_str())?),
            Content::FailedWrite => Content::FailedWrite,
        };
        Ok(Error {
            content,
            position: self.position,
        })
    }

    /// Returns the code; none for a custom fault and for a failed write.
    ///
    /// ```text
    /// if error.code() == Some(ErrorCode::OutOfMemory) { .. }
    /// ```
    pub fn code(&self) -> Option<ErrorCode>
        ensures { result ≡ known_code (kind_of self.now) }
    {
        match &self.content {
            Content::Code(code) => Some(*code),
            Content::Custom(_) => None,
            Content::FailedWrite => None,
        }
    }

    /// Returns what the fault says, without its position: the code in words, the custom message, or `failed write`.
    ///
    /// ```text
    /// match json5::from_str::<u16>(alloc, "[80") {
    ///     Err(error) => println!(rt; "{}", error.message())?,    // expected number
    ///     Ok(port) => ..
    /// }
    /// ```
    pub fn message(&self) -> &str
        ensures { result.now ≡ kind_text (kind_of self.now) }
    {
        match &self.content {
            Content::Code(code) => code.as_str(),
            Content::Custom(text) => text.as_str(),
            Content::FailedWrite => "failed write",
        }
    }

    /// Returns the position, where there is one: line and column, counted from 0, the column in characters.
    ///
    /// ```text
    /// let line = error.position()?.line;    // 0 for the first line
    /// ```
    pub fn position(&self) -> Option<Position>
        ensures { result ≡ error_position self.now }
    {
        self.position
    }

    /// Gives the fault this position if it has none; a fault that has one stays as it is.
    ///
    /// ```text
    /// Error::new(ErrorCode::InvalidBytes).with_position(position)
    /// ```
    #[must_use]
    pub fn with_position(self, position: Position) -> Error
        ensures { SaysAt (kind_of self) (or_position (error_position self) position) result }
    {
        match self.position {
            Some(_) => self,
            None => self.at(position),
        }
    }

    /// Gives the fault this position, also if it has one.
    ///
    /// ```text
    /// error.at(de.position_of(port.start))
    /// ```
    #[must_use]
    pub fn at(self, position: Position) -> Error
        ensures { SaysAt (kind_of self) (Some position) result }
    {
        let Error {
            content,
            position: _,
        } = self;
        Error {
            content,
            position: Some(position),
        }
    }
}

/// Faults are equal when they say the same and have the same position, or no position.
impl PartialEq for Error {
    ghost eq = { same_fault };

    ghost laws = { partial_equiv_from_equiv same_fault_equiv };

    #[tactic(auto, using(crate::proofs::ErrorsCompared::faults_same))]
    fn eq(&self, other: &Self) -> bool
        ensures gives { result ≡ same_fault self.now other.now }
        ensures same { IsTrue result ↔ ((kind_of self.now ≡ kind_of other.now) × (error_position self.now ≡ error_position other.now)) }
    {
        self.content == other.content && self.position == other.position
    }
}

impl Eq for Error {
    ghost laws = { same_fault_equiv };
}

/// Prints the message, and ` at ` and the position where it has one: `expected comma at line 1 column 4`.
impl fmt::Display for Error {
    ghost output = { λ e. Some (error_text e) };

    fn fmt<W: fmt::Write>(&self, f: &mut fmt::Formatter<W>) -> fmt::Result {
        let message = self.message();
        match self.position() {
            Some(position) => write!(f, "{message} at {position}"),
            None => f.write_str(message),
        }
    }
}

impl std::error::Error for Error {}

fn out_of_memory() -> Error
    ensures { LacksMemory result }
{
    Error::new(ErrorCode::OutOfMemory)
}

/// Makes a failed write, without a position. Takes no memory.
impl From<io::Error> for Error {
    ghost from_gives = { λ _ e. (kind_of e ≡ failed_write) × (error_position e ≡ None) };

    fn from(_error: io::Error) -> Error {
        Error {
            content: Content::FailedWrite,
            position: None,
        }
    }
}

/// Makes `OutOfMemory`, without a position.
impl From<AllocError> for Error {
    ghost from_gives = { λ _ e. LacksMemory e };

    fn from(_error: AllocError) -> Error {
        out_of_memory()
    }
}

/// Makes `OutOfMemory`, without a position.
impl<T: Drop> From<AllocFailed<T>> for Error {
    ghost from_gives = { λ _ e. LacksMemory e };

    fn from(_error: AllocFailed<T>) -> Error {
        out_of_memory()
    }
}

/// A message as far as it was written, and whether memory was refused.
#[derive(Drop)]
struct Message {
    text: String,
    is_full: bool,
}

impl fmt::Write for Message {
    fn write_str(&mut self, text: &str) -> fmt::Result {
        if self.text.push_str(text).is_err() {
            self.is_full = true;
            return Err(fmt::Error);
        }
        Ok(())
    }
}
