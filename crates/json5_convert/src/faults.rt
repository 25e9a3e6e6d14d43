//! Why a document isn't spelled anew.

ghost use Rattle.json5_convert.specs.Respelled.{IsOfText};

use json5_grammar::position::Position;
use json5_types::ErrorCode;
use json5_types::error::Error;
use std::alloc::AllocError;
use std::fmt;

/// Why a document isn't spelled anew.
///
/// ```text
/// respell(alloc, "[NaN]", Spelling::json())    // Err(RespellError::Number(..)), at the first line, column 2
/// ```
#[derive(Debug, Drop)]
pub enum RespellError {
    /// The text is no document.
    Text(Error),
    /// JSON hasn't the number at this position: it is infinity or not-a-number.
    Number(Position),
    /// Memory ran out.
    NoMemory,
    /// The text is a document, and what was made of it didn't read as it should. No test has met this.
    Failed,
}

/// What such a call returns.
pub type Result<T> = std::result::Result<T, RespellError>;

impl RespellError {
    /// Why the document couldn't be read.
    pub(crate) fn of_text(error: Error) -> RespellError
        ensures { IsOfText error result }
    {
        let Some(code) = error.code() else {
            return RespellError::Text(error);
        };
        match code {
            ErrorCode::OutOfMemory => RespellError::NoMemory,
            _ => RespellError::Text(error),
        }
    }
}

impl From<AllocError> for RespellError {
    fn from(_error: AllocError) -> RespellError {
        RespellError::NoMemory
    }
}

/// A fault of a text that was read already: memory ran out, or what was made of it is at fault.
impl From<Error> for RespellError {
    fn from(error: Error) -> RespellError {
        match error.code() {
            Some(ErrorCode::OutOfMemory) => RespellError::NoMemory,
            _ => RespellError::Failed,
        }
    }
}

impl std::error::Error for RespellError {}

impl fmt::Display for RespellError {
    fn fmt<W: fmt::Write>(&self, f: &mut fmt::Formatter<W>) -> fmt::Result {
        match self {
            RespellError::Text(error) => write!(f, "{error}"),
            RespellError::Number(position) => write!(f, "JSON has no such number at {position}"),
            RespellError::NoMemory => write!(f, "out of memory"),
            RespellError::Failed => write!(f, "it can't be spelled anew"),
        }
    }
}
