//! Why a value wasn't written, as a small value.

ghost use Rattle.std.specs.Prelude.{◌≡◌, IsErrAnd};
ghost use Rattle.json5_types.specs.Errors.{kind_of};
ghost use Rattle.json5_write.specs.Writes.{refusal_of};
ghost use Rattle.json5_write.specs.ShortWrites.{MakesError, IsOfWriting, refusal_by};

use json5_types::ErrorCode;
use json5_types::error::{Error, Result};
use std::fmt;
use std::io::{self, ErrorKind};

/// Why a value wasn't written whole. It is small, so that the frame of a call that writes values holds no `Error`; `?` makes it the
/// `Error` that says the same, without a position.
#[derive(Clone, Copy, Debug)]
pub enum Refused {
    /// A call was refused before.
    Before,
    /// The writer failed, or took no bytes.
    ByWriter,
    /// It was a bracket past the limit.
    TooDeep,
    /// It was a key that can't be written.
    Key,
}

impl std::error::Error for Refused {}

impl fmt::Display for Refused {
    fn fmt<W: fmt::Write>(&self, f: &mut fmt::Formatter<W>) -> fmt::Result {
        write!(f, "{}", Error::from(*self))
    }
}

/// What a call returns that writes a piece or a value and makes no `Error`.
pub type Put = std::result::Result<(), Refused>;

impl From<Refused> for Error {
    ghost from_gives = { MakesError };

    #[cold]
    #[inline(never)]
    fn from(refused: Refused) -> Error {
        match refused {
            Refused::Before => Error::new(ErrorCode::Failed),
            Refused::ByWriter => Error::from(io::Error::from(ErrorKind::WriteZero)),
            Refused::TooDeep => Error::new(ErrorCode::TooDeep),
            Refused::Key => Error::new(ErrorCode::InvalidKey),
        }
    }
}

impl Refused {
    /// Why a call of a serializer returned this error.
    #[cold]
    #[inline(never)]
    pub fn of(error: &Error) -> Refused
        requires { IsOfWriting error.now }
        ensures { refusal_by result ≡ refusal_of (kind_of error.now) }
    {
        match error.code() {
            Some(ErrorCode::InvalidKey) => Refused::Key,
            Some(ErrorCode::TooDeep) => Refused::TooDeep,
            Some(_) => Refused::Before,
            None => Refused::ByWriter,
        }
    }
}

/// The error of a call that was refused so.
#[cold]
#[inline(never)]
pub fn refusal(refused: Refused) -> Result<()>
    ensures { IsErrAnd result (MakesError refused) }
{
    Err(Error::from(refused))
}
