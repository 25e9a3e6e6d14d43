//! Why the program ends before its work is done.

ghost use Rattle.std.specs.Prelude.{◌≡◌};
ghost use Rattle.cli_files.specs.Failures.{failure_at};
ghost use Rattle.cli_files.specs.Reports.{status_of};

use json5_types::ErrorCode;
use json5_types::error::Error;
use std::fmt;

/// Why the work ended.
#[derive(Debug, Drop)]
pub enum Failure {
    /// The bytes that were read aren't UTF-8.
    NotUtf8,
    /// The input is no document.
    Text(Error),
    /// Memory ran out.
    NoMemory,
    /// A read failed.
    Read,
    /// A write failed.
    Write,
}

impl Failure {
    /// Returns the cause that ends the work at this fault of the text; `NoMemory` where memory ran out.
    pub fn at(error: Error) -> Failure
        ensures { result ≡ failure_at error }
    {
        match error.code() {
            Some(ErrorCode::OutOfMemory) => Failure::NoMemory,
            _ => Failure::Text(error),
        }
    }

    /// Returns the status that the program ends with: 1 if the fault is one of the input, else 2.
    pub fn status(&self) -> u8
        ensures { result ≡ status_of self.now }
    {
        match self {
            Failure::NotUtf8 | Failure::Text(_) => 1,
            Failure::NoMemory | Failure::Read | Failure::Write => 2,
        }
    }
}

impl std::error::Error for Failure {}

impl fmt::Display for Failure {
    fn fmt<W: fmt::Write>(&self, f: &mut fmt::Formatter<W>) -> fmt::Result {
        match self {
            Failure::NotUtf8 => f.write_str("not UTF-8"),
            Failure::Text(error) => write!(f, "{error}"),
            Failure::NoMemory => f.write_str("out of memory"),
            Failure::Read => f.write_str("cannot be read"),
            Failure::Write => f.write_str("cannot be written"),
        }
    }
}
