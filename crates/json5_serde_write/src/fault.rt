//! Why a step failed.

use json5_types::ErrorCode;
use json5_types::error::Error;
use json5_write::refusal::Refused;
use std::alloc::{AllocError, AllocFailed, Global};

/// What a step returns.
pub(crate) type Step = std::result::Result<(), Fault>;

/// Why a step failed. It is small, so that the frame of a call that sends values holds no `Error`.
#[derive(Drop)]
pub(crate) enum Fault {
    /// No more was written.
    Refused(Refused),
    /// What was sent is no value there.
    Misplaced,
    /// What a type said, or the scanner.
    Said(Box<Error>),
}

/// Memory was refused, which is what the writer of a string fails for.
fn no_memory() -> Fault {
    Fault::Refused(Refused::ByWriter)
}

impl Fault {
    /// The fault that says the same.
    #[cold]
    #[inline(never)]
    pub(crate) fn said(alloc: Global, error: Error) -> Fault {
        match Box::new(alloc, error) {
            Ok(error) => Fault::Said(error),
            Err(_) => no_memory(),
        }
    }
}

impl From<Refused> for Fault {
    fn from(refused: Refused) -> Fault {
        Fault::Refused(refused)
    }
}

impl From<AllocError> for Fault {
    fn from(_error: AllocError) -> Fault {
        no_memory()
    }
}

impl<T: Drop> From<AllocFailed<T>> for Fault {
    fn from(_error: AllocFailed<T>) -> Fault {
        no_memory()
    }
}

/// The fault as the caller sees it.
#[cold]
#[inline(never)]
pub(crate) fn told(alloc: Global, fault: Fault) -> Error {
    match fault {
        Fault::Refused(Refused::ByWriter) => Error::new(ErrorCode::OutOfMemory),
        Fault::Refused(refused) => Error::from(refused),
        Fault::Misplaced => match Error::custom(alloc, "a value was sent out of its place") {
            Ok(error) => error,
            Err(error) => error,
        },
        Fault::Said(error) => Box::into_inner(error),
    }
}
