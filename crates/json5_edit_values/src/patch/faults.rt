//! Why a patch isn't read, or isn't made.

use crate::patch::pointers::Pointer;
use json5_edit::EditError;
use json5_types::ErrorCode;
use json5_types::error::Error;
use std::fmt;

/// Why a text is no patch.
///
/// ```text
/// Patch::parse(alloc, "[{ op: 'add', path: '/a' }]")    // Err(PatchFault::NoValue(0))
/// ```
#[derive(Debug, Drop)]
pub enum PatchFault {
    /// The text is no document.
    Text(Error),
    /// It is no array.
    NoArray,
    /// The operation with this index is no object.
    NoObject(usize),
    /// It has no `op`, or one that isn't known.
    NoOperation(usize),
    /// It has no `path`, or none that is a pointer.
    NoPath(usize),
    /// It has no `from`, or none that is a pointer.
    NoFrom(usize),
    /// It has no `value`.
    NoValue(usize),
    /// Memory ran out.
    NoMemory,
}

impl PatchFault {
    /// Returns the fault of a text whose reading ended with this error.
    ///
    /// ```text
    /// PatchFault::of_text(error)    // NoMemory where memory ran out, else Text
    /// ```
    pub fn of_text(error: Error) -> PatchFault {
        match error.code() {
            Some(ErrorCode::OutOfMemory) => PatchFault::NoMemory,
            _ => PatchFault::Text(error),
        }
    }
}

impl std::error::Error for PatchFault {}

impl fmt::Display for PatchFault {
    fn fmt<W: fmt::Write>(&self, f: &mut fmt::Formatter<W>) -> fmt::Result {
        match self {
            PatchFault::Text(error) => write!(f, "{error}"),
            PatchFault::NoArray => write!(f, "a patch is an array of operations"),
            PatchFault::NoObject(index) => write!(f, "operation {index} is no object"),
            PatchFault::NoOperation(index) => write!(
                f,
                "operation {index}: `op` is add, remove, replace, move, copy or test"
            ),
            PatchFault::NoPath(index) => write!(f, "operation {index}: `path` is no pointer"),
            PatchFault::NoFrom(index) => write!(f, "operation {index}: `from` is no pointer"),
            PatchFault::NoValue(index) => write!(f, "operation {index} has no `value`"),
            PatchFault::NoMemory => write!(f, "out of memory"),
        }
    }
}

/// Why an operation isn't made.
#[derive(Debug, Drop)]
pub enum Trouble {
    /// As an edit.
    Edit(EditError),
    /// What is there isn't the value of the test.
    Differs,
    /// It would move a value into itself.
    IntoItself,
}

impl std::error::Error for Trouble {}

impl fmt::Display for Trouble {
    fn fmt<W: fmt::Write>(&self, f: &mut fmt::Formatter<W>) -> fmt::Result {
        match self {
            Trouble::Edit(error) => write!(f, "{error}"),
            Trouble::Differs => write!(f, "the value there is another one"),
            Trouble::IntoItself => write!(f, "a value can't move into itself"),
        }
    }
}

/// Which operation isn't made, counted from 0, at which of its locations, and why. The text is as it was.
///
/// ```text
/// apply_patch(alloc, "{}", &patch)    // Err: operation 0 at /port: the path leads nowhere
/// ```
#[derive(Debug, Drop)]
pub struct PatchError {
    pub operation: usize,
    /// Its `path`, or its `from` where that leads nowhere. None if the text is no document, or where there is no memory
    /// for it.
    pub path: Option<Pointer>,
    pub trouble: Trouble,
}

impl std::error::Error for PatchError {}

impl fmt::Display for PatchError {
    fn fmt<W: fmt::Write>(&self, f: &mut fmt::Formatter<W>) -> fmt::Result {
        if let Trouble::Edit(EditError::Text(error)) = &self.trouble {
            return write!(f, "{error}");
        }
        write!(f, "operation {}", self.operation)?;
        match &self.path {
            Some(path) if !path.tokens.is_empty() => write!(f, " at {path}")?,
            _ => {}
        }
        write!(f, ": {}", self.trouble)
    }
}
