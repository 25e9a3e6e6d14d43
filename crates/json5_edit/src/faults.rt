//! Why an edit isn't made.

ghost use Rattle.std.specs.Prelude.{◌≡◌, ℕ, List};
ghost use Rattle.std.specs.Str.{chars};
ghost use Rattle.json5_edit.specs.Places.{IsValue};
ghost use Rattle.json5_edit.specs.Refusals.{RefusesText, RefusesPath, RefusesValue, IsOwn};
ghost use Rattle.json5_types.specs.Errors.{LacksMemory};
ghost use Rattle.json5_edit.specs.declared.faults.EditError.TheVariants as errors;
ghost use Rattle.json5_edit.specs.declared.paths.Step.{Step};

use json5_types::ErrorCode;
use json5_types::error::Error;
use std::alloc::{AllocError, AllocFailed};
use std::fmt;

/// Why an edit isn't made. Nothing is changed then.
///
/// ```text
/// set(alloc, "{}", &[Step::Key("port")], "80")    // Err(EditError::Nowhere)
/// ```
#[derive(Debug, Drop)]
pub enum EditError {
    /// The text is no document.
    Text(Error),
    /// The path leads nowhere.
    Nowhere,
    /// What is to be put there isn't one value alone, or is nested too deep for its place.
    Value(Error),
    /// A member with the key is there already.
    Taken,
    /// The step goes to a member, and the value that it starts from is no object.
    NotObject,
    /// The step goes to an element, and the value that it starts from is no array.
    NotArray,
    /// The path has no step, or its last one goes to an element and not to a member.
    NoKey,
    /// Memory ran out.
    NoMemory,
    /// The text is a document, and what was made of it didn't read as it should. No call but `comment`, `comment_of`
    /// and `sort` may answer it: another text is made then.
    Failed,
}

/// What an edit returns: the new text, or why it isn't made.
pub type Result<T, E = EditError> = std::result::Result<T, E>;

/// Why a text isn't made in one way. Another is tried then, unless memory ran out.
#[derive(Drop)]
pub(crate) enum Unmade {
    /// Memory ran out.
    NoMemory,
    /// What was made doesn't read as it should.
    Failed,
}

impl EditError {
    /// Returns the error of an edit whose reading of the document ended with this fault.
    ///
    /// ```text
    /// EditError::of_text(error)    // NoMemory where memory ran out, else Text
    /// ```
    pub fn of_text(error: Error) -> EditError
        ensures { (text : List ℕ) (path : List Step) → RefusesText text error → RefusesPath text path result }
    {
        let Some(code) = error.code() else {
            return EditError::Text(error);
        };
        match code {
            ErrorCode::OutOfMemory => EditError::NoMemory,
            _ => EditError::Text(error),
        }
    }

    /// The error that reading what is to be put there ended with.
    pub(crate) fn of_value(error: Error) -> EditError
        ensures { (room : ℕ) (new : List ℕ) → (IsValue room (chars new) → ⊥) → RefusesValue room new result }
    {
        match error.code() {
            Some(ErrorCode::OutOfMemory) => EditError::NoMemory,
            _ => EditError::Value(error),
        }
    }
}

/// What is told where reading could only want memory.
pub(crate) fn lack(_error: Error) -> AllocError
    requires { LacksMemory _error }
{
    AllocError
}

impl From<AllocError> for EditError {
    ghost from_gives = { λ _ e. e ≡ errors.NoMemory };

    fn from(_error: AllocError) -> EditError {
        EditError::NoMemory
    }
}

impl<T: Drop> From<AllocFailed<T>> for EditError {
    ghost from_gives = { λ _ e. e ≡ errors.NoMemory };

    fn from(_error: AllocFailed<T>) -> EditError {
        EditError::NoMemory
    }
}

impl From<Unmade> for EditError {
    ghost from_gives = { λ _ e. IsOwn e };

    fn from(unmade: Unmade) -> EditError {
        match unmade {
            Unmade::NoMemory => EditError::NoMemory,
            Unmade::Failed => EditError::Failed,
        }
    }
}

impl From<AllocError> for Unmade {
    fn from(_error: AllocError) -> Unmade {
        Unmade::NoMemory
    }
}

/// Reading what was made ended with this fault.
impl From<Error> for Unmade {
    fn from(error: Error) -> Unmade {
        match error.code() {
            Some(ErrorCode::OutOfMemory) => Unmade::NoMemory,
            _ => Unmade::Failed,
        }
    }
}

impl std::error::Error for EditError {}

impl fmt::Display for EditError {
    fn fmt<W: fmt::Write>(&self, f: &mut fmt::Formatter<W>) -> fmt::Result {
        match self {
            EditError::Text(error) => write!(f, "{error}"),
            EditError::Nowhere => write!(f, "the path leads nowhere"),
            EditError::Value(error) => write!(f, "the value that is to be put there: {error}"),
            EditError::Taken => write!(f, "a member with this key is there already"),
            EditError::NotObject => write!(f, "the path goes to a member of what is no object"),
            EditError::NotArray => write!(f, "the path goes to an element of what is no array"),
            EditError::NoKey => write!(f, "the path doesn't end in a key"),
            EditError::NoMemory => write!(f, "out of memory"),
            EditError::Failed => write!(f, "the edit can't be made"),
        }
    }
}
