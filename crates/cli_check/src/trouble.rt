//! Why a document isn't checked.

ghost use Rattle.cli_check.specs.SchemaSteps.{IsOfCause};
ghost use Rattle.cli_check.specs.Troubles.{IsReadTrouble, IsUnshownTrouble};

use cli_files::{Failure, Reason};
use json5_types::error::{Error, Result as Made};
use std::alloc::{AllocError, AllocFailed};

/// What is wrong with a schema.
#[derive(Clone, Copy, Debug, Drop)]
pub(crate) enum SchemaCause {
    /// Its file can't be opened.
    Unopened,
    /// Its file holds no document.
    NoDocument,
    /// The document in its file isn't taken as a schema.
    Faulty,
    /// None is named.
    Unnamed,
    /// It is at a URL.
    Elsewhere,
}

/// Why a schema isn't read.
#[derive(Debug, Drop)]
pub(crate) enum SchemaTrouble {
    NoMemory,
    /// A read of its file failed.
    Read,
    /// What is wrong with it, and what is shown of that.
    Shown(SchemaCause, String),
}

/// Why a document isn't checked.
#[derive(Debug, Drop)]
pub(crate) enum Trouble {
    NoMemory,
    /// A read failed.
    Read,
    /// A write of what is wrong with it failed.
    Write,
    /// Its file can't be opened.
    Unopened(Reason),
    /// More schemas are applied within one another than can be.
    Undecided(Error),
    /// There is no schema to hold it against.
    Schema(SchemaTrouble),
}

/// Why a fault isn't shown.
#[derive(Clone, Copy, Debug, Drop)]
pub(crate) enum Unshown {
    NoMemory,
    Write,
}

impl SchemaTrouble {
    /// The trouble of this cause, with the line that is shown of it, if there is memory for that.
    pub(crate) fn because(cause: SchemaCause, line: Made<String>) -> SchemaTrouble
        ensures { IsOfCause cause result }
    {
        match line {
            Ok(line) => SchemaTrouble::Shown(cause, line),
            Err(_) => SchemaTrouble::NoMemory,
        }
    }
}

impl Trouble {
    /// The trouble of a read that fails so.
    pub(crate) fn of_read(failure: Failure) -> Trouble
        ensures { IsReadTrouble result }
    {
        match failure {
            Failure::Read => Trouble::Read,
            _ => Trouble::NoMemory,
        }
    }

    /// The trouble where a fault isn't shown.
    pub(crate) fn of_unshown(unshown: Unshown) -> Trouble
        ensures { IsUnshownTrouble result }
    {
        match unshown {
            Unshown::NoMemory => Trouble::NoMemory,
            Unshown::Write => Trouble::Write,
        }
    }
}

impl From<AllocError> for Unshown {
    fn from(_e: AllocError) -> Unshown {
        Unshown::NoMemory
    }
}

impl<T: Drop> From<AllocFailed<T>> for Unshown {
    fn from(_e: AllocFailed<T>) -> Unshown {
        Unshown::NoMemory
    }
}

/// Of making a report.
impl From<Error> for Unshown {
    fn from(_e: Error) -> Unshown {
        Unshown::NoMemory
    }
}

/// Of a write.
impl From<Failure> for Unshown {
    fn from(_e: Failure) -> Unshown {
        Unshown::Write
    }
}
