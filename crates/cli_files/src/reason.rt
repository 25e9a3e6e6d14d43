//! Why the system refuses a file.

ghost use Rattle.std.specs.Prelude.{◌≡◌};
ghost use Rattle.cli_files.specs.Reports.{reason_words};

use std::io::{self, ErrorKind};

/// Why the system refuses a file.
#[derive(Clone, Copy, Debug, Drop)]
pub enum Reason {
    NoFile,
    NotAllowed,
    NameTooLong,
    NameNotUtf8,
    ReadOnly,
    NoRoom,
    Other,
}

impl Reason {
    /// Returns the reason that the error gives.
    pub fn of(e: &io::Error) -> Reason {
        match e.kind() {
            ErrorKind::NotFound => Reason::NoFile,
            ErrorKind::PermissionDenied => Reason::NotAllowed,
            ErrorKind::InvalidFilename => Reason::NameTooLong,
            ErrorKind::InvalidData => Reason::NameNotUtf8,
            ErrorKind::ReadOnlyFilesystem => Reason::ReadOnly,
            ErrorKind::StorageFull | ErrorKind::QuotaExceeded => Reason::NoRoom,
            _ => Reason::Other,
        }
    }

    /// Returns what is said of it behind what can't be done.
    pub fn words(&self) -> &str
        ensures { result.now ≡ reason_words self.now }
    {
        match self {
            Reason::NoFile => ": no such file",
            Reason::NotAllowed => ": not allowed",
            Reason::NameTooLong => ": its name is too long",
            Reason::NameNotUtf8 => ": its name isn't UTF-8",
            Reason::ReadOnly => ": the disk is read-only",
            Reason::NoRoom => ": the disk is full",
            Reason::Other => "",
        }
    }
}
