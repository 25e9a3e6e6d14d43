//! Why an attempt to replace the text of a file ends.

use crate::unwritten::Unwritten;
use std::alloc::AllocError;
use std::io::{self, ErrorKind};

/// What the system answers where a file system has no hard links.
const NOT_PERMITTED: i32 = 1;

/// Why an attempt to replace the text of a file ends.
#[derive(Drop)]
pub(crate) enum Stop {
    /// Another run was at work, or one that was killed left names, which are put right: it is to be done anew.
    Again,
    /// Names can't be changed here, so the text has to be written into the file itself.
    Through,
    /// The name of the copy is taken.
    Taken,
    /// The name that the file would have meanwhile is taken.
    TakenAside,
    /// The copy has the file's name, and the file the other one, or both names.
    Aside,
    /// The file is torn.
    Torn,
    /// Any other reason.
    Failed(Unwritten),
}

impl From<io::Error> for Stop {
    fn from(e: io::Error) -> Stop {
        Stop::Failed(Unwritten::from(e))
    }
}

impl From<AllocError> for Stop {
    fn from(_e: AllocError) -> Stop {
        Stop::Failed(Unwritten::NoMemory)
    }
}

/// Whether the system refuses to change names, or who owns a file, where writing into it may go.
pub(crate) fn is_refused(e: &io::Error) -> bool {
    matches!(
        e.kind(),
        ErrorKind::PermissionDenied
            | ErrorKind::ReadOnlyFilesystem
            | ErrorKind::CrossesDevices
            | ErrorKind::ResourceBusy
            | ErrorKind::TooManyLinks
            | ErrorKind::InvalidFilename
            | ErrorKind::Unsupported
    )
}

/// The stop of a change of names that fails so.
pub(crate) fn stop_of(e: io::Error) -> Stop {
    if is_refused(&e) {
        return Stop::Through;
    }
    Stop::from(e)
}

/// Whether this error says that a file can't have two names.
pub(crate) fn has_no_links(e: &io::Error) -> bool {
    e.raw_os_error() == Some(NOT_PERMITTED) || e.kind() == ErrorKind::Unsupported
}
