//! Locks on open files, so that of several runs one at a time works on a file.

use std::fs::File;
use std::io;

/// An open file that a run can have for itself.
pub trait Lock {
    /// Waits until no other run has the file. This one has it then, until it closes the file or ends.
    ///
    /// # Errors
    ///
    /// That of the system, where it has no locks.
    fn wait(&self) -> io::Result<()>;
}

impl Lock for File {
    fn wait(&self) -> io::Result<()> {
        self.lock()
    }
}
