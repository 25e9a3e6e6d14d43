//! Where files are opened by their names.

use std::fs;
use std::io::{self, ErrorKind, Read};
use std::rt::Files;

/// What stands in a name for bytes that aren't UTF-8.
const NOT_UTF8: char = '\u{FFFD}';

/// Where files are opened by their names. `opens` says what is known of opening a file: None where it is refused, else what its
/// reader has left, if that is known. Of the files of the system nothing is known, as no contract speaks of them.
pub trait Disk {
    ghost use Rattle.std.specs.Prelude.{ℕ, List, Option, None, Some, MatchResult};

    type File: Read + Drop;

    ghost opens: { Self → List ℕ → Option (Option (List ℕ)) → Type 0 };

    /// Opens the file with this name, to read it.
    ///
    /// # Errors
    ///
    /// That of the system, if there is no such file or it can't be read; `InvalidData`, if U+FFFD is in the name of one that isn't
    /// there.
    fn open(&self, name: &str) -> io::Result<Self::File>
        ensures { MatchResult result (λ file. opens self.now name.now (Some (Self.File.remaining file))) (λ _. opens self.now name.now None) };
}

/// The files of the system.
impl<F: Files> Disk for F {
    ghost use Rattle.std.specs.Prelude.{⊤};

    type File = F::File;

    ghost opens = { λ _ _ _. ⊤ };

    fn open(&self, name: &str) -> io::Result<F::File> {
        match fs::open(self, name) {
            Err(e) if e.kind() == ErrorKind::NotFound && name.contains(NOT_UTF8) => {
                Err(io::Error::from(ErrorKind::InvalidData))
            }
            opened => opened,
        }
    }
}
