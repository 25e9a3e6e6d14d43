//! Why the work on a file ends early.

ghost use Rattle.std.specs.Prelude.{◌≡◌, ◌≢◌, true, false};
ghost use Rattle.cli_files.specs.declared.failure.Failure.TheVariants as failures;
ghost use Rattle.cli_tidy.specs.declared.trouble.FileTrouble.TheVariants as troubles;
ghost use Rattle.cli_tidy.specs.Troubles.{file_trouble_status};

use cli_files::{Failure, Reason, Unwritten};
use json5_types::error::Error;
use std::fmt;

/// Why the work on a file ended.
#[derive(Debug, Drop)]
pub enum FileTrouble {
    /// Memory ran out, or a stream failed.
    Failed(Failure),
    /// What was read is no document: what the report of it prints.
    Refused(String),
    /// The same, where memory ran out for its report: why it is refused, and the error of making the report.
    Unreported(Failure, Error),
    /// The file can't be opened.
    Unopened(Reason),
    /// The file wasn't replaced.
    Unwritten(Unwritten),
    /// It is a folder, and no file below it has an ending that was asked for.
    NoFile,
}

impl FileTrouble {
    /// Returns the status that the program ends with: 1 if the fault is one of the text, else 2.
    pub fn status(&self) -> u8
        ensures { result ≡ file_trouble_status self.now }
    {
        match self {
            FileTrouble::Failed(failure) => failure.status(),
            FileTrouble::Refused(_) => 1,
            FileTrouble::Unreported(failure, _) => failure.status(),
            FileTrouble::Unopened(_) | FileTrouble::Unwritten(_) | FileTrouble::NoFile => 2,
        }
    }

    /// Whether a write to the output failed, which ends the work.
    pub(crate) fn is_failed_write(&self) -> bool
        ensures yes { result ≡ true → self.now ≡ troubles.Failed failures.Write }
        ensures no { result ≡ false → self.now ≢ troubles.Failed failures.Write }
    {
        matches!(self, FileTrouble::Failed(Failure::Write))
    }
}

impl std::error::Error for FileTrouble {}

impl fmt::Display for FileTrouble {
    fn fmt<W: fmt::Write>(&self, f: &mut fmt::Formatter<W>) -> fmt::Result {
        match self {
            FileTrouble::Failed(failure) => write!(f, "{failure}"),
            FileTrouble::Refused(shown) => f.write_str(shown.as_str()),
            FileTrouble::Unreported(failure, _) => write!(f, "{failure}"),
            FileTrouble::Unopened(why) => write!(f, "cannot be read{}", why.words()),
            FileTrouble::Unwritten(unwritten) => write!(f, "{unwritten}"),
            FileTrouble::NoFile => f.write_str("no file to tidy is in it"),
        }
    }
}
