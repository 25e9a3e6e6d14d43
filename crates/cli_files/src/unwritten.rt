//! Why a file wasn't replaced.

ghost use Rattle.std.specs.Prelude.{◌≡◌, ◌++◌};
ghost use Rattle.cli_files.specs.Reports.{unwritten_words};
ghost use Rattle.cli_files.specs.ShownNames.{shown_name};

use crate::reason::Reason;
use crate::shown_names::print_name;
use std::fmt;
use std::io::{self, ErrorKind};

/// Why a file wasn't replaced. Unless it is torn it holds what it held before.
#[derive(Debug, Drop)]
pub enum Unwritten {
    /// The system refused a step.
    Refused(Reason),
    /// The file isn't as it was read.
    Changed,
    /// A file with a name that would be needed is there.
    Taken(String),
    /// The system refused a step, and then to remove a file, which has this name.
    Remains(String),
    /// A write into the file failed, and so did writing its old text again, which is in the file with this name.
    Torn(String),
    /// Memory ran out.
    NoMemory,
}

impl Unwritten {
    /// What is said of it: words, a name, and words behind it.
    pub(crate) fn words(&self) -> (&str, &str, &str)
        ensures { unwritten_words self.now ≡ result.0.now ++ (shown_name result.1.now ++ result.2.now) }
    {
        match self {
            Unwritten::Refused(why) => ("cannot be written", "", why.words()),
            Unwritten::Changed => ("changed meanwhile, and was left as it is", "", ""),
            Unwritten::Taken(beside) => ("cannot be written: ", beside.as_str(), " is there"),
            Unwritten::Remains(beside) => ("cannot be written, and ", beside.as_str(), " remains"),
            Unwritten::Torn(copy) => (
                "was not written whole: ",
                copy.as_str(),
                " has its old text",
            ),
            Unwritten::NoMemory => ("out of memory", "", ""),
        }
    }
}

impl std::error::Error for Unwritten {}

impl fmt::Display for Unwritten {
    fn fmt<W: fmt::Write>(&self, f: &mut fmt::Formatter<W>) -> fmt::Result {
        let (cause, name, rest) = self.words();
        f.write_str(cause)?;
        print_name(name, f)?;
        f.write_str(rest)
    }
}

impl From<io::Error> for Unwritten {
    fn from(e: io::Error) -> Unwritten {
        match e.kind() {
            ErrorKind::OutOfMemory => Unwritten::NoMemory,
            _ => Unwritten::Refused(Reason::of(&e)),
        }
    }
}
