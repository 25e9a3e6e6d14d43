//! The lines on standard error, and the help.

ghost use Rattle.std.specs.Prelude.{◌≡◌};

use crate::trouble::Trouble;
use crate::words::Fault;
use cli_files::{Failure, report, report_unwritten, say, say_of};
use json5_types::error::Error;
use std::io::Write;

/// What `--help` writes.
pub(crate) const HELP: &str = "usage: json5_convert [OPTION...] [FILE...]
Converts JSON5 to JSON and back, where comments, lines and blanks stay where they are,
and to TOML and back.

  json5_convert             converts standard input to standard output
  json5_convert FILE...     converts each file to standard output

  --to FORMAT    json; jsonc: JSON with comments; json5; lines: a document a line; toml
  --from FORMAT  the same of what is read; only lines and toml are read in another way
  --out DIR      writes each file into this folder, with the ending of the format
  --no-comments  drops comments, as --to json does
  --indent N     writes it anew without comments, with N spaces a level, 1 to 16; tab:
                 with a tab
  --compact      the same on one line
  --sort-keys    writes it anew without comments, with members in the order of their keys
  --dates        to TOML: a string that is a date or a time to the letter becomes one
  --keep-going   of lines: reads each for itself, and goes on behind one that can't be read
  --             what follows is no option
  --help         writes this
  --version      writes the version

Without --to, .json, .jsonc and .toml files become JSON5, and all else JSON. Without
--from, .jsonl and .ndjson files are read as lines, and .toml files as TOML. An array
becomes a line for each element, and lines become an array. To TOML and from it, members
are put in the order of their names, comments are dropped, and dates become strings.

The status is 0 if all is well; 1 if a text can't be read, or the other format can't say
what is in it; 2 if a file can't be read or written, memory runs out, or the words are
wrong.
";

/// Writes how the program is called where the words are wrong, or that memory ran out before any work began, as one line, and
/// returns the status 2.
pub(crate) fn report_fault<E: Write>(fault: Fault, e: &mut E) -> u8
    ensures { result ≡ 2 }
{
    match fault {
        Fault::Unknown => say(e, &["usage: json5_convert [OPTION...] [FILE...]\n"]),
        Fault::NoMemory => say_of(e, "json5_convert", &[": out of memory\n"]),
    }
    2
}

/// Writes why the work on this file ended, as a report or as one line, and returns the status that the program ends with.
pub(crate) fn report_trouble<E: Write>(name: &str, trouble: &Trouble, e: &mut E) -> u8 {
    match trouble {
        Trouble::Failed(failure) => return report(name, failure, e),
        Trouble::Refused(shown) => {
            say(e, &[shown.as_str(), "\n"]);
            return 1;
        }
        Trouble::Unwritten(path, why) => return report_unwritten(path.as_str(), why, e),
        Trouble::SameFile => say_of(e, name, &[": would be written over itself\n"]),
    }
    2
}

/// Writes the faults of lines that were passed over, each as one line, and returns the status that the program ends with.
pub(crate) fn report_faults<E: Write>(name: &str, faults: Vec<Error>, e: &mut E) -> u8 {
    let mut status: u8 = 0;
    for fault in faults {
        status = status.max(report(name, &Failure::at(fault), e));
    }
    status
}
