//! What is written of the program itself, and of what keeps it from its work.

ghost use Rattle.cli_check.specs.Troubles.{GivesUp, memory_line, usage_line};

use crate::trouble::{SchemaTrouble, Trouble};
use cli_files::{Failure, report, say, say_of};
use std::io::Write;

/// What `--help` writes.
pub(crate) const HELP: &str = "usage: json5_check [--schema S] [OPTION...] FILE...
Holds each JSON5 file against a JSON Schema, and shows what is wrong with it.

  json5_check --schema S FILE...  against the schema in the file S, which may be JSON5
  json5_check FILE...             each against the schema that its key `$schema` names:
                                  a file, from the folder of the document on

A folder stands for the files below it that end in .json5, but for those that .ignore and
.gitignore files leave alone. A file named - is standard input.

  --schema S       the file of the schema for all
  --map NAME=FILE  FILE is the schema that documents call NAME, such as a URL
  --draft DRAFT    7, 2019-09 or 2020-12: the draft of schemas that name none
  --format assert  texts have to be in the format that their schema names, as `date`
  --strict         also refuses a schema with a keyword that is none
  --ext ENDING     below folders, files with this ending too
  --exclude GLOB   is left alone below folders
  --quiet          writes no faults: the status tells
  --json           writes each fault as a line of JSON
  --               what follows is no option
  --help           writes this
  --version        writes the version

The status is 0 if all conform; 1 if one doesn't, or is no JSON5; 2 if a file or a
schema can't be read, the schema has a fault, a folder holds no file to check, memory
runs out, or the words are wrong.
";

/// Writes how the program is called, as one line, and returns the status 2.
pub(crate) fn usage<E: Write>(e: &mut E) -> u8
    ensures { GivesUp usage_line (E.contents e.old) (E.contents e.new) result }
{
    say(
        e,
        &["usage: json5_check [--schema S] [OPTION...] FILE...\n"],
    );
    2
}

/// Writes that memory ran out before any work began, and returns the status 2.
pub(crate) fn no_memory<E: Write>(e: &mut E) -> u8
    ensures { GivesUp memory_line (E.contents e.old) (E.contents e.new) result }
{
    say_of(e, "json5_check", &[": out of memory\n"]);
    2
}

/// Writes why the document with this name isn't checked.
pub(crate) fn report_trouble<E: Write>(name: &str, trouble: &Trouble, e: &mut E) {
    let name = title(name);
    match trouble {
        Trouble::NoMemory => say_failure(name, &Failure::NoMemory, e),
        Trouble::Read => say_failure(name, &Failure::Read, e),
        Trouble::Write => say_failure(name, &Failure::Write, e),
        Trouble::Unopened(why) => say_of(e, name, &[": cannot be read", why.words(), "\n"]),
        Trouble::Undecided(error) => say_of(e, name, &[": ", error.message(), "\n"]),
        Trouble::Schema(trouble) => report_schema(name, trouble, e),
    }
}

/// Writes that no file is below the folder with this name.
pub(crate) fn report_no_file<E: Write>(name: &str, e: &mut E) {
    say_of(e, name, &[": no file to check is in it\n"]);
}

/// Writes why a schema isn't read, under this name where nothing is shown of it.
pub(crate) fn report_schema<E: Write>(name: &str, trouble: &SchemaTrouble, e: &mut E) {
    match trouble {
        SchemaTrouble::NoMemory => say_failure(name, &Failure::NoMemory, e),
        SchemaTrouble::Read => say_failure(name, &Failure::Read, e),
        SchemaTrouble::Shown(_, shown) => say(e, &[shown.as_str(), "\n"]),
    }
}

/// What a file with this name is called: standard input is `stdin`.
pub(crate) fn title(name: &str) -> &str {
    match name {
        "-" => "stdin",
        _ => name,
    }
}

fn say_failure<E: Write>(name: &str, failure: &Failure, e: &mut E) {
    let _ = report(name, failure, e);
}
