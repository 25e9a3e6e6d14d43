//! What is said on standard error, and of the program itself.

ghost use Rattle.std.specs.Prelude.{◌≡◌};
ghost use Rattle.cli_edit.specs.Troubles.{read_status, text_trouble_status};

use crate::advice::{value_advice, word_fault, work_advice};
use crate::requests::{Command, Source, Task, View};
use crate::texts::name_of;
use crate::trouble::TextTrouble;
use cli_files::{Failure, Store, read_whole, report, report_unwritten};
use json5_edit::{EditError, Expected, PathError, Step};
use json5_edit_values::patch::{PatchFault, Trouble};
use json5_report::Report;
use json5_types::error::Error;
use std::alloc::Global;
use std::io::Write;

/// How the program is called.
const USAGE: &str =
    "usage: json5_edit get|has|keys|length|type|remove|sort FILE PATH, json5_edit set|insert|push|put|rename|comment FILE PATH VALUE, json5_edit move|copy FILE FROM TO, or json5_edit apply|merge FILE PATCH; more by --help\n";

/// What `--help` writes.
pub(crate) const HELP: &str = "usage: json5_edit get|has|keys|length|type|remove|sort FILE PATH, or
       json5_edit set|insert|push|put|rename|comment FILE PATH VALUE, or
       json5_edit move|copy FILE FROM TO, or
       json5_edit apply|merge FILE PATCH
Changes values of a JSON5 file, and keeps the rest as it is.

  get FILE PATH            writes the value, as it is spelled
      --json               writes it as JSON
      --raw                writes the content of a string
      --comment            writes what the comments before the entry say
  has FILE PATH            writes nothing: the status is 0 if the value is there, else 1
  keys FILE PATH           writes the keys of an object, each on a line
  length FILE PATH         writes how many elements or members there are
  type FILE PATH           writes object, array, string, number, boolean or null
  set FILE PATH VALUE      puts another value in its place
  insert FILE PATH VALUE   adds a member, whose key is the last step of the path, or an
                           element before the one there
      --first              adds the member before all others
      --before KEY         adds it before the one with this key
  push FILE PATH VALUE     adds an element to the array there
  put FILE PATH VALUE      sets the value, or adds it with what is missing above it
      --if-absent          leaves a value that is there as it is
  rename FILE PATH KEY     gives a member another key
  move FILE FROM TO        moves a value to another path
  copy FILE FROM TO        puts it there too
  remove FILE PATH         removes an element or a member, and the comments that belong to it
      --keep-comments      leaves those before it
  comment FILE PATH TEXT   puts a comment before an element or a member, in the place of those
                           that belong to it there; an empty TEXT takes them out
  sort FILE PATH           puts the members of an object in the order of their keys, with the
                           comments that belong to each
  apply FILE PATCH         makes the operations of the JSON Patch (RFC 6902) in the file PATCH,
                           all or none
  merge FILE PATCH         merges the merge patch (RFC 7396) in the file PATCH
  --help                   writes this
  --version                writes the version

From set on FILE is changed in place; where it is `-`, standard input is changed to standard
output. With --dry-run as the last word, it is only written what would change, as a diff.
PATCH is JSON5 too, and may be `-` for standard input. PATH, FROM and TO are as
server.ports[0] or /server/ports/0. VALUE is JSON5, in one word; it is `-` for standard
input, or `--from NAME` for what a file holds. With --text right behind it, VALUE is the
content of a string. Options stand last.

The status is 0 if all is well; 1 if the path leads nowhere or a test of a patch fails;
3 if FILE is no JSON5; and 2 for anything else.
";

/// Writes what is wrong with the words, if that is certain, and how the program is called.
pub(crate) fn wrong_words<E: Write>(alloc: Global, list: &[String], e: &mut E) {
    if let Some(fault) = word_fault(alloc, list) {
        let _ = writeln!(e, "json5_edit: {fault}");
    }
    let _ = e.write_all(USAGE.as_bytes());
}

/// Writes that memory ran out.
pub(crate) fn no_memory<E: Write>(e: &mut E) {
    let _ = e.write_all(b"json5_edit: out of memory\n");
}

/// Writes what is wrong with the path.
pub(crate) fn wrong_path<E: Write>(path: &str, error: &PathError, e: &mut E) {
    let advice = match error {
        PathError::At(0, Expected::Name) => ": a path begins without a dot, as server.ports[0]",
        PathError::At(_, Expected::IndexOrKey) => {
            ": an index counts from 0, and a key has quotes, as [0] and [\"a.b\"]"
        }
        _ => "",
    };
    let _ = writeln!(e, "{path}: {error}{advice}");
}

/// Writes why VALUE isn't read.
pub(crate) fn no_value<E: Write>(task: &Task<'_>, failure: &Failure, e: &mut E) {
    let name = match (task.source(), task.work) {
        (Source::File(name), _) => name,
        (_, Command::Apply | Command::Merge) => "PATCH",
        _ => "VALUE",
    };
    let _ = report(name, failure, e);
}

/// Writes why the file's text isn't read, and returns the status that the program ends with.
pub(crate) fn unread<S: Store, E: Write>(
    store: &S,
    alloc: Global,
    task: &Task<'_>,
    failure: &Failure,
    e: &mut E,
) -> u8
    ensures { result ≡ read_status failure.now }
{
    let name = name_of(task.file);
    match failure {
        Failure::NotUtf8 => {
            if !show_bytes(store, alloc, task.file, e) {
                let _ = report(name, failure, e);
            }
            return 3;
        }
        Failure::Read if store.open(task.route()).is_ok() => {
            let _ = writeln!(e, "{name}: cannot be read: FILE comes before PATH");
        }
        _ => {
            let _ = report(name, failure, e);
        }
    }
    match failure {
        Failure::Text(_) => 3,
        _ => 2,
    }
}

/// Writes where the file isn't UTF-8, if it can be read again.
fn show_bytes<S: Store, E: Write>(store: &S, alloc: Global, file: &str, e: &mut E) -> bool {
    let Ok(mut opened) = store.open(file) else {
        return false;
    };
    let Ok(bytes) = read_whole(alloc, &mut opened) else {
        return false;
    };
    let Ok(Some(report)) = Report::of_bytes(alloc, file, bytes.as_slice()) else {
        return false;
    };
    let _ = writeln!(e, "{report}");
    true
}

/// Writes why the work on this text ended, and returns the status that the program ends with.
pub(crate) fn tell<E: Write>(
    alloc: Global,
    task: &Task<'_>,
    value: &str,
    text: &str,
    steps: &[Step<'_>],
    trouble: &TextTrouble,
    e: &mut E,
) -> u8
    ensures { result ≡ text_trouble_status trouble.now }
{
    let name = name_of(task.file);
    match trouble {
        TextTrouble::Edit(EditError::Text(error)) => show(alloc, name, text, error, e),
        TextTrouble::Edit(EditError::Value(error)) => {
            show(alloc, "VALUE", value, error, e);
            value_advice(alloc, value, e);
        }
        TextTrouble::Edit(error) => tell_edit(alloc, task, value, text, steps, error, e),
        TextTrouble::NoPatch(PatchFault::Text(error)) => {
            show(alloc, patch_name(task), value, error, e)
        }
        TextTrouble::NoPatch(fault) => {
            let patch = patch_name(task);
            let _ = writeln!(e, "{patch}: {fault}");
        }
        TextTrouble::Operation(error) => match &error.trouble {
            Trouble::Edit(EditError::Text(error)) => show(alloc, name, text, error, e),
            _ => {
                let _ = writeln!(e, "{name}: {error}");
            }
        },
        TextTrouble::NoPath(error) => wrong_path(value, error, e),
        TextTrouble::NoJson(_) | TextTrouble::IntoItself => {
            let _ = writeln!(e, "{name}: {trouble}");
        }
        TextTrouble::Failed(_) => {
            let _ = writeln!(e, "output: cannot be written");
        }
        TextTrouble::Unwritten(why) => {
            let _ = report_unwritten(task.file, why, e);
        }
    }
    trouble.status()
}

/// The name of the patch in what is said of it.
fn patch_name<'w>(task: &Task<'w>) -> &'w str {
    if task.path == "-" { "stdin" } else { task.path }
}

/// Writes why an edit isn't made that suits neither the text nor VALUE alone. Of `has`, the status says enough.
fn tell_edit<E: Write>(
    alloc: Global,
    task: &Task<'_>,
    value: &str,
    text: &str,
    steps: &[Step<'_>],
    error: &EditError,
    e: &mut E,
) {
    let name = name_of(task.file);
    let said = work_advice(alloc, task.work, value, text, steps, error);
    match (task.work, error, said) {
        (Command::Show(View::Nothing), EditError::Nowhere, _) => {}
        (_, _, Some(said)) => {
            let _ = writeln!(e, "{name}: {said}");
        }
        (_, _, None) => {
            let _ = writeln!(e, "{name}: {error}");
        }
    }
}

/// Writes the report of a fault of this text, or one line where there is no memory for it.
fn show<E: Write>(alloc: Global, name: &str, text: &str, error: &Error, e: &mut E) {
    match Report::new(alloc, name, text, error) {
        Ok(report) => {
            let _ = writeln!(e, "{report}");
        }
        Err(_) => {
            let _ = writeln!(e, "{name}: {error}");
        }
    }
}
