//! The lines on standard error.

ghost use Rattle.std.specs.Prelude.{◌≡◌, ◌++◌};
ghost use Rattle.json5_write.specs.Pieces.{AppendsFront, Pushes};
ghost use Rattle.cli_files.specs.JoinedTexts.{joined_texts};
ghost use Rattle.cli_files.specs.Reports.{fault_line, report_line, status_of, unwritten_line};
ghost use Rattle.cli_files.specs.ShownNames.{shown_name};

use crate::failure::Failure;
use crate::shown_names::write_named;
use crate::unwritten::Unwritten;
use crate::writing::write_texts;
use itoa::Buffer;
use json5_types::error::Error;
use std::io::{self, Write};

/// Writes why the work on this input ended, as one line, and returns the status that the program ends with. A failed write
/// changes nothing in that status.
///
/// ```text
/// report("app.json5", &failure, &mut rt.stderr())    // app.json5: expected comma at line 3 column 9
/// ```
pub fn report<E: Write>(name: &str, failure: &Failure, e: &mut E) -> u8
    ensures status { result ≡ status_of failure.now }
    ensures line { AppendsFront (E.contents e.old) (E.contents e.new) (report_line name.now failure.now) }
{
    match failure {
        Failure::NotUtf8 => say_of(e, name, &[": not UTF-8\n"]),
        Failure::Text(error) => say_fault(e, name, error),
        Failure::NoMemory => say_of(e, name, &[": out of memory\n"]),
        Failure::Read => say_of(e, name, &[": cannot be read\n"]),
        Failure::Write => say_of(e, "output", &[": cannot be written\n"]),
    }
    failure.status()
}

/// Writes why the file wasn't replaced, as one line, and returns the status 2.
///
/// ```text
/// report_unwritten("app.json5", &Unwritten::Changed, &mut rt.stderr())    // 2
/// ```
pub fn report_unwritten<E: Write>(name: &str, unwritten: &Unwritten, e: &mut E) -> u8
    ensures status { result ≡ 2 }
    ensures line { AppendsFront (E.contents e.old) (E.contents e.new) (unwritten_line name.now unwritten.now) }
{
    let _ = write_unwritten(e, name, unwritten);
    2
}

fn write_unwritten<E: Write>(e: &mut E, name: &str, unwritten: &Unwritten) -> io::Result<()>
    ensures { Pushes (E.contents e.old) (E.contents e.new) (unwritten_line name.now unwritten.now) result }
{
    let (cause, beside, rest) = unwritten.words();
    let written = write_named(e, name, &[": ", cause]);
    if written.is_err() {
        return written;
    }
    write_named(e, beside, &[rest, "\n"])
}

/// Writes the strings, one after the other. A failed write changes nothing else.
///
/// ```text
/// say(&mut rt.stderr(), &["json5_fmt: ", "out of memory\n"])
/// ```
pub fn say<E: Write>(e: &mut E, texts: &[&str])
    ensures { AppendsFront (E.contents e.old) (E.contents e.new) (joined_texts texts.now) }
{
    let _ = write_texts(e, texts);
}

/// Writes the name as it is shown, and the strings behind it. A failed write changes nothing else.
///
/// ```text
/// say_of(&mut rt.stderr(), "app.json5", &[": out of memory\n"])
/// ```
pub fn say_of<E: Write>(e: &mut E, name: &str, texts: &[&str])
    ensures { AppendsFront (E.contents e.old) (E.contents e.new) (shown_name name.now ++ joined_texts texts.now) }
{
    let _ = write_named(e, name, texts);
}

/// Writes what the fault prints, without memory.
fn say_fault<E: Write>(e: &mut E, name: &str, error: &Error)
    ensures { AppendsFront (E.contents e.old) (E.contents e.new) (fault_line name.now error.now) }
{
    let message = error.message();
    let Some(position) = error.position() else {
        return say_of(e, name, &[": ", message, "\n"]);
    };
    let mut line = Buffer::new();
    let mut column = Buffer::new();
    let line = line.format(position.line as u128 + 1);
    let column = column.format(position.column as u128 + 1);
    say_of(
        e,
        name,
        &[": ", message, " at line ", line, " column ", column, "\n"],
    )
}
