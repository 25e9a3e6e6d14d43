//! The program over the system that it runs on.

ghost use Rattle.cli_edit.specs.Requests.{AsksNothing};
ghost use Rattle.cli_files.specs.NameLists.{names_of};
ghost use Rattle.cli_files.specs.Reports.{EndsWithin};

use crate::answers::answer;
use crate::lines::{no_memory, wrong_words};
use cli_files::given_words;
use std::alloc::Global;
use std::io::ErrorKind;
use std::process::ExitCode;

/// Runs the whole program: [`words`] of the words after its name, or the usage line where the system doesn't give them
/// as text.
///
/// ```text
/// fn main(rt: HostRuntime) -> ExitCode {
///     cli_edit::program(&rt)
/// }
/// ```
pub fn program(rt: &HostRuntime) -> ExitCode {
    let status = match given_words(rt) {
        Ok(list) => words(rt, rt.alloc(), list.as_slice()),
        Err(e) if e.kind() == ErrorKind::OutOfMemory => {
            no_memory(&mut rt.stderr());
            2
        }
        Err(_) => {
            wrong_words(rt.alloc(), &[], &mut rt.stderr());
            2
        }
    };
    ExitCode::from(status)
}

/// Does what the words ask for, and returns the status that the program ends with.
///
/// ```text
/// words(&rt, rt.alloc(), list.as_slice())    // list: `get`, `app.json5` and `server.port`
/// ```
pub fn words(rt: &HostRuntime, alloc: Global, list: &[String]) -> u8
    ensures { EndsWithin 3 (AsksNothing (names_of list.now)) result }
{
    let (mut input, mut output, mut errors) = (rt.stdin(), rt.stdout(), rt.stderr());
    answer(rt, alloc, list, &mut input, &mut output, &mut errors)
}
