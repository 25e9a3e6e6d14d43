//! The program over the system that it runs on.

ghost use Rattle.cli_files.specs.Reports.{EndsWithin};
ghost use Rattle.cli_tidy.specs.CommandWords.{AsksNothing};

use crate::answers::answer;
use crate::reports::{no_memory, usage};
use cli_files::given_names;
use std::alloc::Global;
use std::io::{BufWriter, ErrorKind};
use std::process::ExitCode;

/// How many bytes are written to standard output at once.
const PIECE: usize = 64 * 1024;

/// Runs the whole program: [`words`] of the words after its name, or the usage line where the system doesn't give them.
///
/// ```text
/// fn main(rt: HostRuntime) -> ExitCode {
///     cli_tidy::program(&rt)
/// }
/// ```
pub fn program(rt: &HostRuntime) -> ExitCode {
    let status = match given_names(rt) {
        Ok(list) => words(rt, rt.alloc(), list.as_slice()),
        Err(e) if e.kind() == ErrorKind::OutOfMemory => {
            no_memory(&mut rt.stderr());
            2
        }
        Err(_) => {
            usage(rt.alloc(), &[], &mut rt.stderr());
            2
        }
    };
    ExitCode::from(status)
}

/// Does what the words ask for, on the files that they name or, where there are none, on standard input. Returns the
/// status that the program ends with. Where there is no memory for a buffer it writes without one.
///
/// ```text
/// words(&rt, rt.alloc(), list.as_slice())    // list: `check` and `app.json5`
/// ```
pub fn words(rt: &HostRuntime, alloc: Global, list: &[String]) -> u8
    ensures { EndsWithin 2 (AsksNothing list.now) result }
{
    let (mut input, mut errors) = (rt.stdin(), rt.stderr());
    match BufWriter::with_capacity(alloc, PIECE, rt.stdout()) {
        Ok(mut output) => answer(rt, alloc, list, &mut input, &mut output, &mut errors),
        Err(_) => answer(rt, alloc, list, &mut input, &mut rt.stdout(), &mut errors),
    }
}
