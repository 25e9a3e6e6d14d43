//! The program over the system that it runs on.

ghost use Rattle.std.specs.Prelude.{◌≤◌};

use crate::answers::answer;
use crate::lines::{no_memory, usage};
use cli_files::given_names;
use std::alloc::Global;
use std::io::{BufWriter, ErrorKind};
use std::process::ExitCode;

/// How many bytes are written to standard output at once.
const PIECE: usize = 64 * 1024;

/// Runs the whole program: [`words`] of the words after its name, or the usage line where the system doesn't give them.
///
/// ```text
/// fn main(rt: HostRuntime) -> ExitCode {
///     cli_check::program(&rt)
/// }
/// ```
pub fn program(rt: &HostRuntime) -> ExitCode {
    let status = match given_names(rt) {
        Ok(list) => words(rt, rt.alloc(), list.as_slice()),
        Err(e) if e.kind() == ErrorKind::OutOfMemory => no_memory(&mut rt.stderr()),
        Err(_) => usage(&mut rt.stderr()),
    };
    ExitCode::from(status)
}

/// Does what the words ask for. Returns the status that the program ends with. Where there is no memory for a buffer it writes
/// without one.
///
/// ```text
/// words(&rt, rt.alloc(), list.as_slice())    // list: `--schema`, `app.schema.json` and `app.json5`
/// ```
pub fn words(rt: &HostRuntime, alloc: Global, list: &[String]) -> u8
    ensures { result ≤ 2 }
{
    let (mut input, mut errors) = (rt.stdin(), rt.stderr());
    match BufWriter::with_capacity(alloc, PIECE, rt.stdout()) {
        Ok(mut output) => answer(rt, alloc, list, &mut input, &mut output, &mut errors),
        Err(_) => answer(rt, alloc, list, &mut input, &mut rt.stdout(), &mut errors),
    }
}
