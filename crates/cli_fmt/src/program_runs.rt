//! The program over its words and its three streams.

ghost use Rattle.cli_fmt.specs.ProgramRuns.{Answers, AnswersStream};

use crate::files::work_through;
use crate::lines::usage;
use crate::streams::run;
use crate::work::Work;
use cli_files::{Disk, report};
use std::alloc::Global;
use std::io::{Read, Write};

/// Does what the words ask for: without words it formats `r` to `w`; with a work and files it does the work on each of them;
/// any other words are answered with the usage line. Returns the status that the program ends with.
pub fn answer<D: Disk, R: Read, W: Write, E: Write>(
    disk: &D,
    alloc: Global,
    list: &[String],
    r: &mut R,
    w: &mut W,
    e: &mut E,
) -> u8
    ensures { Answers (D.opens disk.now) (R.remaining r.old) (W.contents w.old) (E.contents e.old) list.now (W.contents w.new) (E.contents e.new) result }
{
    let Some((word, names)) = list.split_first() else {
        return answer_stream(alloc, r, w, e);
    };
    match Work::named(word.as_str()) {
        Some(work) if !names.is_empty() => work_through(disk, alloc, work, names, w, e),
        _ => {
            usage(e);
            2
        }
    }
}

/// Formats `r` to `w`, and writes to `e` why that ended early, under the name `stdin`.
fn answer_stream<R: Read, W: Write, E: Write>(alloc: Global, r: &mut R, w: &mut W, e: &mut E) -> u8
    ensures { AnswersStream (R.remaining r.old) (W.contents w.old) (W.contents w.new) (E.contents e.old) (E.contents e.new) result }
{
    match run(alloc, r, w) {
        Ok(()) => 0,
        Err(failure) => report("stdin", &failure, e),
    }
}
