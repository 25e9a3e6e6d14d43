//! The program over its words and its three streams.

ghost use Rattle.cli_edit.specs.Answers.{EditAnswers};

use crate::lines::{HELP, wrong_words};
use crate::requests::EditRequest;
use crate::works::do_task;
use cli_files::{Store, VERSION, answer_with};
use std::alloc::Global;
use std::io::{Read, Write};

/// Does what the words ask for, with the files of the store, or from `r` to `w`. Words that ask for nothing are answered
/// with the usage line. Returns the status that the program ends with.
///
/// ```text
/// answer(&rt, alloc, list, &mut rt.stdin(), &mut rt.stdout(), &mut rt.stderr())    // 0, 1, 2 or 3
/// ```
pub fn answer<S: Store, R: Read, W: Write, E: Write>(
    store: &S,
    alloc: Global,
    list: &[String],
    r: &mut R,
    w: &mut W,
    e: &mut E,
) -> u8
    ensures { EditAnswers (S.known store.now) list.now (R.remaining r.old) (W.contents w.old) (E.contents e.old) (W.contents w.new) (E.contents e.new) result }
{
    match EditRequest::of(list) {
        Some(EditRequest::Help) => answer_with(&[HELP], w, e),
        Some(EditRequest::Version) => answer_with(&["json5_edit ", VERSION, "\n"], w, e),
        Some(EditRequest::Task(task)) => do_task(store, alloc, &task, r, w, e),
        None => {
            wrong_words(alloc, list, e);
            2
        }
    }
}
