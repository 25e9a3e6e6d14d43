//! The program over its words and its three streams.

ghost use Rattle.cli_tidy.specs.Answers.{TidyAnswers, AnswersRequest, AnswersStream};

use crate::configs::Configs;
use crate::files::work_through;
use crate::options::{Fault, Options};
use crate::reports::{HELP, no_memory, report_trouble, usage};
use crate::requests::TidyRequest;
use crate::streams::tidy_stream;
use crate::trouble::FileTrouble;
use cli_files::{Failure, Store, VERSION, answer_with};
use std::alloc::Global;
use std::io::{Read, Write};

/// Does what the words ask for: without a work it tidies `r` to `w`; with a work and files it does the work on each
/// of them; words that ask for nothing are answered with the usage line. Returns the status that the program ends
/// with.
///
/// ```text
/// answer(&rt, alloc, list, &mut rt.stdin(), &mut rt.stdout(), &mut rt.stderr())    // 0, 1 or 2
/// ```
pub fn answer<S: Store, R: Read, W: Write, E: Write>(
    store: &S,
    alloc: Global,
    list: &[String],
    r: &mut R,
    w: &mut W,
    e: &mut E,
) -> u8
    ensures { TidyAnswers (S.known store.now) list.now (R.remaining r.old) (W.contents w.old) (E.contents e.old) (W.contents w.new) (E.contents e.new) result }
{
    match TidyRequest::of(alloc, list) {
        Ok(request) => answer_request(store, alloc, &request, r, w, e),
        Err(Fault::Unknown) => {
            usage(alloc, list, e);
            2
        }
        Err(Fault::NoMemory) => {
            no_memory(e);
            2
        }
    }
}

fn answer_request<S: Store, R: Read, W: Write, E: Write>(
    store: &S,
    alloc: Global,
    request: &TidyRequest,
    r: &mut R,
    w: &mut W,
    e: &mut E,
) -> u8
    ensures { AnswersRequest (S.known store.now) request.now (R.remaining r.old) (W.contents w.old) (E.contents e.old)
        (W.contents w.new) (E.contents e.new) result }
{
    match request {
        TidyRequest::Help => answer_with(&[HELP], w, e),
        TidyRequest::Version => answer_with(&["json5_tidy ", VERSION, "\n"], w, e),
        TidyRequest::Stream(options) => answer_stream(store, alloc, options, r, w, e),
        TidyRequest::Files(files) => work_through(store, alloc, files, w, e),
    }
}

/// Tidies `r` to `w`, and writes to `e` why that ended early.
fn answer_stream<S: Store, R: Read, W: Write, E: Write>(
    store: &S,
    alloc: Global,
    options: &Options,
    r: &mut R,
    w: &mut W,
    e: &mut E,
) -> u8
    ensures { AnswersStream options.now (R.remaining r.old) (W.contents w.old) (W.contents w.new) (E.contents e.old) (E.contents e.new) result }
{
    let name = options.name_of_input();
    let Ok(style) = Configs::none(alloc).choose(store, alloc, name, options.style) else {
        return report_trouble(name, &FileTrouble::Failed(Failure::NoMemory), e);
    };
    match tidy_stream(alloc, name, style, r, w) {
        Ok(()) => 0,
        Err(trouble) => report_trouble(name, &trouble, e),
    }
}
