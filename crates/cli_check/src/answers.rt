//! The program over its words and its three streams.

ghost use Rattle.cli_check.specs.Answers.{Answers, AnswersFiles, AnswersOptions, ChecksAll};

use crate::lines::{HELP, no_memory, report_schema, usage};
use crate::names::check_names;
use crate::options::{Asked, Options, WordFault};
use crate::schemas::read_schema;
use cli_files::{Store, VERSION, answer_with};
use std::alloc::Global;
use std::io::{Read, Write};

/// Does what the words ask for: it holds each file that they name, each below a folder that they name, and `r` where that is named `-`,
/// against its schema. Words that ask for nothing are answered with the usage line. Returns the status that the program ends with.
///
/// ```text
/// answer(&rt, alloc, list, &mut rt.stdin(), &mut rt.stdout(), &mut rt.stderr())    // 0, 1 or 2
/// ```
pub fn answer<S: Store, R: Read, W: Write, E: Write>(
    store: &S,
    alloc: Global,
    list: &[String],
    r: &mut R,
    w: &mut W,
    e: &mut E,
) -> u8
    ensures { Answers (S.known store.now) list.now (R.remaining r.old) (W.contents w.old) (E.contents e.old)
        (W.contents w.new) (E.contents e.new) result }
{
    match Options::of(alloc, list) {
        Ok(options) => answer_options(store, alloc, &options, r, w, e),
        Err(WordFault::Unknown) => usage(e),
        Err(WordFault::NoMemory) => no_memory(e),
    }
}

fn answer_options<S: Store, R: Read, W: Write, E: Write>(
    store: &S,
    alloc: Global,
    options: &Options,
    r: &mut R,
    w: &mut W,
    e: &mut E,
) -> u8
    ensures { AnswersOptions (S.known store.now) options.now (R.remaining r.old) (W.contents w.old) (E.contents e.old)
        (W.contents w.new) (E.contents e.new) result }
{
    match options.asked {
        Asked::Help => answer_with(&[HELP], w, e),
        Asked::Version => answer_with(&["json5_check ", VERSION, "\n"], w, e),
        Asked::Files => answer_files(store, alloc, options, r, w, e),
    }
}

/// Checks the files that the names stand for, if there is one.
fn answer_files<S: Store, R: Read, W: Write, E: Write>(
    store: &S,
    alloc: Global,
    options: &Options,
    r: &mut R,
    w: &mut W,
    e: &mut E,
) -> u8
    ensures { AnswersFiles (S.known store.now) options.now (R.remaining r.old) (W.contents w.old) (E.contents e.old)
        (W.contents w.new) (E.contents e.new) result }
{
    if options.names.is_empty() {
        return usage(e);
    }
    check_all(store, alloc, options, r, w, e)
}

/// Reads the schema that is given, if one is, and holds each file against it, or against its own.
fn check_all<S: Store, R: Read, W: Write, E: Write>(
    store: &S,
    alloc: Global,
    options: &Options,
    r: &mut R,
    w: &mut W,
    e: &mut E,
) -> u8
    ensures { ChecksAll (S.known store.now) options.now (R.remaining r.old) result }
{
    let Some(file) = &options.schema else {
        return check_names(store, alloc, options, None, r, w, e);
    };
    match read_schema(store, alloc, options, file.as_str()) {
        Ok(schema) => check_names(store, alloc, options, Some(&schema), r, w, e),
        Err(trouble) => {
            report_schema(file.as_str(), &trouble, e);
            2
        }
    }
}
