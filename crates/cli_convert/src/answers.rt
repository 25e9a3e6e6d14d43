//! The program over its words, its streams and the system's files.

use crate::converted::{Converted, convert};
use crate::formats::Format;
use crate::options::Options;
use crate::refusals::refused;
use crate::reports::{HELP, report_fault, report_faults, report_trouble};
use crate::trouble::Trouble;
use crate::whole_files::put_whole;
use crate::words::{Fault, Request, Words};
use cli_files::{Disk, Failure, Lock, VERSION, answer_with, given_names, put_texts, read_text};
use json5_types::error::Error;
use std::alloc::{AllocError, Global};
use std::io::{ErrorKind, Read, Write};
use std::os::fd::AsFd;
use std::process::ExitCode;
use std::rt::Files;

/// Runs the whole program: `answer` to the words after its name.
///
/// ```text
/// fn main(rt: HostRuntime) -> ExitCode {
///     cli_convert::program(&rt)
/// }
/// ```
pub fn program(rt: &HostRuntime) -> ExitCode {
    let mut errors = rt.stderr();
    let status = match given_names(rt) {
        Ok(list) => answer(
            rt,
            rt.alloc(),
            list.as_slice(),
            &mut rt.stdin(),
            &mut rt.stdout(),
            &mut errors,
        ),
        Err(e) if e.kind() == ErrorKind::OutOfMemory => report_fault(Fault::NoMemory, &mut errors),
        Err(_) => report_fault(Fault::Unknown, &mut errors),
    };
    ExitCode::from(status)
}

/// Does what the words ask for: converts `r`, or the files that they name, to `w` or into a folder. Returns the status
/// that the program ends with.
///
/// ```text
/// answer(&rt, alloc, list, &mut rt.stdin(), &mut rt.stdout(), &mut rt.stderr())    // 0, 1 or 2
/// ```
pub fn answer<F: Files + AllocGlobal + Clone + Drop, R: Read, W: Write, E: Write>(
    files: &F,
    alloc: Global,
    list: &[String],
    r: &mut R,
    w: &mut W,
    e: &mut E,
) -> u8
where
    F::File: AsFd + Lock,
{
    match Request::of(alloc, list) {
        Ok(Request::Help) => answer_with(&[HELP], w, e),
        Ok(Request::Version) => answer_with(&["json5_convert ", VERSION, "\n"], w, e),
        Ok(Request::Work(words)) if words.names.is_empty() => {
            status_of(
                "stdin",
                put_converted(alloc, &words.options, "stdin", r, w),
                e,
            )
        }
        Ok(Request::Work(words)) => work_through(files, alloc, &words, w, e),
        Err(fault) => report_fault(fault, e),
    }
}

/// The status of this outcome, whose trouble or faults are reported.
fn status_of<E: Write>(name: &str, outcome: Result<Vec<Error>, Trouble>, e: &mut E) -> u8 {
    match outcome {
        Ok(faults) => report_faults(name, faults, e),
        Err(trouble) => report_trouble(name, &trouble, e),
    }
}

/// Converts each file in turn.
fn work_through<F: Files + AllocGlobal + Clone + Drop, W: Write, E: Write>(
    files: &F,
    alloc: Global,
    words: &Words,
    w: &mut W,
    e: &mut E,
) -> u8
where
    F::File: AsFd + Lock,
{
    let mut status: u8 = 0;
    for name in &words.names {
        let outcome = work_on(files, alloc, words, name.as_str(), w);
        status = status.max(status_of(name.as_str(), outcome, e));
    }
    status
}

/// Converts a file, to the output or into the folder.
fn work_on<F: Files + AllocGlobal + Clone + Drop, W: Write>(
    files: &F,
    alloc: Global,
    words: &Words,
    name: &str,
    w: &mut W,
) -> Result<Vec<Error>, Trouble>
where
    F::File: AsFd + Lock,
{
    let Ok(mut file) = Disk::open(files, name) else {
        return Err(Trouble::Failed(Failure::Read));
    };
    match &words.out {
        None => put_converted(alloc, &words.options, name, &mut file, w),
        Some(folder) => {
            let made = read_converted(alloc, &words.options, name, &mut file)?;
            write_beside(
                files,
                alloc,
                words.options.target(name),
                folder.as_str(),
                name,
                made.text.as_str(),
            )?;
            Ok(made.faults)
        }
    }
}

/// Reads all of `r`, and writes it converted to `w`.
fn put_converted<R: Read, W: Write>(
    alloc: Global,
    options: &Options,
    name: &str,
    r: &mut R,
    w: &mut W,
) -> Result<Vec<Error>, Trouble> {
    let made = read_converted(alloc, options, name, r)?;
    match put_texts(w, &[made.text.as_str()]) {
        Ok(()) => Ok(made.faults),
        Err(failure) => Err(Trouble::Failed(failure)),
    }
}

/// Reads all of `r`, and converts it.
fn read_converted<R: Read>(
    alloc: Global,
    options: &Options,
    name: &str,
    r: &mut R,
) -> Result<Converted, Trouble> {
    let text = match read_text(alloc, r) {
        Ok(text) => text,
        Err(failure) => return Err(Trouble::Failed(failure)),
    };
    match convert(alloc, options, name, text.as_str()) {
        Ok(made) => Ok(made),
        Err(error) => {
            let source = options.source(name);
            Err(refused(alloc, source, name, text.as_str(), error))
        }
    }
}

/// Writes a converted file into the folder, under its name with another ending.
fn write_beside<F: Files + AllocGlobal + Clone + Drop>(
    files: &F,
    alloc: Global,
    target: Format,
    folder: &str,
    name: &str,
    made: &str,
) -> Result<(), Trouble>
where
    F::File: AsFd + Lock,
{
    let Ok(path) = path_beside(alloc, target, folder, name) else {
        return Err(Trouble::Failed(Failure::NoMemory));
    };
    if from_here(path.as_str()) == from_here(name) {
        return Err(Trouble::SameFile);
    }
    match put_whole(files, alloc, path.as_str(), made) {
        Ok(()) => Ok(()),
        Err(why) => Err(Trouble::Unwritten(path, why)),
    }
}

/// The path without `./` in front.
fn from_here(path: &str) -> &str {
    path.strip_prefix("./").unwrap_or(path)
}

/// The path of a converted file in the folder.
fn path_beside(
    alloc: Global,
    target: Format,
    folder: &str,
    name: &str,
) -> Result<String, AllocError> {
    let file = match name.rsplit_once('/') {
        Some((_, file)) => file,
        None => name,
    };
    let stem = match file.rsplit_once('.') {
        Some((stem, _)) if !stem.is_empty() => stem,
        _ => file,
    };
    let mut path = String::from_str(alloc, folder)?;
    if !folder.ends_with('/') {
        path.push('/')?;
    }
    path.push_str(stem)?;
    path.push_str(target.ending())?;
    Ok(path)
}
