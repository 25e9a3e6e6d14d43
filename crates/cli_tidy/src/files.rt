//! One file after another.

ghost use Rattle.std.specs.Prelude.{IfOk, string_bytes};
ghost use Rattle.json5_write.specs.Pieces.{Pushes};
ghost use Rattle.cli_files.specs.JoinedTexts.{joined_texts};
ghost use Rattle.cli_tidy.specs.Files.{PutsDiff, PutsFile, PutsStyle, PutsTexts, WorksOnFile, WorksOnTidied, WorksThrough, name_line};
ghost use Rattle.cli_files.specs.NameLists.{names_of};
ghost use Rattle.cli_tidy.specs.Names.{Stands, WorksBelow, WorksThroughNames};

use crate::configs::Configs;
use crate::diffs::diff;
use crate::reports::report_trouble;
use crate::requests::FileRequest;
use crate::styles::{TextStyle, style_line};
use crate::tidied::{Tidied, read_tidied};
use crate::trouble::FileTrouble;
use crate::work::FileWork;
use cli_files::{Failure, Reason, Store, files_of, put_texts, write_named};
use std::alloc::{AllocError, Global};
use std::io::{self, Write};

/// What came of the work on a file.
#[derive(Clone, Copy, Drop)]
pub(crate) enum Outcome {
    /// It is tidy, or was tidied.
    Tidy,
    /// It isn't tidy.
    Untidy,
}

/// Does the work on each file that was named, and on each below the folders that were, in turn, and writes to `e` why
/// it failed on one. A failed write to `w` ends it; nothing else does. Returns the greatest status that was met, else
/// 0.
///
/// ```text
/// work_through(&rt, alloc, &request, &mut rt.stdout(), &mut rt.stderr())
/// ```
pub fn work_through<S: Store, W: Write, E: Write>(
    store: &S,
    alloc: Global,
    request: &FileRequest,
    w: &mut W,
    e: &mut E,
) -> u8
    ensures { WorksThroughNames (S.known store.now) request.now (W.contents w.old) (E.contents e.old) (W.contents w.new) (E.contents e.new) result }
{
    let mut status: u8 = 0;
    let mut configs = Configs::none(alloc);
    for name in &request.names {
        let (met, goes_on) = work_below(store, alloc, request, &mut configs, name.as_str(), w, e);
        status = status.max(met);
        if !goes_on {
            return status;
        }
    }
    status
}

/// The same for the files that one name stands for; and whether the work goes on.
fn work_below<S: Store, W: Write, E: Write>(
    store: &S,
    alloc: Global,
    request: &FileRequest,
    configs: &mut Configs,
    name: &str,
    w: &mut W,
    e: &mut E,
) -> (u8, bool)
    ensures { WorksBelow (S.known store.now) request.now name.now (W.contents w.old) (E.contents e.old)
        (W.contents w.new) (E.contents e.new) result.0 result.1 }
{
    let Ok(names) = files_below(store, alloc, request, name) else {
        return (
            report_trouble(name, &FileTrouble::Failed(Failure::NoMemory), e),
            true,
        );
    };
    if names.is_empty() {
        return (report_trouble(name, &FileTrouble::NoFile, e), true);
    }
    work_on_each(store, alloc, request, configs, names.as_slice(), w, e)
}

/// The files that one name stands for.
fn files_below<S: Store>(
    store: &S,
    alloc: Global,
    request: &FileRequest,
    name: &str,
) -> Result<Vec<String>, AllocError>
    ensures { IfOk result (λ found. Stands (S.known store.now) request.now name.now (names_of found.items)) }
{
    let (endings, excluded) = (&request.options.endings, &request.options.excluded);
    files_of(store, alloc, endings, excluded, name)
}

/// Does the work on each file in turn; and whether it goes on.
fn work_on_each<S: Store, W: Write, E: Write>(
    store: &S,
    alloc: Global,
    request: &FileRequest,
    configs: &mut Configs,
    names: &[String],
    w: &mut W,
    e: &mut E,
) -> (u8, bool)
    ensures { WorksThrough (S.known store.now) request.now (W.contents w.old) (E.contents e.old) names.now
        (W.contents w.new) (E.contents e.new) result.0 result.1 }
{
    let mut status: u8 = 0;
    for name in names {
        let trouble = match work_on(store, alloc, request, configs, name.as_str(), w) {
            Ok(Outcome::Tidy) => continue,
            Ok(Outcome::Untidy) => {
                status = status.max(1);
                continue;
            }
            Err(trouble) => trouble,
        };
        status = status.max(report_trouble(name.as_str(), &trouble, e));
        if trouble.is_failed_write() {
            return (status, false);
        }
    }
    (status, true)
}

/// Does the work on one file.
fn work_on<S: Store, W: Write>(
    store: &S,
    alloc: Global,
    request: &FileRequest,
    configs: &mut Configs,
    name: &str,
    w: &mut W,
) -> Result<Outcome, FileTrouble>
    ensures { WorksOnFile (S.known store.now) request.now name.now (W.contents w.old) (W.contents w.new) result }
{
    let mut file = match store.open(name) {
        Ok(file) => file,
        Err(e) => return Err(FileTrouble::Unopened(Reason::of(&e))),
    };
    let Ok(style) = configs.choose(store, alloc, name, request.options.style) else {
        return Err(FileTrouble::Failed(Failure::NoMemory));
    };
    match read_tidied(alloc, name, style, &mut file) {
        Ok(tidied) => work_on_texts(store, alloc, request, configs, name, &tidied, w),
        Err(trouble) => Err(trouble),
    }
}

/// Does the work on the texts of a file.
fn work_on_texts<S: Store, W: Write>(
    store: &S,
    alloc: Global,
    request: &FileRequest,
    configs: &Configs,
    name: &str,
    tidied: &Tidied,
    w: &mut W,
) -> Result<Outcome, FileTrouble>
    ensures { WorksOnTidied (S.known store.now) request.now.work name.now tidied.now (W.contents w.old) (W.contents w.new) result }
{
    match request.work {
        FileWork::Style => put_style(alloc, name, configs, tidied.style, w),
        FileWork::Print => put(w, &[tidied.after.as_str()], Outcome::Tidy),
        _ if tidied.is_tidy() => Ok(Outcome::Tidy),
        FileWork::Check => put_name(w, name, Outcome::Untidy),
        FileWork::Diff => put_diff(alloc, name, tidied, w),
        FileWork::Write => put_file(store, alloc, request, name, tidied, w),
    }
}

/// Writes the texts.
fn put<W: Write>(w: &mut W, texts: &[&str], outcome: Outcome) -> Result<Outcome, FileTrouble>
    ensures { PutsTexts outcome (joined_texts texts.now) (W.contents w.old) (W.contents w.new) result }
{
    match put_texts(w, texts) {
        Ok(()) => Ok(outcome),
        Err(failure) => Err(FileTrouble::Failed(failure)),
    }
}

/// Writes the name as it is shown, on a line.
fn put_name<W: Write>(w: &mut W, name: &str, outcome: Outcome) -> Result<Outcome, FileTrouble>
    ensures { PutsTexts outcome (name_line name.now) (W.contents w.old) (W.contents w.new) result }
{
    match write_line(w, name) {
        Ok(()) => Ok(outcome),
        Err(_) => Err(FileTrouble::Failed(Failure::Write)),
    }
}

fn write_line<W: Write>(w: &mut W, name: &str) -> io::Result<()>
    ensures { Pushes (W.contents w.old) (W.contents w.new) (name_line name.now) result }
{
    write_named(w, name, &["\n"])?;
    w.flush()
}

/// Writes the style that holds for the file, and what chose each size.
fn put_style<W: Write>(
    alloc: Global,
    name: &str,
    configs: &Configs,
    style: TextStyle,
    w: &mut W,
) -> Result<Outcome, FileTrouble>
    ensures { PutsStyle (W.contents w.old) (W.contents w.new) result }
{
    match style_line(alloc, name, configs, style) {
        Ok(line) => put(w, &[line.as_str()], Outcome::Tidy),
        Err(_) => Err(FileTrouble::Failed(Failure::NoMemory)),
    }
}

/// Writes what would change.
fn put_diff<W: Write>(
    alloc: Global,
    name: &str,
    tidied: &Tidied,
    w: &mut W,
) -> Result<Outcome, FileTrouble>
    ensures { PutsDiff (W.contents w.old) (W.contents w.new) result }
{
    match diff(
        alloc,
        name,
        tidied.before.as_str(),
        tidied.after.as_str(),
        w,
    ) {
        Ok(()) => Ok(Outcome::Untidy),
        Err(failure) => Err(FileTrouble::Failed(failure)),
    }
}

/// Puts the tidied text in the place of the file's, and writes the name, unless nothing is to be said.
fn put_file<S: Store, W: Write>(
    store: &S,
    alloc: Global,
    request: &FileRequest,
    name: &str,
    tidied: &Tidied,
    w: &mut W,
) -> Result<Outcome, FileTrouble>
    ensures { PutsFile ((S.known store.now).replaces name.now (string_bytes tidied.now.before) (string_bytes tidied.now.after))
        name.now (W.contents w.old) (W.contents w.new) result }
{
    match store.replace(alloc, name, tidied.before.as_str(), tidied.after.as_str()) {
        Ok(()) if request.options.is_quiet => Ok(Outcome::Tidy),
        Ok(()) => put_name(w, name, Outcome::Tidy),
        Err(unwritten) => Err(FileTrouble::Unwritten(unwritten)),
    }
}
