//! A task, from reading the text to writing what was made.

ghost use Rattle.std.specs.Bool.{Decides};
ghost use Rattle.std.specs.Prelude.{◌≡◌, IfErr, OnOk};
ghost use Rattle.cli_edit.specs.Works.{Does, DoesAt, DoesWith, GoesOut, Puts, PutsNew, PutsNoNew, PutsNot, Works, WorksNot, is_tried};

use crate::changes::show_changes;
use crate::edits::{laid, made};
use crate::lines::{no_value, tell, unread, wrong_path};
use crate::requests::{Task, is_shown};
use crate::texts::{name_of, text_of, value_of};
use crate::trouble::TextTrouble;
use crate::values::meant;
use cli_files::{Store, put_texts};
use json5_edit::{EditError, Path, Step};
use std::alloc::Global;
use std::io::{Read, Write};

/// Does what is asked for, and returns the status that the program ends with.
pub(crate) fn do_task<S: Store, R: Read, W: Write, E: Write>(
    store: &S,
    alloc: Global,
    task: &Task<'_>,
    r: &mut R,
    w: &mut W,
    e: &mut E,
) -> u8
    ensures { Does (S.known store.now) task.now (R.remaining r.old) (W.contents w.old) (E.contents e.old) (W.contents w.new) (E.contents e.new) result }
{
    let path = match Path::parse(alloc, task.route()) {
        Ok(path) => path,
        Err(error) => {
            wrong_path(task.path, &error, e);
            return 2;
        }
    };
    match value_of(store, alloc, task.file, task.source(), r) {
        Ok(value) => do_with(store, alloc, task, &path, value.as_str(), r, w, e),
        Err(failure) => {
            no_value(task, &failure, e);
            2
        }
    }
}

/// The same with what is given for VALUE.
fn do_with<S: Store, R: Read, W: Write, E: Write>(
    store: &S,
    alloc: Global,
    task: &Task<'_>,
    path: &Path,
    value: &str,
    r: &mut R,
    w: &mut W,
    e: &mut E,
) -> u8
    ensures { DoesWith (S.known store.now) path.now task.now value.now (R.remaining r.old) (W.contents w.old) (E.contents e.old)
        (W.contents w.new) (E.contents e.new) result }
{
    match text_of(store, alloc, task.file, r) {
        Ok(text) => do_at(store, alloc, task, path, value, text.as_str(), w, e),
        Err(failure) => unread(store, alloc, task, &failure, e),
    }
}

/// The same with the text that was read.
fn do_at<S: Store, W: Write, E: Write>(
    store: &S,
    alloc: Global,
    task: &Task<'_>,
    path: &Path,
    value: &str,
    text: &str,
    w: &mut W,
    e: &mut E,
) -> u8
    ensures { DoesAt (S.known store.now) path.now task.now value.now text.now (W.contents w.old) (E.contents e.old)
        (W.contents w.new) (E.contents e.new) result }
{
    let steps = match path.steps_in(alloc, text) {
        Ok(steps) => steps,
        Err(error) => return tell(alloc, task, value, text, &[], &TextTrouble::Edit(error), e),
    };
    let Ok(value) = meant(alloc, task, text, value) else {
        let trouble = TextTrouble::Edit(EditError::NoMemory);
        return tell(alloc, task, value, text, &[], &trouble, e);
    };
    match work_on(
        store,
        alloc,
        task,
        text,
        steps.as_slice(),
        value.as_str(),
        w,
    ) {
        Ok(()) => 0,
        Err(trouble) => tell(
            alloc,
            task,
            value.as_str(),
            text,
            steps.as_slice(),
            &trouble,
            e,
        ),
    }
}

/// The same with the steps of the path, and with what VALUE means.
fn work_on<S: Store, W: Write>(
    store: &S,
    alloc: Global,
    task: &Task<'_>,
    text: &str,
    steps: &[Step<'_>],
    value: &str,
    w: &mut W,
) -> Result<(), TextTrouble>
    ensures worked { OnOk result (Works (S.known store.now) task.now text.now steps.now value.now (W.contents w.old) (W.contents w.new)) }
    ensures stopped { IfErr result (WorksNot (S.known store.now) task.now text.now steps.now value.now (W.contents w.old) (W.contents w.new)) }
{
    let as_given = made(alloc, task, text, steps, value)?;
    let new = laid(alloc, task, text, steps, value, as_given);
    put(store, alloc, task, text, new.as_str(), w)
}

/// Writes what was made out, or puts it in the place of the file's text; of a dry run, only writes what would change.
fn put<S: Store, W: Write>(
    store: &S,
    alloc: Global,
    task: &Task<'_>,
    old: &str,
    new: &str,
    w: &mut W,
) -> Result<(), TextTrouble>
    ensures put { OnOk result (Puts (S.known store.now) task.now old.now new.now (W.contents w.old) (W.contents w.new)) }
    ensures stopped { IfErr result (PutsNot (S.known store.now) task.now old.now new.now (W.contents w.old) (W.contents w.new)) }
{
    if is_tried(task) {
        return show_changes(alloc, name_of(task.file), old, new, w);
    }
    put_new(store, alloc, task, old, new, w)
}

/// Whether it is only written what would change.
fn is_tried(task: &Task<'_>) -> bool
    ensures { result ≡ is_tried task.now }
{
    task.is_dry && !is_shown(task.work)
}

/// Writes what was made out, or puts it in the place of the file's text.
fn put_new<S: Store, W: Write>(
    store: &S,
    alloc: Global,
    task: &Task<'_>,
    old: &str,
    new: &str,
    w: &mut W,
) -> Result<(), TextTrouble>
    ensures put { OnOk result (PutsNew (S.known store.now) task.now old.now new.now (W.contents w.old) (W.contents w.new)) }
    ensures stopped { IfErr result (PutsNoNew (S.known store.now) task.now old.now new.now (W.contents w.old) (W.contents w.new)) }
{
    if goes_out(task) {
        return match put_texts(w, &[new]) {
            Ok(()) => Ok(()),
            Err(failure) => Err(TextTrouble::Failed(failure)),
        };
    }
    if old == new {
        return Ok(());
    }
    match store.replace(alloc, task.file, old, new) {
        Ok(()) => Ok(()),
        Err(why) => Err(TextTrouble::Unwritten(why)),
    }
}

/// Whether what is made goes to output.
fn goes_out(task: &Task<'_>) -> bool
    ensures { Decides result (GoesOut task.now) }
{
    is_shown(task.work) || task.file == "-"
}
