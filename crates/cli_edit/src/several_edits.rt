//! Several edits of a text or of a file, all or none.

ghost use Rattle.std.specs.Prelude.{◌≡◌, IfErr, IfOk, OnOk, string_bytes};
ghost use Rattle.cli_edit.specs.SeveralEdits.{DoesTask, EditsAll, EditsFile, EditsTo, FillsFile, IsPathOf, LeavesFile, RefusesAll, RefusesFile, RefusesTask, RefusesTo, given_of, path_of, work_of};

use crate::edits::{laid, made};
use crate::requests::{Command, Given, Source, Task};
use crate::texts::text_in;
use crate::trouble::TextTrouble;
use crate::values::meant;
use cli_files::{Failure, Store, Unwritten};
use json5_edit::{Before, EditError, Path};
use std::alloc::Global;
use std::fmt;

/// An edit as the program makes it: first its path, as `server.ports[0]` or `/server/ports/0`, then its value, which is
/// JSON5, or a key, a path or a comment.
///
/// ```text
/// Edit::Put("server.port", "8080")
/// ```
#[derive(Clone, Copy, Drop)]
pub enum Edit<'e> {
    /// Puts another value in the place of the one that is there.
    Set(&'e str, &'e str),
    /// Adds a member, whose key is the last step, or an element before the one that is there.
    Insert(&'e str, &'e str),
    /// Adds a member before another one, or before all.
    InsertBefore(&'e str, Before<'e>, &'e str),
    /// Adds an element to the array that is there.
    Push(&'e str, &'e str),
    /// Sets the value, or adds it with what is missing above it.
    Put(&'e str, &'e str),
    /// The same where nothing is there; else nothing.
    PutIfAbsent(&'e str, &'e str),
    /// Gives the member another key.
    Rename(&'e str, &'e str),
    /// Moves the value to another path.
    Move(&'e str, &'e str),
    /// Puts the same value there too.
    Copy(&'e str, &'e str),
    /// Removes the element or the member, with the comments that belong to it.
    Remove(&'e str),
    /// The same, but leaves the comments before it.
    RemoveAlone(&'e str),
    /// Puts this comment before the element or the member, in the place of those that belong to it.
    Comment(&'e str, &'e str),
    /// Puts the members of the object in the order of their keys.
    Sort(&'e str),
}

/// Which edit isn't made, counted from 0, at which path, and why. The text is as it was.
///
/// ```text
/// edit_text(alloc, "app.json5", "{}", &[Edit::Remove("port")])    // Err: edit 0 at port: the path leads nowhere
/// ```
#[derive(Debug, Drop)]
pub struct EditsError {
    pub edit: usize,
    /// None where there is no memory for it.
    pub path: Option<String>,
    pub trouble: TextTrouble,
}

/// Why a file isn't edited. It holds what it held, or at `Unwritten` what that says.
///
/// ```text
/// edit_file(&rt, alloc, "app.json5", edits)    // Err: EditFileError::Unread(Failure::Read), if there is no such file
/// ```
#[derive(Debug, Drop)]
pub enum EditFileError {
    /// It can't be read, or holds no text.
    Unread(Failure),
    /// One of the edits isn't made.
    Unmade(EditsError),
    /// The new text isn't written.
    Unwritten(Unwritten),
}

impl std::error::Error for EditsError {}

impl fmt::Display for EditsError {
    fn fmt<W: fmt::Write>(&self, f: &mut fmt::Formatter<W>) -> fmt::Result {
        if let TextTrouble::Edit(EditError::Text(error)) = &self.trouble {
            return write!(f, "{error}");
        }
        write!(f, "edit {}", self.edit)?;
        match &self.path {
            Some(path) if !path.is_empty() => write!(f, " at {path}")?,
            _ => {}
        }
        write!(f, ": {}", self.trouble)
    }
}

impl std::error::Error for EditFileError {}

impl fmt::Display for EditFileError {
    fn fmt<W: fmt::Write>(&self, f: &mut fmt::Formatter<W>) -> fmt::Result {
        match self {
            EditFileError::Unread(failure) => write!(f, "{failure}"),
            EditFileError::Unmade(error) => write!(f, "{error}"),
            EditFileError::Unwritten(why) => write!(f, "{why}"),
        }
    }
}

/// Returns the text after these edits, one after the other, each as the program json5_edit makes it of a file with this
/// name: the first key of a document has no quotes, if the name ends in `.json5`.
///
/// ```text
/// edit_text(alloc, "app.json", "{ \"port\": 80 } // web", &[Edit::Put("port", "8080"), Edit::Put("host", "\"a\"")])?
///     // { "port": 8080, "host": "a" } // web
/// ```
///
/// # Errors
///
/// With the index of the first edit that can't be made, its path, and
/// - `Edit` with the error of the edit: `Nowhere`, if its path leads nowhere; `Text`, if the text is no document.
/// - `NoPath` with what is expected, if its path, or that to which a value goes, isn't spelled as one.
/// - `IntoItself`, if a value would move into itself.
pub fn edit_text(
    alloc: Global,
    name: &str,
    text: &str,
    edits: &[Edit<'_>],
) -> Result<String, EditsError>
    ensures made { IfOk result (λ made. EditsAll edits.now text.now (string_bytes made)) }
    ensures refused { IfErr result (RefusesAll edits.now text.now) }
{
    let Ok(mut made) = String::from_str(alloc, text) else {
        return Err(EditsError {
            edit: 0,
            path: None,
            trouble: TextTrouble::Edit(EditError::NoMemory),
        });
    };
    for edit in 0..edits.len() {
        match edited(alloc, name, made.as_str(), edits[edit]) {
            Ok(new) => made = new,
            Err(trouble) => {
                let path = path_of(alloc, edits[edit]);
                return Err(EditsError {
                    edit,
                    path,
                    trouble,
                });
            }
        }
    }
    Ok(made)
}

/// Edits the file with this name in place: these edits, one after the other, all or none. It is read once, and replaced once if
/// anything changes. Runs that edit a file at once wait for one another, and what another one wrote isn't lost.
///
/// ```text
/// edit_file(&rt, alloc, "app.json5", &[Edit::Put("server.port", "8080"), Edit::Remove("server.legacy")])?
/// ```
///
/// # Errors
///
/// - `Unread`, if the file can't be read, or holds no text.
/// - `Unmade` as [`edit_text`].
/// - `Unwritten`, if the file can't be replaced, or holds another text by now.
pub fn edit_file<S: Store>(
    store: &S,
    alloc: Global,
    name: &str,
    edits: &[Edit<'_>],
) -> Result<(), EditFileError>
    ensures edited { OnOk result (EditsFile (S.known store.now) name.now edits.now) }
    ensures refused { IfErr result (RefusesFile (S.known store.now) name.now edits.now) }
{
    let text = match text_in(store, alloc, name) {
        Ok(text) => text,
        Err(failure) => return Err(EditFileError::Unread(failure)),
    };
    match edit_text(alloc, name, text.as_str(), edits) {
        Ok(new) => fill(store, alloc, name, text.as_str(), new.as_str()),
        Err(error) => Err(EditFileError::Unmade(error)),
    }
}

/// Puts the new text in the place of the old one, if it is another.
fn fill<S: Store>(
    store: &S,
    alloc: Global,
    name: &str,
    old: &str,
    new: &str,
) -> Result<(), EditFileError>
    ensures filled { OnOk result (FillsFile (S.known store.now) name.now old.now new.now) }
    ensures left { IfErr result (LeavesFile (S.known store.now) name.now old.now new.now) }
{
    if old == new {
        return Ok(());
    }
    match store.replace(alloc, name, old, new) {
        Ok(()) => Ok(()),
        Err(why) => Err(EditFileError::Unwritten(why)),
    }
}

/// The text after an edit.
fn edited(alloc: Global, name: &str, text: &str, edit: Edit<'_>) -> Result<String, TextTrouble>
    ensures made { IfOk result (λ made. EditsTo edit.entry text.now (string_bytes made)) }
    ensures refused { IfErr result (RefusesTo edit.entry text.now) }
{
    let (work, path, value) = parts_of(edit);
    let task = Task {
        work,
        file: name,
        path,
        given: Given {
            source: Source::Word(value),
            is_text: false,
        },
        is_dry: false,
    };
    match Path::parse(alloc, path) {
        Ok(path) => done(alloc, &task, &path, value, text),
        Err(error) => Err(TextTrouble::NoPath(error)),
    }
}

/// The text after a task, with what is given for VALUE.
fn done(
    alloc: Global,
    task: &Task<'_>,
    path: &Path,
    given: &str,
    text: &str,
) -> Result<String, TextTrouble>
    ensures done { IfOk result (λ made. DoesTask path.now task.now given.now text.now (string_bytes made)) }
    ensures refused { IfErr result (RefusesTask path.now task.now given.now text.now) }
{
    let steps = match path.steps_in(alloc, text) {
        Ok(steps) => steps,
        Err(error) => return Err(TextTrouble::Edit(error)),
    };
    let Ok(value) = meant(alloc, task, text, given) else {
        return Err(TextTrouble::Edit(EditError::NoMemory));
    };
    let (steps, value) = (steps.as_slice(), value.as_str());
    let as_given = made(alloc, task, text, steps, value)?;
    Ok(laid(alloc, task, text, steps, value, as_given))
}

/// The path of the edit, if there is memory for it.
fn path_of(alloc: Global, edit: Edit<'_>) -> Option<String>
    ensures { IsPathOf edit.entry result }
{
    let (_, path, _) = parts_of(edit);
    String::from_str(alloc, path).ok()
}

/// What is done, at which path, and with what value, key, path or comment.
fn parts_of<'e>(edit: Edit<'e>) -> (Command<'e>, &'e str, &'e str)
    ensures work { result.0 ≡ work_of edit.entry }
    ensures path { result.1.now ≡ path_of edit.entry }
    ensures given { result.2.now ≡ given_of edit.entry }
{
    match edit {
        Edit::Set(path, value) => (Command::Set, path, value),
        Edit::Insert(path, value) => (Command::Insert, path, value),
        Edit::InsertBefore(path, before, value) => (Command::InsertBefore(before), path, value),
        Edit::Push(path, value) => (Command::Push, path, value),
        Edit::Put(path, value) => (Command::Put, path, value),
        Edit::PutIfAbsent(path, value) => (Command::PutAbsent, path, value),
        Edit::Rename(path, key) => (Command::Rename, path, key),
        Edit::Move(path, to) => (Command::Move, path, to),
        Edit::Copy(path, to) => (Command::Copy, path, to),
        Edit::Remove(path) => (Command::Remove, path, ""),
        Edit::RemoveAlone(path) => (Command::RemoveAlone, path, ""),
        Edit::Comment(path, text) => (Command::Comment, path, text),
        Edit::Sort(path) => (Command::Sort, path, ""),
    }
}
