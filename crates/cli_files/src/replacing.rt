//! Putting a text in the place of that of a file, so that the old text or the new one is there, whole, whatever fails.
//!
//! The file itself gets the new text, so that it keeps its owner, its permissions, its access control list and its
//! extended attributes: no call that std has copies them. Meanwhile a copy with the old text has the file's name.

use crate::leftovers::{FileNames, Texts, is_there, link_aside, new_copy};
use crate::locks::Lock;
use crate::open_files::{holds, is_at, keep_owner, open_file, sync_folder, write_text};
use crate::stops::{Stop, stop_of};
use crate::through::{copy_elsewhere, write_through};
use crate::unwritten::Unwritten;
use std::alloc::Global;
use std::fs::{Metadata, OpenFile};
use std::io::{self, Seek, Write};
use std::os::fd::AsFd;
use std::os::unix::fs::MetadataExt;
use std::rt::Files;

/// How often it is begun anew, after another run or what one left.
const ATTEMPTS: usize = 1000;

/// Writes the text into the file, while a copy of the old one has its name, or is beside it where that can't be. A link's
/// target is written.
///
/// The file is read once more before that: if it doesn't hold the text that was read of it, it stays as it is.
pub(crate) fn replace_file<F: Files>(
    files: &F,
    alloc: Global,
    name: &str,
    before: &str,
    after: &str,
) -> Result<(), Unwritten>
where
    F::File: AsFd + Lock,
{
    let texts = Texts { before, after };
    for _ in 0..ATTEMPTS {
        match attempt(files, alloc, name, texts) {
            Ok(()) => return Ok(()),
            Err(Stop::Failed(Unwritten::Changed)) if holds_now(files, alloc, name, after) => {
                return Ok(());
            }
            Err(Stop::Failed(why)) => return Err(why),
            Err(_) => {}
        }
    }
    Err(Unwritten::Changed)
}

/// Whether the file with this name holds the text by now, as another run wrote it.
fn holds_now<F: Files>(files: &F, alloc: Global, name: &str, text: &str) -> bool {
    match open_file(files, name) {
        Ok(mut file) => matches!(holds(alloc, &mut file, text), Ok(true)),
        Err(_) => false,
    }
}

/// Replaces the text once. What it made is gone again, unless the answer names it.
fn attempt<F: Files>(files: &F, alloc: Global, name: &str, texts: Texts<'_>) -> Result<(), Stop>
where
    F::File: AsFd + Lock,
{
    let names = FileNames::of(files, alloc, name)?;
    let mut file = open_file(files, names.path.as_str())?;
    match new_copy(files, alloc, names.beside.as_str(), texts) {
        Ok(copy) => {
            let mut copy = copy;
            let done = replace_by(files, alloc, &names, &mut file, &mut copy, texts);
            cleared(files, names, &copy, done)
        }
        Err(Stop::Through) => replace_through(files, alloc, names, &mut file, texts),
        Err(stop) => told(names, stop),
    }
}

/// Replaces the text with a copy that is still empty.
fn replace_by<F: Files>(
    files: &F,
    alloc: Global,
    names: &FileNames,
    file: &mut F::File,
    copy: &mut F::File,
    texts: Texts<'_>,
) -> Result<(), Stop>
where
    F::File: AsFd + Lock,
{
    let done = match keep_owner(copy, &file.metadata()?) {
        Ok(()) => by_names(files, alloc, names, file, copy, texts),
        Err(_) => Err(Stop::Through),
    };
    match done {
        Err(Stop::Through) => {
            let places = (names.path.as_str(), names.beside.as_str());
            write_through(files, alloc, places, file, copy, texts)
        }
        done => done,
    }
}

/// Replaces the text with a copy that has the file's owner, by changes of names.
fn by_names<F: Files>(
    files: &F,
    alloc: Global,
    names: &FileNames,
    file: &mut F::File,
    copy: &mut F::File,
    texts: Texts<'_>,
) -> Result<(), Stop>
where
    F::File: Lock,
{
    match link_aside(files, alloc, names, file, texts) {
        Ok(true) => by_copy(files, alloc, names, file, copy, texts),
        Ok(false) => by_new(files, alloc, names, file, copy, texts),
        Err(stop) => Err(stop),
    }
}

/// Replaces the text with the copy in another folder.
fn replace_through<F: Files>(
    files: &F,
    alloc: Global,
    names: FileNames,
    file: &mut F::File,
    texts: Texts<'_>,
) -> Result<(), Stop>
where
    F::File: Lock,
{
    let (mut copy, beside) = copy_elsewhere(files, alloc, file, texts)?;
    let places = (names.path.as_str(), beside.as_str());
    let done = write_through(files, alloc, places, file, &mut copy, texts);
    let FileNames {
        path,
        beside: _,
        aside,
    } = names;
    let names = FileNames {
        path,
        beside,
        aside,
    };
    cleared(files, names, &copy, done)
}

/// Writes the new text into the file, while the copy has its name.
fn by_copy<F: Files>(
    files: &F,
    alloc: Global,
    names: &FileNames,
    file: &mut F::File,
    copy: &mut F::File,
    texts: Texts<'_>,
) -> Result<(), Stop> {
    let known = match swap(files, alloc, names, file, copy, texts.before) {
        Ok(known) => known,
        Err(stop) => return Err(unlinked(files, names, stop)),
    };
    let written = match write_aside(files, names, file, texts.after) {
        Ok(()) => take_back(files, alloc, names, &known, copy, texts.before),
        Err(e) => Err(Stop::from(e)),
    };
    let Err(stop) = written else {
        let _ = sync_folder(files, names.path.as_str());
        return Ok(());
    };
    match restore(files, alloc, names, &known, file, copy, texts.before) {
        Ok(()) => Err(stop),
        Err(_) => Err(Stop::Aside),
    }
}

/// Takes the other name from the file.
fn unlinked<F: Files>(files: &F, names: &FileNames, stop: Stop) -> Stop {
    match files.remove_file(names.aside.as_str()) {
        Ok(()) => stop,
        Err(_) => Stop::Aside,
    }
}

/// Lets a new file take the file's name, with its permissions and with the new text.
fn by_new<F: Files>(
    files: &F,
    alloc: Global,
    names: &FileNames,
    file: &mut F::File,
    new: &mut F::File,
    texts: Texts<'_>,
) -> Result<(), Stop> {
    if new.set_permissions(file.metadata()?.permissions()).is_err() {
        return Err(Stop::Through);
    }
    write_text(new, texts.after)?;
    take_name(files, alloc, names, file, new, texts.before)
}

/// Fills the copy with the old text, and lets it take the file's name. Returns what is known of the file.
fn swap<F: Files>(
    files: &F,
    alloc: Global,
    names: &FileNames,
    file: &mut F::File,
    copy: &mut F::File,
    before: &str,
) -> Result<Metadata, Stop> {
    let known = file.metadata()?;
    if known.nlink() > 2 {
        return Err(Stop::Through);
    }
    if !is_aside(files, &known, names)? {
        return Err(Stop::Failed(Unwritten::Changed));
    }
    write_text(copy, before)?;
    take_name(files, alloc, names, file, copy, before)?;
    Ok(known)
}

/// Lets the new file take the file's name, if each still has its own and the file holds the text.
fn take_name<F: Files>(
    files: &F,
    alloc: Global,
    names: &FileNames,
    file: &mut F::File,
    new: &F::File,
    before: &str,
) -> Result<(), Stop> {
    if !holds(alloc, file, before)?
        || !is_at(files, &file.metadata()?, names.path.as_str())?
        || !is_at(files, &new.metadata()?, names.beside.as_str())?
    {
        return Err(Stop::Failed(Unwritten::Changed));
    }
    match files.rename(names.beside.as_str(), names.path.as_str()) {
        Ok(()) => Ok(()),
        Err(e) => Err(stop_of(e)),
    }
}

/// Writes the new text into the file, once it is on the disk that the copy has its name.
fn write_aside<F: Files>(
    files: &F,
    names: &FileNames,
    file: &mut F::File,
    after: &str,
) -> io::Result<()> {
    sync_folder(files, names.path.as_str())?;
    write_text(file, after)
}

/// Writes the old text into the file again, if it doesn't hold it, and lets it take its name.
fn restore<F: Files>(
    files: &F,
    alloc: Global,
    names: &FileNames,
    known: &Metadata,
    file: &mut F::File,
    copy: &mut F::File,
    before: &str,
) -> Result<(), Stop> {
    if !holds(alloc, file, before)? {
        write_text(file, before)?;
    }
    take_back(files, alloc, names, known, copy, before)
}

/// Lets the file take its name again, if the copy still has it and nobody wrote into the copy.
fn take_back<F: Files>(
    files: &F,
    alloc: Global,
    names: &FileNames,
    known: &Metadata,
    copy: &mut F::File,
    before: &str,
) -> Result<(), Stop> {
    if !holds(alloc, copy, before)?
        || !is_at(files, &copy.metadata()?, names.path.as_str())?
        || !is_aside(files, known, names)?
    {
        return Err(Stop::Failed(Unwritten::Changed));
    }
    files.rename(names.aside.as_str(), names.path.as_str())?;
    Ok(())
}

/// Whether the file has the other name. Where a system doesn't count names, a file may have another number by each.
fn is_aside<F: Files>(files: &F, known: &Metadata, names: &FileNames) -> io::Result<bool> {
    Ok(known.nlink() < 2 || is_at(files, known, names.aside.as_str())?)
}

/// The answer, once the copy is removed, if it has its own name and isn't needed, or couldn't be.
fn cleared<F: Files>(
    files: &F,
    names: FileNames,
    copy: &F::File,
    done: Result<(), Stop>,
) -> Result<(), Stop> {
    if !matches!(done, Err(Stop::Torn)) && is_there(files, copy, names.beside.as_str()) {
        let removed = files.remove_file(names.beside.as_str());
        if done.is_err() && removed.is_err() {
            return Err(Stop::Failed(Unwritten::Remains(names.beside)));
        }
    }
    match done {
        Ok(()) => Ok(()),
        Err(stop) => told(names, stop),
    }
}

/// The stop as it is told, with the name that matters.
fn told(names: FileNames, stop: Stop) -> Result<(), Stop> {
    let why = match stop {
        Stop::Again => return Err(Stop::Again),
        Stop::Taken => Unwritten::Taken(names.beside),
        Stop::TakenAside => Unwritten::Taken(names.aside),
        Stop::Aside => Unwritten::Remains(names.aside),
        Stop::Torn => Unwritten::Torn(names.beside),
        Stop::Through => Unwritten::Changed,
        Stop::Failed(why) => why,
    };
    Err(Stop::Failed(why))
}
