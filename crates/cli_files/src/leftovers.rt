//! Names that a run needs while it replaces the text of a file: made anew, or put right where one that was killed left them.
//!
//! A run locks the copy that it makes. So one that can be locked and still has its name was left by a run that was killed.

use crate::locks::Lock;
use crate::open_files::{
    create_file, holds, holds_front, is_at, is_of_both, open_file, sync_folder, write_text,
};
use crate::stops::{Stop, has_no_links, stop_of};
use std::alloc::Global;
use std::fs::{self, Metadata, OpenFile};
use std::io::{self, ErrorKind, Read, Seek};
use std::os::unix::fs::MetadataExt;
use std::rt::Files;

/// The name of the file, that of its copy, and the one that the file has while the copy has its name.
#[derive(Drop)]
pub(crate) struct FileNames {
    pub(crate) path: String,
    pub(crate) beside: String,
    pub(crate) aside: String,
}

/// The text that a file holds, and the one that it is to hold.
#[derive(Clone, Copy, Drop)]
pub(crate) struct Texts<'t> {
    pub(crate) before: &'t str,
    pub(crate) after: &'t str,
}

impl FileNames {
    /// Those of a file, of which the links are followed.
    pub(crate) fn of<F: Files>(files: &F, alloc: Global, name: &str) -> Result<FileNames, Stop> {
        let path = files.canonicalize(alloc, name)?.into_string();
        let beside = format!(in alloc; "{}.json5_tidy", path.as_str())?;
        let aside = format!(in alloc; "{}.json5_tidy_aside", path.as_str())?;
        Ok(FileNames {
            path,
            beside,
            aside,
        })
    }
}

/// Makes an empty file with this name, which this run alone has. Where another run has it, it waits.
pub(crate) fn new_copy<F: Files>(
    files: &F,
    alloc: Global,
    name: &str,
    texts: Texts<'_>,
) -> Result<F::File, Stop>
where
    F::File: Lock,
{
    match create_file(files, name) {
        Ok(copy) => kept(files, copy, name),
        Err(e) if e.kind() == ErrorKind::AlreadyExists => {
            Err(stop_at(clear_copy(files, alloc, name, texts), Stop::Taken))
        }
        Err(e) => Err(stop_of(e)),
    }
}

/// The new file, locked, if it has its name then. Where there are no locks it goes without.
fn kept<F: Files>(files: &F, copy: F::File, name: &str) -> Result<F::File, Stop>
where
    F::File: Lock,
{
    let _ = copy.wait();
    if !is_there(files, &copy, name) {
        return Err(Stop::Again);
    }
    Ok(copy)
}

/// Whether the file has the name.
pub(crate) fn is_there<F: Files>(files: &F, file: &F::File, name: &str) -> bool {
    match file.metadata() {
        Ok(known) => matches!(is_at(files, &known, name), Ok(true)),
        Err(_) => false,
    }
}

/// The stop after a look at what another run left: anew, if it is gone, and else this one.
fn stop_at(is_gone: io::Result<bool>, stop: Stop) -> Stop {
    match is_gone {
        Ok(true) => Stop::Again,
        Err(e) if e.kind() == ErrorKind::NotFound => Stop::Again,
        Err(e) if e.kind() == ErrorKind::OutOfMemory => Stop::from(e),
        _ => stop,
    }
}

/// Waits for the run that has the copy, and removes it if that was killed. If it doesn't hold the front of either text it stays: it
/// isn't such a copy, or the file is torn or has changed.
fn clear_copy<F: Files>(files: &F, alloc: Global, name: &str, texts: Texts<'_>) -> io::Result<bool>
where
    F::File: Lock,
{
    if !fs::symlink_metadata(files, name)?.is_file() {
        return Ok(false);
    }
    let mut left = open_file(files, name)?;
    left.wait()?;
    if !is_at(files, &left.metadata()?, name)? {
        return Ok(true);
    }
    if !holds_front(alloc, &mut left, texts.before)?
        && !holds_front(alloc, &mut left, texts.after)?
    {
        return Ok(false);
    }
    files.remove_file(name)?;
    Ok(true)
}

/// Gives the file the other name too. False where a file can't have two.
pub(crate) fn link_aside<F: Files>(
    files: &F,
    alloc: Global,
    names: &FileNames,
    file: &mut F::File,
    texts: Texts<'_>,
) -> Result<bool, Stop>
where
    F::File: Lock,
{
    let known = file.metadata()?;
    if known.nlink() > 1 {
        return Err(clear_link(files, &known, names));
    }
    match files.hard_link(names.path.as_str(), names.aside.as_str()) {
        Ok(()) => Ok(true),
        Err(e) if e.kind() == ErrorKind::AlreadyExists => Err(stop_at(
            put_right(files, alloc, names, file, texts),
            Stop::TakenAside,
        )),
        Err(e) if has_no_links(&e) => Ok(false),
        Err(e) => Err(stop_of(e)),
    }
}

/// Removes the other name of the file, if a run that was killed left it. Else the file has names of its own.
fn clear_link<F: Files>(files: &F, known: &Metadata, names: &FileNames) -> Stop {
    if !matches!(is_at(files, known, names.aside.as_str()), Ok(true)) {
        return Stop::Through;
    }
    match files.remove_file(names.aside.as_str()) {
        Ok(()) => Stop::Again,
        Err(_) => Stop::Aside,
    }
}

/// Where a copy has the file's name, waits for the run that gave it that. If that was killed, the file itself takes its name again,
/// with its text.
fn put_right<F: Files>(
    files: &F,
    alloc: Global,
    names: &FileNames,
    copy: &mut F::File,
    texts: Texts<'_>,
) -> io::Result<bool>
where
    F::File: Lock,
{
    copy.wait()?;
    if !is_at(files, &copy.metadata()?, names.path.as_str())? {
        return Ok(true);
    }
    if !fs::symlink_metadata(files, names.aside.as_str())?.is_file() {
        return Ok(false);
    }
    let mut left = open_file(files, names.aside.as_str())?;
    if !was_left(alloc, copy, &mut left, texts)? {
        return Ok(false);
    }
    write_text(&mut left, texts.before)?;
    files.rename(names.aside.as_str(), names.path.as_str())?;
    let _ = sync_folder(files, names.path.as_str());
    Ok(true)
}

/// Whether such a run left it: it has the owner of the copy, no other name, and parts of the texts.
fn was_left<F: Read + Seek + OpenFile>(
    alloc: Global,
    copy: &mut F,
    left: &mut F,
    texts: Texts<'_>,
) -> io::Result<bool> {
    let (known, owned) = (left.metadata()?, copy.metadata()?);
    if known.nlink() > 1 || known.uid() != owned.uid() || known.gid() != owned.gid() {
        return Ok(false);
    }
    Ok(holds(alloc, copy, texts.before)? && is_of_both(alloc, left, texts.before, texts.after)?)
}
