//! Files that are written whole, or stay as they were.

use cli_files::{Disk, Failure, Lock, Store, Unwritten, read_text};
use std::alloc::Global;
use std::fs::{self, File, OpenFile};
use std::io::{self, ErrorKind, Write};
use std::os::fd::AsFd;
use std::rt::Files;

/// Puts the text in the place of that of a file, or into a new file with this name. What fails leaves what was there.
pub(crate) fn put_whole<F: Files + AllocGlobal + Clone + Drop>(
    files: &F,
    alloc: Global,
    path: &str,
    text: &str,
) -> Result<(), Unwritten>
where
    F::File: AsFd + Lock,
{
    match Disk::open(files, path) {
        Ok(file) => put_over(files, alloc, path, file, text),
        Err(e) if e.kind() == ErrorKind::NotFound => put_new(files, alloc, path, text),
        Err(e) => Err(Unwritten::from(e)),
    }
}

/// Puts the text in the place of that of the file, which was opened to read it.
fn put_over<F: Files + AllocGlobal + Clone + Drop>(
    files: &F,
    alloc: Global,
    path: &str,
    mut file: F::File,
    text: &str,
) -> Result<(), Unwritten>
where
    F::File: AsFd + Lock,
{
    let old = match read_text(alloc, &mut file) {
        Ok(old) => old,
        Err(failure) => return Err(unread(&failure)),
    };
    if old.as_str() == text {
        return Ok(());
    }
    files.replace(alloc, path, old.as_str(), text)
}

/// Why a file whose text can't be read isn't written.
fn unread(failure: &Failure) -> Unwritten {
    match failure {
        Failure::NoMemory => Unwritten::NoMemory,
        _ => Unwritten::from(io::Error::from(ErrorKind::Other)),
    }
}

/// Writes the text into a new file, which takes the name once it is whole.
fn put_new<F: Files>(files: &F, alloc: Global, path: &str, text: &str) -> Result<(), Unwritten> {
    let Ok(beside) = format!(in alloc; "{path}.json5_convert") else {
        return Err(Unwritten::NoMemory);
    };
    let file = match File::create_new(files, beside.as_str()) {
        Ok(file) => file,
        Err(e) if e.kind() == ErrorKind::AlreadyExists => return Err(Unwritten::Taken(beside)),
        Err(e) => return Err(Unwritten::from(e)),
    };
    match write_named(files, file, beside.as_str(), path, text) {
        Ok(()) => Ok(()),
        Err(e) => Err(removed(files, beside, e)),
    }
}

/// Writes the text into the file, and gives it the name in place of the one that it has.
fn write_named<F: Files>(
    files: &F,
    mut file: F::File,
    beside: &str,
    path: &str,
    text: &str,
) -> io::Result<()> {
    file.write_all(text.as_bytes())?;
    file.sync_all()?;
    fs::rename(files, beside, path)
}

/// Removes the new file, which couldn't be written.
fn removed<F: Files>(files: &F, beside: String, e: io::Error) -> Unwritten {
    match fs::remove_file(files, beside.as_str()) {
        Ok(()) => Unwritten::from(e),
        Err(_) => Unwritten::Remains(beside),
    }
}
