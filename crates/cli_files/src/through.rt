//! Writing a text into a file itself, where its name can't be given to a copy meanwhile: a file with other names, one of
//! another owner, one that is mounted by itself, and one in a folder that can't be written.

use crate::leftovers::{Texts, new_copy};
use crate::locks::Lock;
use crate::open_files::{holds, is_at, sync_folder, write_text};
use crate::reason::Reason;
use crate::stops::Stop;
use crate::unwritten::Unwritten;
use std::alloc::Global;
use std::fs::OpenFile;
use std::os::unix::fs::MetadataExt;
use std::rt::Files;

/// Where the copy is, if it can't be beside the file.
const ELSEWHERE: [&str; 2] = ["/var/tmp", "/tmp"];

/// Writes the text into the file, once the copy of the old one is on the disk.
pub(crate) fn write_through<F: Files>(
    files: &F,
    alloc: Global,
    (path, beside): (&str, &str),
    file: &mut F::File,
    copy: &mut F::File,
    texts: Texts<'_>,
) -> Result<(), Stop> {
    write_text(copy, texts.before)?;
    let _ = sync_folder(files, beside);
    if !holds(alloc, file, texts.before)? || !is_at(files, &file.metadata()?, path)? {
        return Err(Stop::Failed(Unwritten::Changed));
    }
    let Err(e) = write_text(file, texts.after) else {
        return Ok(());
    };
    match write_text(file, texts.before) {
        Ok(()) => Err(Stop::from(e)),
        Err(_) => Err(Stop::Torn),
    }
}

/// Makes an empty file in another folder for the copy, and returns its name too.
pub(crate) fn copy_elsewhere<F: Files>(
    files: &F,
    alloc: Global,
    file: &F::File,
    texts: Texts<'_>,
) -> Result<(F::File, String), Stop>
where
    F::File: Lock,
{
    let known = file.metadata()?;
    for folder in ELSEWHERE {
        let name = format!(in alloc; "{folder}/json5_tidy-{}-{}", known.dev(), known.ino())?;
        match new_copy(files, alloc, name.as_str(), texts) {
            Ok(copy) => return Ok((copy, name)),
            Err(Stop::Again) => return Err(Stop::Again),
            Err(Stop::Taken) => return Err(Stop::Failed(Unwritten::Taken(name))),
            Err(_) => {}
        }
    }
    Err(Stop::Failed(Unwritten::Refused(Reason::NotAllowed)))
}
