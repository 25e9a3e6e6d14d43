//! Open files: what they hold, whether they still have their names, and new texts in them.

use std::alloc::Global;
use std::fs::{self, Metadata, OpenFile, OpenOptions};
use std::io::{self, ErrorKind, Read, Seek, Write};
use std::os::fd::AsFd;
use std::os::unix::fs::{MetadataExt, OpenOptionsExt, fchown};
use std::path::Path;
use std::rt::Files;

/// How many bytes of a file are compared at once.
const PIECE: usize = 64 * 1024;

/// Opens the file, if it is one that may be written.
pub(crate) fn open_file<F: Files>(files: &F, path: &str) -> io::Result<F::File> {
    let file = OpenOptions::new().read(true).write(true).open(files, path)?;
    if !file.metadata()?.is_file() {
        return Err(io::Error::from(ErrorKind::InvalidInput));
    }
    Ok(file)
}

/// Makes a new file that only its owner may open.
pub(crate) fn create_file<F: Files>(files: &F, path: &str) -> io::Result<F::File> {
    OpenOptions::new()
        .read(true)
        .write(true)
        .create_new(true)
        .mode(0o600)
        .open(files, path)
}

/// Gives the open file the owner and the group of the old one, if it has others. By its name it might be another file.
pub(crate) fn keep_owner<F: OpenFile + AsFd>(new: &F, old: &Metadata) -> io::Result<()> {
    let made = new.metadata()?;
    if made.uid() == old.uid() && made.gid() == old.gid() {
        return Ok(());
    }
    fchown(new.as_fd(), Some(old.uid()), Some(old.gid()))
}

/// Makes the text what the file holds, and waits until it is on the disk.
pub(crate) fn write_text<F: Write + Seek + OpenFile>(file: &mut F, text: &str) -> io::Result<()> {
    file.rewind()?;
    file.write_all(text.as_bytes())?;
    file.set_len(text.len() as u64)?;
    file.sync_all()
}

/// Whether the file holds this text.
pub(crate) fn holds<F: Read + Seek>(alloc: Global, file: &mut F, text: &str) -> io::Result<bool> {
    Ok(rest_of(alloc, file, text)? == Some(0))
}

/// Whether the text begins with what the file holds.
pub(crate) fn holds_front<F: Read + Seek>(
    alloc: Global,
    file: &mut F,
    text: &str,
) -> io::Result<bool> {
    Ok(rest_of(alloc, file, text)?.is_some())
}

/// How much of the text follows what the file holds, of which a piece is read at a time; None if it begins otherwise.
fn rest_of<F: Read + Seek>(alloc: Global, file: &mut F, text: &str) -> io::Result<Option<usize>> {
    let mut piece = vec![in alloc; 0; PIECE]?;
    let mut rest = text.as_bytes();
    file.rewind()?;
    for _ in 0..u64::MAX {
        let count = file.read(piece.as_mut_slice())?;
        if count == 0 {
            break;
        }
        let Some(after) = rest.strip_prefix(&piece[..count]) else {
            return Ok(None);
        };
        rest = after;
    }
    Ok(Some(rest.len()))
}

/// Whether each byte that the file holds is in its place in one of the texts, as where writing one over the other was cut off.
pub(crate) fn is_of_both<F: Read + Seek>(
    alloc: Global,
    file: &mut F,
    text: &str,
    other: &str,
) -> io::Result<bool> {
    let mut piece = vec![in alloc; 0; PIECE]?;
    let mut at = 0usize;
    file.rewind()?;
    for _ in 0..u64::MAX {
        let count = file.read(piece.as_mut_slice())?;
        if count == 0 {
            return Ok(true);
        }
        for byte in &piece[..count] {
            if text.as_bytes().get(at) != Some(byte) && other.as_bytes().get(at) != Some(byte) {
                return Ok(false);
            }
            at = at.saturating_add(1);
        }
    }
    Ok(false)
}

/// Whether the file with this name is the one of which this is known.
pub(crate) fn is_at<F: Files>(files: &F, known: &Metadata, path: &str) -> io::Result<bool> {
    let named = fs::symlink_metadata(files, path)?;
    Ok(named.dev() == known.dev() && named.ino() == known.ino())
}

/// Waits until the names in the file's folder are on the disk.
pub(crate) fn sync_folder<F: Files>(files: &F, path: &str) -> io::Result<()> {
    match Path::new(path).parent() {
        Some(folder) => fs::open(files, folder)?.sync_all(),
        None => Ok(()),
    }
}
