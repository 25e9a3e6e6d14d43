//! Where files are found, read and replaced by their names.

use crate::disk::Disk;
use crate::failure::Failure;
use crate::input::read_whole;
use crate::locks::Lock;
use crate::replacing::replace_file;
use crate::unwritten::Unwritten;
use std::alloc::{AllocError, Global};
use std::io::ErrorKind;
use std::os::fd::AsFd;
use std::rt::Files;
use std::{fs, io};

/// What has a name.
#[derive(Clone, Copy, Drop)]
pub enum Entry {
    File,
    Folder,
    /// A link, or a device.
    Other,
    /// The system doesn't say what it is.
    Unknown,
}

/// Where files are found, read and replaced by their names. `known` says what is known of what has a name; of the files
/// of the system nothing is known, as no contract speaks of them.
pub trait Store: Disk {
    ghost use Rattle.std.specs.Prelude.{ℕ, List, Option, None, Some, MatchResult};
    ghost use Rattle.std.specs.Result.{result_err};
    ghost use Rattle.cli_files.specs.NameLists.{names_of};
    ghost use Rattle.cli_files.specs.Stores.{Known};

    ghost known: { Self → Known };

    /// Whether the name stands for a folder, or for a link to one.
    fn is_folder(&self, name: &str) -> bool
        ensures { (known self.now).is_folder name.now result };

    /// What has this name. A link isn't followed.
    fn entry(&self, name: &str) -> Entry
        ensures { (known self.now).has_entry name.now result };

    /// The names of what is in a folder, each with the folder's in front, in any order. In one that isn't UTF-8 U+FFFD stands for
    /// what isn't, so that opening it says so.
    ///
    /// # Errors
    ///
    /// That of the system.
    fn entries(&self, alloc: Global, folder: &str) -> io::Result<Vec<String>>
        ensures { MatchResult result (λ all. (known self.now).lists folder.now (Some (names_of all.items))) (λ _. (known self.now).lists folder.now None) };

    /// The path of a folder from the root on, without links.
    ///
    /// # Errors
    ///
    /// That of the system.
    fn real_path(&self, alloc: Global, folder: &str) -> io::Result<String>;

    /// Puts a text in the place of that of a file, if the file still holds the text that was read of it. At Ok the file
    /// holds the new text.
    ///
    /// # Errors
    ///
    /// Why it wasn't replaced: then the file holds what it held before, or at `Torn` another one does.
    fn replace(&self, alloc: Global, name: &str, before: &str, after: &str) -> Result<(), Unwritten>
        ensures { (known self.now).replaces name.now before.now after.now (result_err result) };

    // What opening a file gives is known here too.
    ghost knows_opening: { (s : Self) (name : List ℕ) (o : Option (Option (List ℕ))) → Self.opens s name o → (known s).opens name o };
}

/// The files of the system.
impl<F: Files + AllocGlobal + Clone + Drop> Store for F
where
    F::File: AsFd + Lock,
{
    ghost use Rattle.cli_files.specs.Stores.{nothing_known};

    ghost known = { λ _. nothing_known };

    ghost knows_opening = { λ _ _ _ _. tt };

    fn is_folder(&self, name: &str) -> bool {
        match fs::metadata(self, name) {
            Ok(metadata) => metadata.is_dir(),
            Err(_) => false,
        }
    }

    fn entry(&self, name: &str) -> Entry {
        match fs::symlink_metadata(self, name) {
            Ok(metadata) if metadata.is_dir() => Entry::Folder,
            Ok(metadata) if metadata.is_file() => Entry::File,
            Ok(_) => Entry::Other,
            Err(_) => Entry::Unknown,
        }
    }

    fn entries(&self, alloc: Global, folder: &str) -> io::Result<Vec<String>> {
        entries_of(self, alloc, folder)
    }

    fn real_path(&self, alloc: Global, folder: &str) -> io::Result<String> {
        Ok(self.canonicalize(alloc, folder)?.into_string())
    }

    fn replace(
        &self,
        alloc: Global,
        name: &str,
        before: &str,
        after: &str,
    ) -> Result<(), Unwritten> {
        replace_file(self, alloc, name, before, after)
    }
}

/// The names of what is in a folder of the system, each with the folder's in front.
fn entries_of<F: Files>(files: &F, alloc: Global, folder: &str) -> io::Result<Vec<String>> {
    let mut path = String::from_str(alloc, folder)?;
    if !folder.ends_with('/') {
        path.push('/')?;
    }
    let mut dir = files.open_dir(path.as_str())?;
    let bytes = match read_whole(alloc, &mut dir) {
        Ok(bytes) => bytes,
        Err(Failure::NoMemory) => return Err(io::Error::from(AllocError)),
        Err(_) => return Err(io::Error::from(ErrorKind::Other)),
    };
    let text = String::from_utf8_lossy(alloc, bytes.as_slice())?;
    let mut names = Vec::new(alloc);
    for name in text.as_str().split('\0') {
        if !matches!(name, "" | "." | "..") {
            names.push(format!(in alloc; "{}{name}", path.as_str())?)?;
        }
    }
    Ok(names)
}
