//! The files below a folder.

ghost use Rattle.std.specs.Prelude.{IfOk, OnOk};
ghost use Rattle.cli_files.specs.Folders.{StandsFor};
ghost use Rattle.cli_files.specs.NameLists.{names_of};
ghost use Rattle.cli_files.specs.FolderSteps.{EntersFolder, GathersBelow, OpensFolder, TakesEntry, TakesFile};

use crate::endings::{is_passed_over, is_sought};
use crate::ignores::Ignores;
use crate::names::push_name;
use crate::stores::{Entry, Store};
use std::alloc::{AllocError, Global};

/// The files that the name stands for: those below it if it is a folder, in the order of their names, but for those that are
/// left alone; and else the name itself. What can't be read below a folder is among them, so that reading it says so.
///
/// Below a folder those are looked for that end in `.json5`, or in a point and one of the endings. What is left alone is so by the
/// excluded globs or by ignore files: [`Ignores`].
///
/// ```text
/// files_of(&rt, alloc, &endings, &excluded, "conf")?    // `conf/app.json5` and `conf/dev/app.json5`
/// ```
///
/// # Errors
///
/// Where a request for memory was refused.
pub fn files_of<S: Store>(
    store: &S,
    alloc: Global,
    endings: &[String],
    excluded: &[String],
    name: &str,
) -> Result<Vec<String>, AllocError>
    ensures { IfOk result (λ found. StandsFor (S.known store.now) endings.now excluded.now name.now (names_of found.items)) }
{
    let mut found = Vec::new(alloc);
    if store.is_folder(name) {
        let mut ignores = Ignores::below(store, alloc, excluded, name)?;
        gather_below(store, alloc, endings, name, &mut ignores, &mut found)?;
        return Ok(found);
    }
    push_name(alloc, &mut found, name)?;
    Ok(found)
}

/// Appends the names of the files below a folder.
fn gather_below<S: Store>(
    store: &S,
    alloc: Global,
    endings: &[String],
    folder: &str,
    ignores: &mut Ignores,
    found: &mut Vec<String>,
) -> Result<(), AllocError>
    ensures { OnOk result (GathersBelow (S.known store.now) endings.now folder.now ignores.old ignores.new found.old.items found.new.items) }
{
    let mut left = Vec::new(alloc);
    push_entries(store, alloc, folder, &mut left, found)?;
    for _ in 0..u64::MAX {
        let Some(name) = left.pop() else {
            return Ok(());
        };
        take_entry(
            store,
            alloc,
            endings,
            name.as_str(),
            ignores,
            &mut left,
            found,
        )?;
    }
    Err(AllocError)
}

/// Appends the name to those that were found, if it is one of a file that is looked for; or what is in it to those that
/// are left, if it is one of a folder; unless it is left alone.
fn take_entry<S: Store>(
    store: &S,
    alloc: Global,
    endings: &[String],
    name: &str,
    ignores: &mut Ignores,
    left: &mut Vec<String>,
    found: &mut Vec<String>,
) -> Result<(), AllocError>
    ensures { OnOk result (TakesEntry (S.known store.now) endings.now name.now ignores.old ignores.new left.old.items found.old.items
        left.new.items found.new.items) }
{
    match store.entry(name) {
        Entry::Folder if !is_passed_over(name) => take_folder(
            store, alloc, name, ignores, left, found,
        ),
        Entry::File if is_sought(name, endings) => take_file(alloc, name, ignores, found),
        Entry::Unknown => take_file(alloc, name, ignores, found),
        _ => Ok(()),
    }
}

/// Appends the name of a file to those that were found, unless it is left alone.
fn take_file(
    alloc: Global,
    name: &str,
    ignores: &Ignores,
    found: &mut Vec<String>,
) -> Result<(), AllocError>
    ensures { OnOk result (TakesFile ignores.now name.now found.old.items found.new.items) }
{
    if ignores.leaves(alloc, name, false)? {
        return Ok(());
    }
    push_name(alloc, found, name)
}

/// Appends the names of what is in the folder to those that are left, unless it is left alone.
fn take_folder<S: Store>(
    store: &S,
    alloc: Global,
    name: &str,
    ignores: &mut Ignores,
    left: &mut Vec<String>,
    found: &mut Vec<String>,
) -> Result<(), AllocError>
    ensures { OnOk result (EntersFolder (S.known store.now) name.now ignores.old ignores.new left.old.items found.old.items
        left.new.items found.new.items) }
{
    if ignores.leaves(alloc, name, true)? {
        return Ok(());
    }
    let path = ignores.folder_path(alloc, name)?;
    ignores.enter(store, alloc, path.as_str())?;
    push_entries(store, alloc, name, left, found)
}

/// Appends the names of what is in the folder to those that are left, the last in their order first; or the folder's
/// own name to those that were found, if it can't be read.
fn push_entries<S: Store>(
    store: &S,
    alloc: Global,
    folder: &str,
    left: &mut Vec<String>,
    found: &mut Vec<String>,
) -> Result<(), AllocError>
    ensures { OnOk result (OpensFolder (S.known store.now) folder.now left.old.items found.old.items left.new.items found.new.items) }
{
    let Ok(mut names) = store.entries(alloc, folder) else {
        return push_name(alloc, found, folder);
    };
    names.sort()?;
    names.reverse();
    left.append(&mut names)
}
