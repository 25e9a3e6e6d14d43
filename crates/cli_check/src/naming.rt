//! The file that a document's name for its schema stands for.

ghost use Rattle.std.specs.Bool.{Decides};
ghost use Rattle.std.specs.List.{Any};
ghost use Rattle.std.specs.Prelude.{◌≡◌, ◌≢◌, ◌∷◌, ◌++◌, IfOk, List, MatchOption, ℕ, string_bytes};
ghost use Rattle.cli_check.specs.Naming.{HasNoSlash, IsAbsolute, IsBeside, IsFolderOf, LeadsTo, MapsTo, equals, slash};

use std::alloc::{AllocError, Global};

/// The file that this name of a schema stands for in the document with this name: what a map says, or else the file that is called so
/// from the document's folder on. None if it is a URL that no map has.
pub(crate) fn schema_file(
    alloc: Global,
    maps: &[String],
    name: &str,
    schema: &str,
) -> Result<Option<String>, AllocError>
    ensures { IfOk result (LeadsTo maps.now name.now schema.now) }
{
    if let Some(file) = mapped(maps, schema) {
        return Ok(Some(copied(alloc, file)?));
    }
    if schema.contains("://") {
        return Ok(None);
    }
    Ok(Some(beside(alloc, name, schema)?))
}

/// The file that the first map of this name has.
fn mapped<'m>(maps: &'m [String], schema: &str) -> Option<&'m str>
    ensures { MatchOption result ((file : List ℕ) → ¬ (Any (MapsTo schema.now file) maps.now))
        (λ file. Any (MapsTo schema.now file.now) maps.now) }
{
    for map in maps {
        if let Some(file) = file_in(map.as_str(), schema) {
            return Some(file);
        }
    }
    None
}

/// The file in `NAME=FILE`, if that is the name.
fn file_in<'m>(map: &'m str, schema: &str) -> Option<&'m str>
    ensures { MatchOption result ((file : List ℕ) → map.now ≢ schema.now ++ equals ∷ file)
        (λ file. map.now ≡ schema.now ++ equals ∷ file.now) }
{
    match map.strip_prefix(schema) {
        Some(rest) => rest.strip_prefix('='),
        None => None,
    }
}

/// The file that is called so from the folder of the document on.
fn beside(alloc: Global, name: &str, path: &str) -> Result<String, AllocError>
    ensures { IfOk result (λ file. IsBeside name.now path.now (string_bytes file)) }
{
    if is_absolute(path) {
        return copied(alloc, path);
    }
    match folder_of(name) {
        Some(folder) => joined(alloc, folder, path),
        None => copied(alloc, path),
    }
}

fn copied(alloc: Global, text: &str) -> Result<String, AllocError>
    ensures { IfOk result (λ copy. string_bytes copy ≡ text.now) }
{
    let copy = String::from_str(alloc, text)?;
    Ok(copy)
}

/// What stands before the last slash of the name.
fn folder_of(name: &str) -> Option<&str>
    ensures { MatchOption result (HasNoSlash name.now) (λ folder. IsFolderOf name.now folder.now) }
{
    match name.rsplit_once('/') {
        Some((folder, _)) => Some(folder),
        None => None,
    }
}

/// Whether the path begins at the root.
fn is_absolute(path: &str) -> bool
    ensures { Decides result (IsAbsolute path.now) }
{
    match path.as_bytes().split_first() {
        Some((first, _)) => *first == b'/',
        None => false,
    }
}

/// The path in the folder.
fn joined(alloc: Global, folder: &str, path: &str) -> Result<String, AllocError>
    ensures { IfOk result (λ file. string_bytes file ≡ folder.now ++ slash ∷ path.now) }
{
    let mut file = String::from_str(alloc, folder)?;
    file.push_str("/")?;
    file.push_str(path)?;
    Ok(file)
}
