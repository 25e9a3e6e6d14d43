//! Lists of names.

ghost use Rattle.std.specs.Prelude.{◌≡◌, [], ◌∷◌, ◌++◌, OnOk};
ghost use Rattle.cli_files.specs.NameLists.{names_of};

use std::alloc::{AllocError, Global};

/// Appends a copy of the name.
///
/// ```text
/// push_name(alloc, &mut names, "app.json5")?
/// ```
///
/// # Errors
///
/// Where a request for memory was refused.
pub fn push_name(alloc: Global, names: &mut Vec<String>, name: &str) -> Result<(), AllocError>
    ensures { OnOk result (names_of names.new.items ≡ names_of names.old.items ++ name.now ∷ []) }
{
    names.push(String::from_str(alloc, name)?)?;
    Ok(())
}
