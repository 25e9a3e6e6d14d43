//! Lists of names.

ghost use Rattle.std.specs.Prelude.{◌≡◌, ◌++◌, OnOk};
ghost use Rattle.cli_files.specs.NameLists.{names_of};

use cli_files::push_name;
use std::alloc::{AllocError, Global};

/// Appends copies of the names.
pub(crate) fn push_names(
    alloc: Global,
    names: &mut Vec<String>,
    more: &[String],
) -> Result<(), AllocError>
    ensures { OnOk result (names_of names.new.items ≡ names_of names.old.items ++ names_of more.now) }
{
    for name in more {
        push_name(alloc, names, name.as_str())?;
    }
    Ok(())
}
