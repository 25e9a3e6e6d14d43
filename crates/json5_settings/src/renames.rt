//! Members that have an old name.

ghost use Rattle.std.specs.Prelude.{◌≡◌, ◌++◌, IfOk, OnOk};
ghost use Rattle.json5_settings.specs.OldNames.{AreOldNames, TellsName, list_of};

use crate::faults;
use crate::positions::position_of;
use crate::spots::steps_of;
use json5_edit::{Path, find_place};
use json5_types::error::{Error, Result};
use std::alloc::Global;

/// Returns a fault for each old name that leads to a value in a document, where that begins, in the order of the names.
/// They are paths, each before its new one.
///
/// ```text
/// for fault in &old_names(alloc, &text, &[("listen", "port"), ("pool.size", "workers.most")])? {
///     println!(rt; "warning: {}", Report::new(alloc, name, &text, fault)?)?;    // .. listen: `listen` is now `port`
/// }
/// ```
///
/// # Errors
///
/// - `Path` where an old name is no path.
/// - `Text` with the fault of reading where there are names and the text is no document, or with `OutOfMemory`.
pub fn old_names(alloc: Global, text: &str, names: &[(&str, &str)]) -> faults::Result<Vec<Error>>
    ensures { IfOk result (λ told. AreOldNames text.now names.now told.items) }
{
    let mut told = Vec::new(alloc);
    for (old, new) in names {
        let fault = old_name(alloc, text, old, new)?;
        add(&mut told, fault)?;
    }
    Ok(told)
}

/// The fault where the old name leads to, if it leads to a value.
fn old_name(alloc: Global, text: &str, old: &str, new: &str) -> faults::Result<Option<Error>>
    ensures { IfOk result (TellsName text.now old.now) }
{
    let path = Path::parse(alloc, old)?;
    let steps = steps_of(alloc, &path, text)?;
    match find_place(alloc, text, steps.as_slice())? {
        None => Ok(None),
        Some(place) => {
            let position = position_of(text, place.start);
            let message = format_args!("`{old}` is now `{new}`");
            Ok(Some(Error::custom_at(alloc, position, message)?))
        }
    }
}

/// Adds the fault, if there is one.
fn add(told: &mut Vec<Error>, fault: Option<Error>) -> Result<()>
    ensures { OnOk result (told.new.items ≡ told.old.items ++ list_of fault) }
{
    if let Some(fault) = fault {
        told.push(fault)?;
    }
    Ok(())
}
