//! The settings of a value, each with its path.

ghost use Rattle.std.specs.Prelude.{◌≡◌, IfOk, string_bytes};
ghost use Rattle.json5_settings.specs.Schemas.{member_path};

use json5_edit::{EditError, Result};
use json5_types::value::Value;
use std::alloc::{AllocError, Global};

/// A member, of the value or of one in it.
#[derive(Drop)]
pub(crate) struct Setting<'v> {
    pub(crate) path: String,
    pub(crate) value: &'v Value,
}

/// Refuses a path that leads to no setting.
pub(crate) fn check_paths(alloc: Global, value: &Value, comments: &[(&str, &str)]) -> Result<()> {
    let settings = settings_of(alloc, value)?;
    for (path, _) in comments {
        if !is_listed(&settings, path) {
            return Err(EditError::Nowhere);
        }
    }
    Ok(())
}

/// Whether a setting has this path.
fn is_listed(settings: &[Setting<'_>], path: &str) -> bool {
    for setting in settings {
        if setting.path.as_str() == path {
            return true;
        }
    }
    false
}

/// The settings in their order, each before those inside it. Those of an array are its first element's.
pub(crate) fn settings_of(alloc: Global, value: &Value) -> Result<Vec<Setting<'_>>, AllocError> {
    let mut settings = Vec::new(alloc);
    add_settings(alloc, &mut settings, "", value)?;
    Ok(settings)
}

#[cycle(listed)]
fn add_settings<'v>(
    alloc: Global,
    settings: &mut Vec<Setting<'v>>,
    at: &str,
    value: &'v Value,
) -> Result<(), AllocError> {
    match value {
        Value::Array(items) => {
            let Some((first, _)) = items.split_first() else {
                return Ok(());
            };
            let path = format!(in alloc; "{at}[0]")?;
            add_settings(alloc, settings, path.as_str(), first)
        }
        Value::Object(fields) => add_members(alloc, settings, at, fields),
        _ => Ok(()),
    }
}

#[cycle(listed)]
fn add_members<'v>(
    alloc: Global,
    settings: &mut Vec<Setting<'v>>,
    at: &str,
    fields: &'v [(String, Value)],
) -> Result<(), AllocError> {
    for (key, value) in fields {
        let path = path_to(alloc, at, key.as_str())?;
        let inner = String::from_str(alloc, path.as_str())?;
        settings.push(Setting { path, value })?;
        add_settings(alloc, settings, inner.as_str(), value)?;
    }
    Ok(())
}

/// The path of the member with this key.
pub(crate) fn path_to(alloc: Global, at: &str, key: &str) -> Result<String, AllocError>
    ensures { IfOk result (λ path. string_bytes path ≡ member_path at.now key.now) }
{
    if at.is_empty() {
        return String::from_str(alloc, key);
    }
    format!(in alloc; "{at}.{key}")
}
