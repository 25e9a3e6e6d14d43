//! What is shown of a text that is refused.

use crate::formats::Format;
use crate::trouble::Trouble;
use cli_files::{Failure, shown};
use json5_report::Report;
use json5_types::error::{Error, Result};
use std::alloc::Global;

/// The trouble with a text that is refused so. Where there is no memory for its report, only the cause is told.
pub(crate) fn refused(
    alloc: Global,
    source: Format,
    name: &str,
    text: &str,
    error: Error,
) -> Trouble {
    match Failure::at(error) {
        Failure::Text(error) if has_report(source, &error) => {
            match text_shown(alloc, name, text, &error) {
                Ok(shown) => Trouble::Refused(shown),
                Err(_) => Trouble::Failed(Failure::Text(error)),
            }
        }
        failure => Trouble::Failed(failure),
    }
}

/// Whether a report is made. That takes a text for one document of JSON5, and shows a place in it: what JSON or TOML lacks
/// names its path instead.
fn has_report(source: Format, error: &Error) -> bool {
    match source {
        Format::Lines | Format::Toml => false,
        Format::Json | Format::Jsonc | Format::Json5 => {
            error.position().is_some() || error.code().is_some()
        }
    }
}

/// The report of an error of converting this text.
fn text_shown(alloc: Global, name: &str, text: &str, error: &Error) -> Result<String> {
    let name = shown(alloc, name)?;
    let report = Report::new(alloc, name.as_str(), text, error)?;
    Ok(format!(in alloc; "{report}")?)
}
