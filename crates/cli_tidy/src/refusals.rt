//! What is shown of bytes that are no document.

ghost use Rattle.std.specs.Prelude.{◌≡◌, MatchResult, string_bytes};
ghost use Rattle.std.specs.Str.{IsUtf8};
ghost use Rattle.json5_report.specs.Reports.{IsReportOf, report_text};
ghost use Rattle.json5_types.specs.Errors.{LacksMemory};
ghost use Rattle.cli_files.specs.Inputs.{RefusesInput};
ghost use Rattle.cli_files.specs.ShownNames.{shown_name};
ghost use Rattle.cli_tidy.specs.Refusals.{IsFaultOf, ShowsBytes, ShowsReport};

use crate::trouble::FileTrouble;
use cli_files::{Failure, shown};
use json5_report::Report;
use json5_types::error::{Error, Result};
use std::alloc::Global;

/// The trouble with bytes that are no text.
pub(crate) fn wrong_bytes(alloc: Global, name: &str, bytes: &[u8]) -> FileTrouble
    requires { ¬ (IsUtf8 bytes.now) }
    ensures { IsFaultOf name.now bytes.now result }
{
    match bytes_shown(alloc, name, bytes) {
        Ok(Some(shown)) => FileTrouble::Refused(shown),
        Ok(None) => unreachable!(),
        Err(memory) => FileTrouble::Unreported(Failure::NotUtf8, memory),
    }
}

/// The trouble with a text that is refused so: it is no document, or memory ran out.
pub(crate) fn refused_text(alloc: Global, name: &str, text: &str, error: Error) -> FileTrouble
    requires { RefusesInput error text.now }
    ensures { IsFaultOf name.now text.now result }
{
    match Failure::at(error) {
        Failure::Text(error) => match text_shown(alloc, name, text, &error) {
            Ok(shown) => FileTrouble::Refused(shown),
            Err(memory) => FileTrouble::Unreported(Failure::Text(error), memory),
        },
        _ => FileTrouble::Failed(Failure::NoMemory),
    }
}

/// The report of bytes; there is none of a text.
fn bytes_shown(alloc: Global, name: &str, bytes: &[u8]) -> Result<Option<String>>
    ensures { MatchResult result (ShowsBytes name.now bytes.now) LacksMemory }
{
    let name = shown(alloc, name)?;
    match Report::of_bytes(alloc, name.as_str(), bytes)? {
        Some(report) => {
            let text = printed(alloc, &report)?;
            Ok(Some(text))
        }
        None => Ok(None),
    }
}

/// The report of an error of reading this text.
fn text_shown(alloc: Global, name: &str, text: &str, error: &Error) -> Result<String>
    ensures { MatchResult result (λ shown. ShowsReport (IsReportOf (shown_name name.now) text.now error.now) (string_bytes shown)) LacksMemory }
{
    let name = shown(alloc, name)?;
    let report = Report::new(alloc, name.as_str(), text, error)?;
    printed(alloc, &report)
}

/// What the report prints.
fn printed(alloc: Global, report: &Report) -> Result<String>
    ensures { MatchResult result (λ shown. string_bytes shown ≡ report_text report.now) LacksMemory }
{
    Ok(format!(in alloc; "{report}")?)
}
