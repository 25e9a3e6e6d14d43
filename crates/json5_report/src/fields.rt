//! The faulty fields of one object, told together.

ghost use Rattle.std.specs.Prelude.{All, MatchResult};
ghost use Rattle.json5_types.specs.Errors.{LacksMemory};
ghost use Rattle.json5_report.specs.Reports.{IsReportThere};

use crate::field_messages::field_messages;
use crate::place::position_of;
use crate::report::Report;
use json5_types::Position;
use json5_types::error::{Error, Result};
use std::alloc::Global;

impl Report {
    ghost use Rattle.json5_report.specs.Reports.{AreReportsOf};

    /// Makes the reports of all faulty fields of one object, if the error is that of a field: of each that is unknown,
    /// of each that stands twice, and of each that is required and missing, in this order. The error is placed at the
    /// object's brace, as reading places it. Of any other error it makes the one report.
    ///
    /// ```text
    /// let known = ["host", "port", "tls"];
    /// for report in &Report::of_fields(alloc, "settings.json5", text, &error, &known, &["host"])? {
    ///     println!(rt; "{report}")?;
    /// }
    /// ```
    ///
    /// # Errors
    ///
    /// - `OutOfMemory`, without a position, where a request for memory was refused.
    pub fn of_fields(
        alloc: Global,
        name: &str,
        text: &str,
        error: &Error,
        known: &[&str],
        required: &[&str],
    ) -> Result<Vec<Report>>
        ensures { MatchResult result (λ reports. AreReportsOf name.now text.now error.now reports.items) LacksMemory }
    {
        let messages = field_messages(alloc, text, error, known, required)?;
        let mut reports = reports_at(alloc, name, text, position_of(text, error), messages)?;
        if !reports.is_empty() {
            return Ok(reports);
        }
        let report = Report::new(alloc, name, text, error)?;
        reports.push(report)?;
        Ok(reports)
    }
}

/// The reports of these messages at one position.
fn reports_at(
    alloc: Global,
    name: &str,
    text: &str,
    position: Position,
    messages: Vec<String>,
) -> Result<Vec<Report>>
    ensures { MatchResult result (λ reports. All (IsReportThere name.now text.now position) reports.items) LacksMemory }
{
    let mut reports = Vec::new(alloc);
    for message in messages {
        let error = Error::from_text(message).at(position);
        let report = Report::new(alloc, name, text, &error)?;
        reports.push(report)?;
    }
    Ok(reports)
}
