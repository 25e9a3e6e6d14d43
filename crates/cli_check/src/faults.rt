//! Showing what is wrong with a document.

use crate::lines::title;
use crate::options::Options;
use crate::places::{Sought, Spot, find_all};
use crate::trouble::Unshown;
use crate::verdict::Source;
use cli_files::{put_texts, shown};
use json5_report::Report;
use json5_schema::{Fault, MAX_FAULTS, Part, Schema};
use json5_styles::to_json_string;
use json5_types::Position;
use json5_types::error::{Error, Result as Made};
use json5_types::value::Value;
use std::alloc::Global;
use std::fmt;
use std::io::Write;

/// Shows why bytes are no text.
pub(crate) fn show_bytes<W: Write>(
    alloc: Global,
    options: &Options,
    name: &str,
    bytes: &[u8],
    w: &mut W,
) -> Result<(), Unshown> {
    let name = shown_name(alloc, name)?;
    match Report::of_bytes(alloc, name.as_str(), bytes)? {
        Some(report) => put(alloc, options, &report, None, w),
        None => Ok(()),
    }
}

/// Shows why a text is no document.
pub(crate) fn show_refusal<W: Write>(
    alloc: Global,
    options: &Options,
    source: Source<'_>,
    error: &Error,
    w: &mut W,
) -> Result<(), Unshown> {
    let name = shown_name(alloc, source.name)?;
    let report = Report::new(alloc, name.as_str(), source.text, error)?;
    put(alloc, options, &report, None, w)
}

/// Shows why the value of a document doesn't conform to the schema.
pub(crate) fn show_faults<W: Write>(
    alloc: Global,
    options: &Options,
    schema: &Schema,
    source: Source<'_>,
    value: &Value,
    w: &mut W,
) -> Result<(), Unshown> {
    if options.is_quiet {
        return Ok(());
    }
    let faults = schema.faults(alloc, value)?;
    let places = places_of(alloc, source.text, faults.as_slice())?;
    for (fault, place) in faults.iter().zip(places.iter()) {
        show_fault(alloc, options, source, fault, place.spot, w)?;
    }
    if faults.len() == MAX_FAULTS && !options.is_json {
        put_texts(w, &["there may be more faults, which aren't shown\n"])?;
    }
    Ok(())
}

/// Where the faults of a text stand.
fn places_of(alloc: Global, text: &str, faults: &[Fault]) -> Made<Vec<Sought>> {
    let mut places = Vec::new(alloc);
    for fault in faults {
        places.push(Sought::new(alloc, fault.place.pointer(alloc)?.as_str())?)?;
    }
    find_all(alloc, text, places.as_mut_slice())?;
    Ok(places)
}

/// Shows a fault of a document, which stands there.
fn show_fault<W: Write>(
    alloc: Global,
    options: &Options,
    source: Source<'_>,
    fault: &Fault,
    spot: Spot,
    w: &mut W,
) -> Result<(), Unshown> {
    let place = &fault.place;
    let offset = match place.part {
        Part::Key => spot.key,
        Part::Value => spot.value,
    };
    let message = format!(in alloc; "{fault}")?;
    let report = report_at(alloc, source, offset, message.as_str())?;
    put(alloc, options, &report, Some(place.rule.as_str()), w)
}

/// The report that says this of the place in a text that so many bytes come before.
pub(crate) fn report_at<D: fmt::Display + Drop>(
    alloc: Global,
    source: Source<'_>,
    offset: usize,
    message: D,
) -> Made<Report> {
    let position = Position::after(source.text.get(..offset).unwrap_or(""));
    let name = shown_name(alloc, source.name)?;
    let error = Error::custom_at(alloc, position, message)?;
    Report::new(alloc, name.as_str(), source.text, &error)
}

/// The name as reports show it.
fn shown_name(alloc: Global, name: &str) -> Made<String> {
    Ok(shown(alloc, title(name))?)
}

/// Writes a report, with the rule of the schema that is broken.
fn put<W: Write>(
    alloc: Global,
    options: &Options,
    report: &Report,
    rule: Option<&str>,
    w: &mut W,
) -> Result<(), Unshown> {
    if options.is_quiet {
        return Ok(());
    }
    if options.is_json {
        return put_json(alloc, report, rule, w);
    }
    let report = format!(in alloc; "{report}")?;
    match rule {
        Some(rule) => put_texts(w, &[report.as_str(), "\n  = rule ", rule, "\n"])?,
        None => put_texts(w, &[report.as_str(), "\n"])?,
    }
    Ok(())
}

/// Writes a report as a line of JSON.
fn put_json<W: Write>(
    alloc: Global,
    report: &Report,
    rule: Option<&str>,
    w: &mut W,
) -> Result<(), Unshown> {
    let (line, column) = (
        report.position.line as u128 + 1,
        report.position.column as u128 + 1,
    );
    let file = to_json_string(alloc, report.name.as_str())?;
    let path = to_json_string(alloc, report.path.as_str())?;
    let rule = match rule {
        Some(rule) => to_json_string(alloc, rule)?,
        None => String::from_str(alloc, "null")?,
    };
    let message = to_json_string(alloc, report.message.as_str())?;
    let line = format!(in alloc;
        "{{\"file\":{file},\"line\":{line},\"column\":{column},\"path\":{path},\"rule\":{rule},\"message\":{message}}}\n"
    )?;
    put_texts(w, &[line.as_str()])?;
    Ok(())
}
