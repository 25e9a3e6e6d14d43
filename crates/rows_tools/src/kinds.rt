//! What is printed of a row: the report of its fault, those of the fields of an object, or that of a file's bytes.

use crate::example::read_ports;
use crate::faults::error_of;
use crate::known::known_shown;
use crate::rows::{count_of, text_of};
use json5_report::Report;
use json5_settings::{fault, faults_of, old_names, warnings};
use json5_types::error::Error;
use json5_types::value::Value;
use std::alloc::{AllocError, Global};
use std::collections::BTreeMap;

const NAME: &str = "a.json5";

type Lists = BTreeMap<String, Vec<u8>>;

/// What is printed of the row, whose text this is.
pub fn shown_of(alloc: Global, row: &Value, text: &str) -> Result<String, Error> {
    if row.get("latin1").is_some() {
        return bytes_shown(alloc, text);
    }
    if row.get("ports").is_some() {
        return ports_shown(alloc, text);
    }
    if row.get("message").is_some() {
        return fault_shown(alloc, row, text);
    }
    if row.get("warnings").is_some() {
        return warnings_shown(alloc, text);
    }
    if let Some(Value::Object(renamed)) = row.get("renamed") {
        return renamed_shown(alloc, renamed, text);
    }
    if row.get("faults").is_some() {
        return faults_shown(alloc, text);
    }
    if row.get("unknown").is_some() {
        return known_shown(alloc, text);
    }
    let Some(error) = error_of(alloc, row, text)? else {
        return Ok(String::from_str(alloc, "it is read")?);
    };
    if row.get("known").is_some() {
        return fields_shown(alloc, row, text, &error);
    }
    report_shown(alloc, row, text, &error)
}

/// The report of the fault, with a word after it if it isn't at the offset or the column that the row names.
fn report_shown(alloc: Global, row: &Value, text: &str, error: &Error) -> Result<String, Error> {
    let width = count_of(row, "width").unwrap_or(100);
    let report = Report::within(alloc, width, NAME, text, error)?;
    if !is_placed(&report, row) {
        return Ok(format!(in alloc; "{report}\nat another place")?);
    }
    if row.get("coloured").is_some() {
        return Ok(format!(in alloc; "{}", report.coloured())?);
    }
    Ok(format!(in alloc; "{report}")?)
}

/// Whether the report has the offset and the column of the row, where that names them.
fn is_placed(report: &Report, row: &Value) -> bool {
    count_of(row, "offset").unwrap_or(report.offset) == report.offset
        && count_of(row, "utf16").unwrap_or(report.utf16_column) == report.utf16_column
}

/// The reports of the object's fields, one after another.
fn fields_shown(alloc: Global, row: &Value, text: &str, error: &Error) -> Result<String, Error> {
    let known = names_in(alloc, row, "known")?;
    let required = names_in(alloc, row, "required")?;
    let mut shown = String::new(alloc);
    for report in &Report::of_fields(alloc, NAME, text, error, &known, &required)? {
        if !shown.is_empty() {
            shown.push('\n')?;
        }
        write!(shown, "{report}")?;
    }
    Ok(shown)
}

/// The names in a list of the row.
fn names_in<'v>(alloc: Global, row: &'v Value, field: &str) -> Result<Vec<&'v str>, AllocError> {
    let mut names = Vec::new(alloc);
    if let Some(Value::Array(items)) = row.get(field) {
        for item in items {
            if let Value::String(name) = item {
                names.push(name.as_str())?;
            }
        }
    }
    Ok(names)
}

/// The report of the bytes that the text's characters are in Latin-1.
fn bytes_shown(alloc: Global, text: &str) -> Result<String, Error> {
    let mut bytes = Vec::new(alloc);
    for c in text.chars() {
        bytes.push(u8::try_from(c as u32).unwrap_or(b'?'))?;
    }
    match Report::of_bytes(alloc, NAME, bytes.as_slice())? {
        Some(report) => Ok(format!(in alloc; "{report}")?),
        None => Ok(String::from_str(alloc, "it is UTF-8")?),
    }
}

/// The report of a check of one's own, at the row's path.
fn fault_shown(alloc: Global, row: &Value, text: &str) -> Result<String, Error> {
    match fault(
        alloc,
        NAME,
        text,
        text_of(row, "path"),
        text_of(row, "message"),
    ) {
        Ok(report) => Ok(format!(in alloc; "{report}")?),
        Err(error) => Ok(format!(in alloc; "{error}")?),
    }
}

/// The reports of what is likely a slip, one after another.
fn warnings_shown(alloc: Global, text: &str) -> Result<String, Error> {
    let found = match warnings(alloc, text) {
        Ok(found) => found,
        Err(error) => return Ok(format!(in alloc; "{error}")?),
    };
    let mut faults = Vec::new(alloc);
    for warning in &found {
        faults.push(warning.fault(alloc, text)?)?;
    }
    each_shown(alloc, text, &faults)
}

/// The reports of the old names that the row renames, one after another.
fn renamed_shown(alloc: Global, renamed: &[(String, Value)], text: &str) -> Result<String, Error> {
    let mut names = Vec::new(alloc);
    for (old, new) in renamed {
        names.push((old.as_str(), new.as_str().unwrap_or("")))?;
    }
    match old_names(alloc, text, &names) {
        Ok(faults) => each_shown(alloc, text, &faults),
        Err(error) => Ok(format!(in alloc; "{error}")?),
    }
}

/// The reports of all faults of reading lists of bytes by their names, one after another.
fn faults_shown(alloc: Global, text: &str) -> Result<String, Error> {
    let faults = faults_of(alloc, text, |text| json5::from_str::<Lists>(alloc, text))?;
    each_shown(alloc, text, &faults)
}

/// The reports of the faults, one after another.
pub(crate) fn each_shown(alloc: Global, text: &str, faults: &[Error]) -> Result<String, Error> {
    let mut shown = String::new(alloc);
    for fault in faults {
        if !shown.is_empty() {
            shown.push('\n')?;
        }
        write!(shown, "{}", Report::new(alloc, NAME, text, fault)?)?;
    }
    Ok(shown)
}

/// What the example says of the text.
fn ports_shown(alloc: Global, text: &str) -> Result<String, Error> {
    match read_ports(alloc, NAME, text.as_bytes())? {
        Ok(ports) => Ok(format!(in alloc; "{} ports", ports.len())?),
        Err(report) => Ok(format!(in alloc; "{report}")?),
    }
}
