//! The example of docs/REPORTS.md.

use json5_report::Report;
use std::alloc::Global;
use std::collections::BTreeMap;
use std::str;

/// The ports in a file such as `{ web: 80, admin: 8443 }`, or the report of why it is refused.
pub fn read_ports(
    alloc: Global,
    name: &str,
    bytes: &[u8],
) -> json5::Result<Result<BTreeMap<String, u16>, Report>> {
    if let Some(report) = Report::of_bytes(alloc, name, bytes)? {
        return Ok(Err(report));
    }
    let text = str::from_utf8(bytes).unwrap_or("");
    match json5::from_str(alloc, text) {
        Ok(ports) => Ok(Ok(ports)),
        Err(error) => Ok(Err(Report::new(alloc, name, text, &error)?)),
    }
}
