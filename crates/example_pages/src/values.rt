//! The README's example of a `Value`.

use json5::{Error, Layout, Result, Value, from_slice, from_str, to_json, to_string_in};
use std::alloc::Global;

/// The keys that settings may have.
const ALLOWED: [&str; 3] = ["server", "tags", "log"];

/// Reads settings over their defaults, changes them, and returns them as JSON and on one line.
pub fn prepared(alloc: Global, bytes: &[u8]) -> Result<(String, String)> {
    let mut settings: Value = from_str(alloc, "{server: {host: 'localhost', port: 80}, tags: []}")?;
    settings.merge(from_slice(alloc, bytes)?)?; // objects are merged, anything else is replaced

    for (key, _) in settings.entries() {
        if !ALLOWED.contains(&key.as_str()) {
            return Err(Error::custom(alloc, format_args!("unknown key `{key}`"))?);
        }
    }

    let port = settings
        .pointer("/server/port")
        .and_then(|port| port.as_u64());
    let secure = String::from_str(alloc, "secure")?;
    settings.insert(secure, Value::from(port == Some(443)))?;
    settings.remove("log");
    if let Some(host) = settings.pointer_mut("/server/host") {
        *host = Value::text(alloc, "shop.example")?;
    }

    let json = to_json(alloc, &settings)?;
    let line = to_string_in(alloc, Layout::compact(), &settings)?;
    Ok((json, line))
}
