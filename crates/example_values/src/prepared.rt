//! Reads settings over their defaults, changes one value, refuses keys that aren't allowed, and prints the rest as JSON.

use anyhow::{Context, Result, ensure};
use json5::{Value, from_str, to_json};
use std::alloc::Global;
use std::fs;

const DEFAULTS: &str = "{server: {host: 'localhost', port: 80}, tags: []}";

/// The keys that settings may have, by their paths.
const ALLOWED: [&str; 4] = ["server", "server.host", "server.port", "tags"];

/// Prepares the settings in `app.json5`.
pub fn run(rt: HostRuntime) -> Result<()> {
    let alloc = rt.alloc();
    let text = fs::read_to_string(&rt, "app.json5").context("app.json5")?;
    let mut settings: Value = from_str(alloc, DEFAULTS)?;
    settings.merge(from_str(alloc, &text)?)?;
    if let Some(port) = settings.pointer_mut("/server/port") {
        *port = Value::from(8080u16);
    }
    check_keys(alloc, &settings, "")?;
    println!(rt; "{}", to_json(alloc, &settings)?)?;
    Ok(())
}

/// Fails at a key that isn't allowed, and names its path.
fn check_keys(alloc: Global, value: &Value, above: &str) -> Result<()> {
    if let Value::Object(members) = value {
        for (key, value) in members {
            let path = format!(in alloc; "{above}{key}")?;
            ensure!(ALLOWED.contains(&path.as_str()), "unknown key `{path}`");
            check_keys(alloc, value, format!(in alloc; "{path}.")?.as_str())?;
        }
    }
    Ok(())
}
