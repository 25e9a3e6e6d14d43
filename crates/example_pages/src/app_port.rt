//! Prints the port that a settings file names.
#![tactic(auto)]

use anyhow::{Context, Result};
use json5::Value;
use std::fs;

pub fn main(rt: HostRuntime) -> Result<()> {
    let text = fs::read_to_string(&rt, "app.json5").context("app.json5")?;
    let settings: Value = json5::from_str(rt.alloc(), &text)?;
    match settings.get("server").and_then(|server| server.get("port")) {
        Some(port) => println!(rt; "port {}", json5::to_string(rt.alloc(), port)?)?,
        None => println!(rt; "no port")?,
    }
    Ok(())
}
