//! Merges the files that it is given, each into those before it, and prints what comes of it.

use anyhow::{Context, Result};
use json5::Value;
use std::fs;

/// Merges the files.
pub fn run(rt: HostRuntime, files: &[&str]) -> Result<()> {
    let alloc = rt.alloc();
    let mut merged = Value::Null;
    for file in files {
        let text = fs::read_to_string(&rt, *file).context("a file")?;
        merged.merge(json5::from_str(alloc, &text)?)?;
    }
    println!(rt; "{}", json5::to_string(alloc, &merged)?)?;
    Ok(())
}
