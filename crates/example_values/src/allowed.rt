//! Says of each file that it is given whether all its keys are allowed, or where the first one is that isn't.

use anyhow::{Result, bail};
use json5::{Value, from_str};
use std::alloc::Global;
use std::fs;

/// The keys that are allowed. An array's first element stands for each.
const SHAPE: &str = "{server: {host: '', port: 0}, routes: [{path: '', methods: []}], log: ''}";

/// Checks the keys of each file.
pub fn run(rt: HostRuntime, files: &[&str]) -> Result<()> {
    let alloc = rt.alloc();
    let shape: Value = from_str(alloc, SHAPE)?;
    for file in files {
        let text = fs::read_to_string(&rt, *file)?;
        let value: Value = from_str(alloc, &text)?;
        match check(alloc, &value, &shape, "") {
            Ok(()) => println!(rt; "{file}: allowed")?,
            Err(fault) => println!(rt; "{file}: {fault}")?,
        }
    }
    Ok(())
}

/// Fails at the first key that the shape doesn't have, and names its path.
#[cycle(check)]
fn check(alloc: Global, value: &Value, shape: &Value, path: &str) -> Result<()> {
    match value {
        Value::Object(members) => check_members(alloc, members, shape, path),
        Value::Array(items) => check_items(alloc, items, shape, path),
        _ => Ok(()),
    }
}

#[cycle(check)]
fn check_members(
    alloc: Global,
    members: &[(String, Value)],
    shape: &Value,
    path: &str,
) -> Result<()> {
    for (key, value) in members {
        let path = format!(in alloc; "{path}.{key}")?;
        match shape.get(key.as_str()) {
            Some(shape) => check(alloc, value, shape, path.as_str())?,
            None => bail!("unknown key `{}`", path.as_str().trim_start_matches('.')),
        }
    }
    Ok(())
}

#[cycle(check)]
fn check_items(alloc: Global, items: &[Value], shape: &Value, path: &str) -> Result<()> {
    let Some(shape) = shape.get(0usize) else {
        return Ok(());
    };
    for (index, item) in items.iter().enumerate() {
        let path = format!(in alloc; "{path}[{index}]")?;
        check(alloc, item, shape, path.as_str())?;
    }
    Ok(())
}
