//! The examples of README.md and of the pages that are no programs of their own.

use crate::log::Log;
use crate::server::Server;
use crate::values::prepared;
use json5::{Limit, Result, Value};
use std::alloc::Global;

/// Prints what the examples give.
pub fn main(rt: HostRuntime) -> Result<()> {
    let alloc = rt.alloc();
    for text in [
        "{ host: 'localhost' }",
        "{ label: 'home', port: 0x1F90, host: 'a' }",
    ] {
        println!(rt; "{}", server_again(alloc, text)?)?;
    }
    let level: Log = json5::from_str(alloc, "'info'")?;
    println!(rt; "{level:?}")?;
    println!(rt; "{}", shallow(alloc, "[[1], 0x2]")?)?;
    let (json, line) = prepared(alloc, b"{server: {port: 0x1BB}, log: 'info', tags: ['eu']}")?;
    println!(rt; "{json}\n{line}")?;
    if let Err(fault) = prepared(alloc, b"{sever: {}}") {
        println!(rt; "{fault}")?;
    }
    Ok(())
}

/// Reads a server, and writes it again.
fn server_again(alloc: Global, text: &str) -> Result<String> {
    let server: Server = json5::from_str(alloc, text)?;
    let text = json5::to_string(alloc, &server)?;
    Ok(text)
}

/// Formats a text that is nested no deeper than a limit.
fn shallow(alloc: Global, text: &str) -> Result<String> {
    let limit = Limit::new(16).unwrap();
    let value: Value = json5::from_str_within(alloc, limit, text)?;
    let tidy = json5::format_within(alloc, limit, text)?;
    drop(value);
    Ok(tidy)
}
