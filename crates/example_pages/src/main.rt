//! Runs the programs and the examples of README.md and of the pages in docs/, a file each.
#![tactic(auto)]

mod app_port;
mod derived;
mod log;
mod pages;
mod ports;
mod server;
mod values;
mod written;

use anyhow::Result;

fn main(rt: HostRuntime) -> Result<()> {
    pages::main(rt)?;
    ports::main(rt)?;
    app_port::main(rt)?;
    derived::main(rt)?;
    Ok(())
}
