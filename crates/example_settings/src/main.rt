//! Reads the settings of a web server from the files that it is given, and prints what they say, or a report of why
//! they are refused.
#![tactic(auto)]

mod settings;

use anyhow::Result;
use json5_report::Report;
use settings::Settings;
use std::{env, fs};

fn main(rt: HostRuntime) -> Result<()> {
    let alloc = rt.alloc();
    for path in env::args(&rt)?.skip(1) {
        let text = fs::read_to_string(&rt, &path)?;
        match json5::from_str::<Settings>(alloc, &text) {
            Ok(settings) => {
                let (server, routes) = (&settings.server, settings.routes.len());
                let (host, port, log) = (&server.host, server.port, settings.log);
                println!(rt; "{path}: {host}:{port}, {routes} routes, log {log:?}")?
            }
            Err(error) => println!(rt; "{}", Report::new(alloc, &path, &text, &error)?)?,
        }
    }
    Ok(())
}
