//! Reads the settings of a server, and writes them again.
#![tactic(auto)]

use serde::{Deserialize, Serialize};

/// `{ host: 'localhost', port: 8080 }`
#[derive(Drop, Serialize, Deserialize)]
struct Server {
    host: String,
    port: u16,
    label: Option<String>,
}

pub fn main(rt: HostRuntime) -> json5_serde::Result<()> {
    let alloc = rt.alloc();
    let mut server: Server = json5_serde::from_str(alloc, "{host: 'localhost', port: 0x1F90}")?;
    server.port = 8443;
    println!(rt; "{}", json5_serde::to_string(alloc, &server)?)?;
    Ok(())
}
