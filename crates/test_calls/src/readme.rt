//! The program of the README, and the calls that it shows.

use json5::Result;
use std::alloc::Global;
use std::fmt::Write;
use std::test::Fail;

/// What the program prints: the names and the ports of a text, each port as it is written.
fn printed(alloc: Global) -> Result<String> {
    let text = "[['http', 80], ['https', 0x1BB], /* last */]";
    let ports: Vec<(&str, u16)> = json5::from_str(alloc, text)?;
    let mut lines = String::new(alloc);
    for (name, port) in &ports {
        let port = json5::to_string(alloc, port)?;
        writeln!(lines, "{name}: {port}")?;
    }
    Ok(lines)
}

#[test]
fn the_program_reads_and_writes(rt: HostRuntime) -> std::result::Result<(), Fail> {
    assert_eq!(rt; printed(rt.alloc())?.as_str(), "http: 80\nhttps: 443\n");
    Ok(())
}

/// What each call gives, one after another.
fn calls(alloc: Global) -> Result<String> {
    let port: u16 = json5::from_str(alloc, "/* default */ 8080")?;
    let name: &str = json5::from_str(alloc, "'localhost'")?;
    let pairs: Vec<(char, [u8; 2])> = json5::from_str(alloc, "[['a', [1, 2]], /* last */]")?;
    let text = json5::to_string(alloc, &port)?;
    let tidy = json5::format(alloc, " +0x1F90 // in hexadecimal")?;
    Ok(format!(in alloc; "{port} {name} {pairs:?} {text} {tidy}")?)
}

#[test]
fn each_call_reads_or_writes(rt: HostRuntime) -> std::result::Result<(), Fail> {
    assert_eq!(rt;
        calls(rt.alloc())?.as_str(),
        "8080 localhost [('a', [1, 2])] 8080 8080"
    );
    Ok(())
}
