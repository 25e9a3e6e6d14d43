//! Turns JSON5 on standard input into JSON on standard output.

use json5::{Result, Value, from_str, read_text, to_json};

/// Prints the document as JSON.
pub fn run(rt: HostRuntime) -> Result<()> {
    let alloc = rt.alloc();
    let text = read_text(alloc, &mut rt.stdin())?;
    let value: Value = from_str(alloc, text.as_str())?;
    println!(rt; "{}", to_json(alloc, &value)?)?;
    Ok(())
}
