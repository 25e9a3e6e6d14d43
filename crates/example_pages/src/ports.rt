//! Reads ports by their names, and prints each as it is written.
#![tactic(auto)]

pub fn main(rt: HostRuntime) -> json5::Result<()> {
    let alloc = rt.alloc();
    let text = "[['http', 80], ['https', 0x1BB], /* last */]";
    let ports: Vec<(&str, u16)> = json5::from_str(alloc, text)?;
    for (name, port) in &ports {
        println!(rt; "{name}: {}", json5::to_string(alloc, port)?)?;
    }
    Ok(())
}
