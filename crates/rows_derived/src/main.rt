//! Answers rows of derived types: stdin has a type and a text in each line, with ␤ for a line feed, and stdout what is
//! written of what was read, or why it was refused.
#![tactic(auto)]

mod answers;
mod hand;
mod own;

use std::io;

fn main(rt: HostRuntime) -> io::Result<()> {
    let alloc = rt.alloc();
    let rows = io::read_to_string(alloc, rt.stdin())?;
    for line in rows.as_str().lines() {
        let Some((name, text)) = line.split_once('|') else {
            continue;
        };
        match answers::answer(alloc, name, text) {
            Ok(words) => println!(rt; "{line} =>{words}")?,
            Err(fault) => println!(rt; "{line} => ERR {fault}")?,
        }
    }
    Ok(())
}
