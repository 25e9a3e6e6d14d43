//! Makes calls of the library, and prints a line for each: its name and what it returns.
//!
//! Standard input may have a number: so many requests for memory are made first. So a tool that refuses one request of a program
//! refuses each request of the calls in turn, from one build (`tools/refuse_each_allocation`).
#![tactic(auto)]

mod calls;
mod faulty_inputs;
mod inputs;
mod own_types;
mod reads;
mod sample;
mod values;

use json5::Result;
use std::alloc::Global;
use std::io::{self, Read, Write};

/// Prints what a call returns, on one line, after its name. It takes no memory.
pub(crate) fn print<W: Write>(out: &mut W, name: &str, answer: Result<String>) -> io::Result<()> {
    match answer {
        Ok(text) => writeln!(out, "{name:?}: {text:?}"),
        Err(e) => writeln!(out, "{name:?}: {e}"),
    }
}

/// The number that the input begins with; 0 if there is none, or it is longer than a few digits.
fn first_number<R: Read>(input: &mut R) -> io::Result<u32> {
    let mut buffer = [0u8; 8];
    let count = input.read(&mut buffer)?;
    let line = buffer.get(..count).unwrap_or_default();
    match str::from_utf8(line) {
        Ok(text) => Ok(text.trim().parse().unwrap_or(0)),
        Err(_) => Ok(0),
    }
}

/// Makes so many requests for memory, and gives each back.
fn spend(alloc: Global, count: u32) {
    for _ in 0..count {
        let mut one: Vec<u8> = Vec::new(alloc);
        let _ = one.push(0);
    }
}

fn main(rt: HostRuntime) -> io::Result<()> {
    let (alloc, mut out) = (rt.alloc(), rt.stdout());
    spend(alloc, first_number(&mut rt.stdin())?);
    calls::print_all(alloc, &mut out)?;
    reads::print_all(alloc, &mut out)?;
    own_types::print_all(alloc, &mut out)?;
    faulty_inputs::print_all(alloc, &mut out)?;
    values::print_all(alloc, &mut out)
}
