//! An input for each fault of reading a value of any kind while memory is held: within an object and an array.

use crate::inputs::MOST;
use crate::print;
use crate::reads::read;
use json5::{Result, Value};
use std::alloc::Global;
use std::io::{self, Write};

/// What follows `{a:['b',`, in the order of the table of faults.
static ENDS: [&str; 32] = [
    "/x",
    "/*",
    "!",
    "",
    "1 2",
    "1",
    "{1",
    "{'a'",
    "{a b",
    "{a:1 b",
    "nul!",
    "nul",
    "tru!",
    "Inf!",
    "-!",
    "0x!",
    "0x100000000000000000000000000000000",
    "-0x80000000000000000000000000000001",
    "1-2",
    "1e99999",
    "01",
    "'a\n",
    "'a",
    "'\\01",
    "'\\1",
    "'\\xg",
    "'\\ud800x",
    "'\\ud800\\u0041",
    "'\\u00",
    "{\\x",
    "{\\u0021",
    "{a",
];

/// What reading such an input as a value returns.
fn fault(alloc: Global, end: &str) -> Result<String> {
    let mut text = String::from_str(alloc, "{a:['b',")?;
    text.push_str(end)?;
    read::<Value>(alloc, text.as_str())
}

/// 129 brackets, and a value that something follows.
fn print_others<W: Write>(alloc: Global, out: &mut W) -> io::Result<()> {
    print(out, "129 brackets", read::<Value>(alloc, MOST))?;
    print(out, "more", read::<Value>(alloc, "['b'] x"))
}

/// Prints what reading each input returns.
pub(crate) fn print_all<W: Write>(alloc: Global, out: &mut W) -> io::Result<()> {
    print_others(alloc, out)?;
    for end in &ENDS {
        print(out, end, fault(alloc, end))?;
    }
    Ok(())
}
