//! Answers rows of the calls that work with values and numbers, that write in a layout, and that read structs and
//! lists: stdin has the rows, and stdout what each must answer.
#![tactic(auto)]

mod answers;
mod bytes;
mod changes;
mod distinct;
mod else_types;
mod fields;
mod finds;
mod kinds;
mod literals;
mod makes;
mod numbers;
mod places;
mod readers;
mod reading;
mod refs;
mod rows;
mod short;
mod texts;
mod types;
mod values;
mod writing;

use std::io::{self, BufRead, BufReader, BufWriter, Write};

fn main(rt: HostRuntime) -> io::Result<()> {
    let alloc = rt.alloc();
    let mut output = BufWriter::new(alloc, rt.stdout())?;
    for line in BufReader::new(alloc, rt.stdin())?.lines(alloc) {
        let line = line?;
        if rows::is_row(line.as_str()) {
            let answered = rows::answered(alloc, line.as_str())?;
            writeln!(output, "{answered}")?;
        }
    }
    output.flush()
}
