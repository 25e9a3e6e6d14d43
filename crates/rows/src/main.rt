//! Answers rows of calls of the library, which are its tests: stdin has the rows, and stdout what each must answer.
#![tactic(auto)]

mod call_results;
mod call_spelling;
mod limits;
mod objects;
mod other_calls;
mod own_enums;
mod own_keys;
mod own_structs;
mod reader_calls;
mod reads;
mod rows;
mod scans;
mod spelling;
mod writer_calls;
mod writers;
mod writes;

use std::io::{self, BufRead, BufReader, BufWriter, Write};

fn main(rt: HostRuntime) -> io::Result<()> {
    let alloc = rt.alloc();
    let mut output = BufWriter::new(alloc, rt.stdout())?;
    for line in BufReader::new(alloc, rt.stdin())?.lines(alloc) {
        let line = line?;
        if rows::is_row(line.as_str()) {
            let answer = rows::answer_of(alloc, line.as_str())?;
            writeln!(output, "{line} => {answer}")?;
        }
    }
    output.flush()
}
