//! What the program json5_fmt does, over readers, writers and files.
//!
//! Without words it formats standard input to standard output. `check FILE...` reads each file and writes nothing; `print FILE...`
//! writes each file formatted. A refusal is one line on standard error. The status is the greatest that was met: 1 where a text is
//! refused, 2 for anything else.
#![tactic(auto)]

#[cfg(test)]
mod file_tests;
mod files;
mod host_program;
mod lines;
mod program_runs;
mod streams;
#[cfg(test)]
mod tests;
mod work;

pub use files::work_through;
pub use host_program::{program, words};
pub use lines::usage;
pub use program_runs::answer;
pub use streams::{check, run};
pub use work::Work;
