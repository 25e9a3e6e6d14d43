//! What the program json5_convert does, over readers, writers and the system's files.
//!
//! Without a file it converts standard input to standard output, else each file to standard output or, by `--out`, to a
//! file in that folder. What is wrong is one line on standard error, or the report of a text that is refused. The status
//! is the greatest that was met: 1 where a text is refused, 2 for anything else.
#![tactic(auto)]

mod answers;
mod converted;
mod formats;
mod options;
mod refusals;
mod reports;
mod sorted_keys;
mod trouble;
mod whole_files;
mod words;

pub use answers::{answer, program};
pub use converted::{Converted, convert};
pub use formats::{Format, Layout};
pub use options::Options;
