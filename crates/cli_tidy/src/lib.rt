//! What the program json5_tidy does, over readers, writers and a disk.
//!
//! Without a work it tidies standard input to standard output. `check FILE...` names each file that isn't tidy, `diff
//! FILE...` writes what would change, `print FILE...` writes each file tidied, and `write FILE...` tidies each in
//! place. A folder stands for the files below it. A text that is refused is shown on standard error by a report of
//! json5_report, and anything else that is wrong by one line. The status is the greatest that was met: 1 where a text is
//! refused or isn't tidy, 2 for anything else.
#![tactic(auto)]

mod answers;
mod blocks;
mod configs;
mod diffs;
mod files;
mod hints;
mod host_program;
mod hunks;
mod indents;
mod names;
mod options;
mod refusals;
mod reports;
mod requests;
mod streams;
mod styles;
mod taking;
mod tidied;
mod told;
mod trouble;
mod work;

pub use answers::answer;
pub use diffs::diff;
pub use files::work_through;
pub use host_program::{program, words};
pub use options::Options;
pub use requests::{FileRequest, TidyRequest};
pub use streams::tidy_stream;
pub use styles::{Chooser, ChosenFinalLineEnd, ChosenLineEnds, ChosenSize, ChosenStyle};
pub use trouble::FileTrouble;
pub use work::FileWork;
