//! What the program json5_edit does, over readers, writers and files.
//!
//! `get FILE PATH` writes the value that a path leads to, and `has`, `keys`, `length` and `type` what is asked of it. `set`,
//! `insert`, `push`, `put`, `rename`, `move`, `copy`, `remove` and `comment` change the file in place, and so do `apply FILE EDITS` and
//! `merge FILE PATCH`; where it is named `-`, standard input is changed to standard output. With `--dry-run` they only write
//! what would change. A text that is refused is shown on standard error by a report of json5_report, and anything else
//! that is wrong by a line or two. The status is 1 where the path leads nowhere, 3 where the text is no JSON5, and 2 for
//! anything else that is wrong.
//!
//! [`edit_file`] and [`edit_text`] make several of these edits at once, for programs.
#![tactic(auto)]

mod advice;
mod answers;
mod changes;
mod edits;
mod host_program;
mod lines;
mod parts;
mod patches;
mod placed;
mod requests;
mod several_edits;
mod texts;
mod trouble;
mod values;
mod works;

pub use answers::answer;
pub use host_program::{program, words};
pub use requests::{Command, EditRequest, Given, Source, Task, View};
pub use several_edits::{Edit, EditFileError, EditsError, edit_file, edit_text};
pub use trouble::TextTrouble;
