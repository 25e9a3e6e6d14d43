//! What the program json5_check does, over readers, writers and a store.
//!
//! Each file that is named, or is below a folder that is, is held against a JSON Schema: the one that `--schema` names, or the one that
//! the file's own key `$schema` does. What is wrong with a document is written to standard output, by a report for each fault, or as a line of JSON;
//! what kept one from being checked is one line on standard error. The status is the greatest that was met: 1 where a document doesn't
//! conform or is no JSON5, 2 for anything else.
#![tactic(auto)]

mod answers;
mod checks;
mod choosing;
mod drafts;
mod faults;
mod files;
mod host_program;
mod kinds;
mod lines;
mod names;
mod naming;
mod options;
mod places;
mod schemas;
mod settings;
mod trouble;
mod verdict;

pub use answers::answer;
pub use drafts::Draft;
pub use host_program::{program, words};
pub use options::{Asked, Options};
