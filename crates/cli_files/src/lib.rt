//! What the programs share: files that are opened, found and replaced by their names, why work on one ends, and the lines
//! that say so.
#![tactic(auto)]

mod disk;
mod endings;
mod failure;
mod folders;
mod globs;
mod host_words;
mod ignore_rules;
mod ignores;
mod input;
mod leftovers;
mod locks;
mod names;
mod open_files;
mod reason;
mod replacing;
mod reports;
mod shown_names;
mod stops;
mod stores;
mod texts;
mod through;
mod unwritten;
mod version;
mod writing;

pub use disk::Disk;
pub use endings::{ending_of, has_ending, unless_empty};
pub use failure::Failure;
pub use folders::files_of;
pub use globs::matches_glob;
pub use host_words::{given_names, given_words};
pub use ignores::Ignores;
pub use input::{read_text, read_whole};
pub use locks::Lock;
pub use names::push_name;
pub use reason::Reason;
pub use reports::{report, report_unwritten, say, say_of};
pub use shown_names::{shown, write_named};
pub use stores::{Entry, Store};
pub use texts::{answer_with, put_texts};
pub use unwritten::Unwritten;
pub use version::VERSION;
pub use writing::write_texts;
