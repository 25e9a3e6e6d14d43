//! Why a text isn't converted.

use cli_files::{Failure, Unwritten};

/// Why a text isn't converted, or its file not written.
#[derive(Drop)]
pub(crate) enum Trouble {
    Failed(Failure),
    /// The text can't be converted: what the report of it prints.
    Refused(String),
    /// The file with this name isn't written.
    Unwritten(String, Unwritten),
    /// The file that would be written is the one that is read.
    SameFile,
}
