//! The version of the programs. CHANGELOG.md begins with it.

/// The version that `json5_tidy --version` and `json5_edit --version` print.
pub const VERSION: &str = "1.0.0";
