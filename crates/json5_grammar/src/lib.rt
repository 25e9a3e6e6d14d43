//! The grammar of JSON5: its definitions, and their laws.
#![tactic(auto)]

pub mod error_code;
pub mod laws;
pub mod position;
