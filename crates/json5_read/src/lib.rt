//! Values of any kind in the input: read, or passed over.
//!
//! Both go over a `Scanner`, with no recursion. Their faults are listed in the comment of `Value`.
#![tactic(auto)]

pub mod brackets;
mod documents;
mod entries;
pub mod faults;
mod growth;
pub mod kinds;
pub mod owned_tokens;
pub mod read;
mod scalars;
pub mod skip;
pub mod steps;
mod unfinished;

pub use documents::{check_document, read_document, read_document_within};
