//! Any type that has `serde`'s `Serialize`, written as JSON5. `json5_serde` is the crate to use: it reads such types too.
//!
//! ```text
//! #[derive(Drop, Serialize)]
//! struct Server { host: String, port: u16 }
//!
//! let text = json5_serde::to_string(alloc, &server)?;
//! ```
#![tactic(auto)]

mod fault;
mod pen;
mod raw;
mod scalar;
mod serializer;
mod write;
mod writer;

pub use raw::raw_number;
pub use write::{to_string, to_string_within, to_vec, to_vec_within, to_writer, to_writer_within};
