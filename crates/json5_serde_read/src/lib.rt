//! Any type that has `serde`'s `Deserialize`, read from JSON5. `json5_serde` is the crate to use: it writes such types too.
//!
//! ```text
//! #[derive(Drop, Deserialize)]
//! struct Server { host: String, port: u16 }
//!
//! let server: Server = json5_serde::from_str(alloc, "{host: 'localhost', port: 0x1F90}")?;
//! ```
#![tactic(auto)]

mod asking;
mod fault;
mod floats;
mod format;
mod messages;
mod names;
mod raw;
mod read;
mod reader;
mod texts;

pub use raw::raw_text;
pub use read::{from_str, from_str_owned, from_str_within};
