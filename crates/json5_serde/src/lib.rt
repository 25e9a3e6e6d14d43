//! Any type that `serde` reads or writes, as JSON5.
//!
//! ```text
//! #[derive(Drop, Serialize, Deserialize)]
//! struct Server { host: String, port: u16 }
//!
//! let server: Server = json5_serde::from_str(alloc, "{host: 'localhost', port: 0x1F90}")?;
//! let text = json5_serde::to_string(alloc, &server)?;
//! ```
//!
//! What is read is a document, and what is written reads back, whatever the type does: both are proved. What a value has to
//! do with its text isn't. [`json5`] proves that too, of types that are described by their fields.
#![tactic(auto)]

pub mod array;
mod bytes;
pub mod number;
pub mod text;
pub mod value;
mod values;

pub use bytes::{from_reader, from_slice, from_slice_within};
pub use json5_serde_read::{from_str, from_str_owned, from_str_within, raw_text};
pub use json5_serde_write::{
    raw_number, to_string, to_string_within, to_vec, to_vec_within, to_writer, to_writer_within,
};
pub use json5_types::byte_buf::ByteBuf;
pub use json5_types::decimal::Decimal;
pub use json5_types::error::{Error, Result};
pub use json5_types::nesting::Limit;
pub use json5_types::value::Value;
pub use json5_types::whole::Whole;
pub use values::{from_value, to_value};
