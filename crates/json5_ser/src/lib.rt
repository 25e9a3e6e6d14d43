//! Typed writing of JSON5: a whole text by `to_string` or `to_writer`, or value by value with a `Serializer`.
#![tactic(auto)]

mod collection;
mod impls;
mod key;
pub mod laws;
mod ser;
pub mod trees;
mod whole_output;

pub use collection::SerializeCollection;
pub use json5_write::{refusal, write_whole};
pub use key::{MapKey, SerializeKey};
pub use ser::{Serialize, Serializer};
pub use whole_output::{to_string, to_string_within, to_writer, to_writer_within};
