//! The written text of a tree, and the writing of a `Value`.
//!
//! A `Printer` writes the parts of a text. `to_string` and `to_writer` write a `Value` whole. A program that writes only values of
//! any kind can do without json5_ser, which writes values of each type.
#![tactic(auto)]

pub mod brackets;
mod byte_copies;
pub mod escape_free;
pub mod identifiers;
pub mod joined_write;
pub mod lent;
mod line_starts;
pub mod literals;
pub mod printer;
pub mod quoting;
pub mod refusal;
pub mod string_writer;
pub mod value;
mod whole_values;
pub mod write_whole;

pub use printer::Printer;
pub use whole_values::{text_of, to_string, to_writer};
