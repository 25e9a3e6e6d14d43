//! Reads and writes JSON5 (<https://spec.json5.org>), proved.
//!
//! ```text
//! let port: u16 = json5::from_str(alloc, "/* default */ 8080")?;
//! let text = json5::to_string(alloc, &port)?;
//! let tidy = json5::format(alloc, "[1, /* two */ 0x2]")?;
//! ```
//!
//! Read untrusted text on a small stack, or by a schema that is less deep, within a `Limit`:
//!
//! ```text
//! let value: Value = json5::from_str_within(alloc, Limit::new(16).unwrap(), text)?;
//! ```
//!
//! What is read has `Deserialize`, what is written `Serialize`, and the key of a member `DeserializeKey` and `SerializeKey`. A
//! document of unknown shape is read as a `Value`. Each call that may be refused returns an `Error`: a code or a custom
//! message, and usually a position. A call that may take memory gets the allocator.
#![tactic(auto)]

mod laws;
pub mod ser;
pub mod value_ref;
mod value_ref_equal;
mod value_ref_finds;
mod value_ref_pointer;
mod value_ref_walks;
mod value_ref_writes;

pub use json5_de as de;
pub use json5_de::{
    Deserialize, DeserializeKey, Deserializer, EnumAccess, IgnoredAny, MapAccess, SeqAccess,
    Spanned, from_str, from_str_within, read,
};
pub use json5_fields as fields;
pub use json5_fields::{
    Distinct, Field, Given, Holding, NoContent, OneOf, Optional, Required, WithDefault,
    WithDefaultText, one_of_names, read_distinct, read_enum, read_struct, read_struct_only,
    write_struct,
};
pub use json5_format::{format, format_within};
pub use json5_grammar::error_code::ErrorCode;
pub use json5_grammar::position::Position;
pub use json5_io::{from_reader, from_slice, read_text, text_of_bytes, to_vec};
pub use json5_macro::{ToValue, json5};
pub use json5_numbers::{AsF64, DecimalExt};
pub use json5_ser::{
    Serialize, SerializeCollection, SerializeKey, Serializer, to_string, to_string_within,
    to_writer, to_writer_within,
};
pub use json5_styles::{
    Layout, ShownValue, is_json, shown, to_json, to_json_compact, to_json_in, to_json_writer,
    to_json_writer_in, to_string_in, to_vec_in, to_writer_in,
};
pub use json5_tokens::input::{Borrows, Input};
pub use json5_tokens::{InText, char};
pub use json5_types::byte_buf::ByteBuf;
pub use json5_types::cow_str::CowStr;
pub use json5_types::decimal::Decimal;
pub use json5_types::error::{Error, Result};
pub use json5_types::nesting::Limit;
pub use json5_types::value::Value;
pub use json5_types::value_places::member_mut;
pub use json5_types::whole::Whole;
pub use value_ref::ValueRef;
