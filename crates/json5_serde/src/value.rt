//! Fields of json5's own types: `#[serde(with = "json5_serde::value")]`.
//!
//! ```text
//! #[derive(Drop, Serialize, Deserialize)]
//! struct Order {
//!     #[serde(with = "json5_serde::value")]
//!     price: Decimal,
//!     #[serde(with = "json5_serde::value")]
//!     extra: Value,
//! }
//! ```
//!
//! They are read to the last digit, and written so. Only the format of this crate reads and writes them.

use json5_serde_read::raw_text;
use json5_serde_write::raw_number;
use json5_types::byte_buf::ByteBuf;
use json5_types::decimal::Decimal;
use json5_types::error::Result as Json5Result;
use json5_types::value::Value;
use json5_types::whole::Whole;
use serde::{Deserializer, Format, Serializer};
use std::alloc::Global;

/// A type that is read from the text of a value.
pub trait Own: Sized + Drop {
    /// Reads it from the text of a value.
    ///
    /// # Errors
    ///
    /// As `json5::from_str`.
    fn read(alloc: Global, text: &str) -> Json5Result<Self>;

    /// Sends it.
    ///
    /// # Errors
    ///
    /// As the serializer's.
    fn send<S: Serializer>(&self, out: &mut S) -> Result<(), S::Error>;
}

impl Own for Value {
    fn read(alloc: Global, text: &str) -> Json5Result<Value> {
        json5_de::from_str(alloc, text)
    }

    fn send<S: Serializer>(&self, out: &mut S) -> Result<(), S::Error> {
        send_value(self, out)
    }
}

impl Own for Decimal {
    fn read(alloc: Global, text: &str) -> Json5Result<Decimal> {
        json5_de::from_str(alloc, text)
    }

    fn send<S: Serializer>(&self, out: &mut S) -> Result<(), S::Error> {
        raw_number(self, out)
    }
}

impl Own for Whole {
    fn read(alloc: Global, text: &str) -> Json5Result<Whole> {
        match json5_de::from_str(alloc, text)? {
            Value::Whole(whole) => Ok(whole),
            _ => Err(json5_types::error::Error::new(json5_types::ErrorCode::ExpectedNumber)),
        }
    }

    fn send<S: Serializer>(&self, out: &mut S) -> Result<(), S::Error> {
        raw_number(self, out)
    }
}

impl Own for ByteBuf {
    fn read(alloc: Global, text: &str) -> Json5Result<ByteBuf> {
        json5_de::from_str(alloc, text)
    }

    fn send<S: Serializer>(&self, out: &mut S) -> Result<(), S::Error> {
        out.bytes(self.as_slice())
    }
}

#[cycle(depth)]
fn send_value<S: Serializer>(value: &Value, out: &mut S) -> Result<(), S::Error> {
    match value {
        Value::Null => out.unit(),
        Value::Bool(truth) => out.bool(*truth),
        Value::Whole(whole) => raw_number(whole, out),
        Value::Decimal(decimal) => raw_number(decimal, out),
        Value::String(text) => out.str(text.as_str()),
        Value::Array(items) => send_items(items, out),
        Value::Object(fields) => send_fields(fields, out),
    }
}

#[cycle(depth)]
fn send_items<S: Serializer>(items: &[Value], out: &mut S) -> Result<(), S::Error> {
    out.begin_seq(Some(items.len()))?;
    for item in items {
        send_value(item, out)?;
    }
    out.end_seq()
}

#[cycle(depth)]
fn send_fields<S: Serializer>(fields: &[(String, Value)], out: &mut S) -> Result<(), S::Error> {
    out.begin_map(Some(fields.len()))?;
    for (key, value) in fields {
        out.begin_key()?;
        out.str(key.as_str())?;
        out.end_key()?;
        send_value(value, out)?;
    }
    out.end_map()
}

/// Reads such a field.
///
/// # Errors
///
/// As the format's. What was refused in the text of the value is told at the value's place.
pub fn deserialize<'de, T: Own, F: Format>(
    alloc: Global,
    from: &mut Deserializer<'de, '_, F>,
) -> Result<T, F::Error> {
    let text = raw_text(from)?;
    match T::read(alloc, text) {
        Ok(value) => Ok(value),
        Err(error) => Err(from.custom(error.message())),
    }
}

/// Writes such a field.
///
/// # Errors
///
/// As the serializer's.
pub fn serialize<T: Own, S: Serializer>(value: &T, out: &mut S) -> Result<(), S::Error> {
    value.send(out)
}
