//! What is read as bytes, or as it stands.

use json5_serde_read::raw_text;
use serde::{Described, Deserialize, Deserializer, Format, Serialize, Serializer};
use std::alloc::Global;

/// Bytes that are borrowed from the text, which has none.
#[derive(Drop)]
pub struct Blob<'a>(&'a [u8]);

impl<'de> Deserialize<'de> for Blob<'de> {
    fn deserialize<F: Format>(
        _alloc: Global,
        from: &mut Deserializer<'de, '_, F>,
    ) -> Result<Blob<'de>, F::Error> {
        Ok(Blob(from.borrowed_bytes()?))
    }
}

/// A text as it stands.
#[derive(Drop)]
pub struct Raw<'a>(pub &'a str);

impl<'de> Deserialize<'de> for Raw<'de> {
    fn deserialize<F: Format>(
        _alloc: Global,
        from: &mut Deserializer<'de, '_, F>,
    ) -> Result<Raw<'de>, F::Error> {
        Ok(Raw(raw_text(from)?))
    }
}

/// Bytes, as hexadecimal digits.
#[derive(Drop)]
pub struct Bytes(Vec<u8>);

impl<'de> Deserialize<'de> for Bytes {
    fn deserialize<F: Format>(
        alloc: Global,
        from: &mut Deserializer<'de, '_, F>,
    ) -> Result<Bytes, F::Error> {
        Ok(Bytes(from.byte_buf(alloc)?))
    }
}

impl Described for Bytes {}

impl Serialize for Bytes {
    fn serialize<S: Serializer>(&self, out: &mut S) -> Result<(), S::Error> {
        out.bytes(self.0.as_slice())
    }
}
