//! Bytes, written as strings of hexadecimal digits.

ghost use Rattle.std.specs.Prelude.{◌≡◌};
ghost use Rattle.hex.specs.Hex.{encode_lower};
ghost use Rattle.json5_grammar.specs.Written.Quoting.{is_name};
ghost use Rattle.json5_write.specs.WrittenTrees.{text, named};
ghost use Rattle.json5_write.specs.Writes.{Writes, WritesTree};
ghost use Rattle.json5_ser.specs.WrittenKeys.{WritesKey};
ghost use Rattle.json5_write.specs.Out.{piece};

use crate::Serializer;
use json5_types::error::Result;
use std::io::Write;

/// Whether the hexadecimal digits are an identifier: they begin with a letter.
fn is_hex_identifier(bytes: &[u8]) -> bool
    ensures { result ≡ is_name (encode_lower bytes.now) }
{
    match bytes {
        [first, ..] => *first >= 0xA0,
        [] => false,
    }
}

impl<W: Write + Drop> Serializer<W> {
    /// Writes the digits in lower case, two a byte.
    fn write_hex_digits(&mut self, bytes: &[u8]) -> Result<()>
        ensures { Writes (piece (encode_lower bytes.now)) self.old result self.new }
    {
        self.check_not_failed()?;
        let mut buffer = [0u8; 64];
        for chunk in bytes.chunks(32) {
            let digits = &mut buffer[..2 * chunk.len()];
            let encoded = hex::encode_to_slice(chunk, digits);
            encoded.unwrap();
            let text = str::from_utf8(digits);
            self.put(text.unwrap())?;
        }
        Ok(())
    }

    /// Writes bytes as a string of their hexadecimal digits in lower case, two a byte.
    ///
    /// ```text
    /// ser.serialize_bytes(&[0xab, 0x0c])?    // "ab0c"
    /// ```
    ///
    /// # Errors
    ///
    /// As every call: see [`Serializer`].
    pub fn serialize_bytes(&mut self, value: &[u8]) -> Result<()>
        ensures { WritesTree (text (encode_lower value.now)) self.old result self.new }
    {
        self.put("\"")?;
        self.write_hex_digits(value)?;
        self.put("\"")
    }

    /// Writes the digits of bytes as a key.
    pub(crate) fn write_bytes_key(&mut self, value: &[u8]) -> Result<()>
        ensures { WritesKey (named (encode_lower value.now)) self.old result self.new }
    {
        if is_hex_identifier(value) {
            return self.write_hex_digits(value);
        }
        self.serialize_bytes(value)
    }
}
