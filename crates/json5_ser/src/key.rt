//! Keys of objects, and what can be written as one (JSON5 section 3).

ghost use Rattle.std.specs.Prelude.{◌≡◌, [], ◌∷◌, Some};
ghost use Rattle.std.specs.Str.{chars};
ghost use Rattle.hex.specs.Hex.{encode_lower};
ghost use Rattle.json5_write.specs.WrittenTrees.{WrittenKey, named, option_key};
ghost use Rattle.json5_write.specs.Out.{bool_text};
ghost use Rattle.json5_ser.specs.WrittenKeys.{WritesKey};

mod members;
mod numbers;
mod refusals;

use crate::Serializer;
use json5_types::error::Result;
use json5_write::literals::bool_name;
use std::io::Write;

/// A key that is to be written. Each of its methods takes it and writes it whole: bare where its text is an identifier
/// (ECMAScript 5.1 section 7.6), else between quotes as `serialize_str` of a serializer writes a string. No call takes memory.
///
/// ```text
/// key.serialize_str("port")?    // port
/// key.serialize_u16(80)?        // "80"
/// ```
///
/// # Errors
///
/// No fault has a position. Every call may return
/// - A failed write, which has no code, where the writer failed or took no bytes: it holds a prefix of the key's text.
/// - `Failed` after a call of the serializer that was refused: nothing is written.
///
/// A call for what is no key returns
/// - `InvalidKey`: nothing of the key is written.
pub struct MapKey<'a, W: Write + Drop> {
    ser: &'a mut Serializer<W>,
}

/// Dropped unused, it leaves the serializer before the key.
impl<W: Write + Drop> Drop for MapKey<'_, W> {
    ghost use Rattle.json5_ser.specs.KeyLending.{serializer_of_key};

    fn drop(self)
        ensures { self.exit.0.now ≡ serializer_of_key self.entry }
    {
        let MapKey { ser: _ } = self;
    }
}

/// A value that can be written as a key. Each type says by `as_key` what is written of its values. An impl passes on what the
/// methods of the key return, and refuses nothing itself.
///
/// ```text
/// impl SerializeKey for Id {
///     ghost use Rattle.json5_ser.specs.WrittenTrees.{natural_key};
///
///     ghost as_key = { λ i. natural_key i.number };
///
///     fn serialize_key<W: Write + Drop>(&self, key: MapKey<'_, W>) -> Result<()> {
///         key.serialize_u32(self.number)
///     }
/// }
/// ```
pub trait SerializeKey {
    ghost use Rattle.json5_ser.specs.KeyLending.{serializer_of_key};

    ghost as_key: { Self → WrittenKey };

    /// Writes the key.
    ///
    /// # Errors
    ///
    /// As every call of a [`MapKey`]; `InvalidKey` where the value is no key, and then nothing of it is written.
    fn serialize_key<W: Write + Drop>(&self, key: MapKey<'_, W>) -> Result<()>
        ensures { WritesKey (as_key self.now) (serializer_of_key key.entry) result key.exit.0.now };
}

impl<W: Write + Drop> MapKey<'_, W> {
    ghost use Rattle.json5_ser.specs.KeyLending.{serializer_of_key, WritesNull};

    /// Writes the key `true` or `false`.
    ///
    /// ```text
    /// key.serialize_bool(true)?    // true
    /// ```
    ///
    /// # Errors
    ///
    /// As every call: see [`MapKey`].
    pub fn serialize_bool(self, value: bool) -> Result<()>
        ensures { WritesKey (named (bool_text value)) (serializer_of_key self.entry) result self.exit.0.now }
    {
        self.serialize_str(bool_name(value))
    }

    /// Writes the text as a key.
    ///
    /// ```text
    /// key.serialize_str("port")?       // port
    /// key.serialize_str("a port")?     // "a port"
    /// ```
    ///
    /// # Errors
    ///
    /// As every call: see [`MapKey`].
    pub fn serialize_str(self, value: &str) -> Result<()>
        ensures { WritesKey (named (chars value.now)) (serializer_of_key self.entry) result self.exit.0.now }
    {
        let MapKey { ser } = self;
        Ok(ser.printer.put_key(value)?)
    }

    /// Writes the text of one character as a key.
    ///
    /// ```text
    /// key.serialize_char('a')?    // a
    /// key.serialize_char('1')?    // "1"
    /// ```
    ///
    /// # Errors
    ///
    /// As every call: see [`MapKey`].
    pub fn serialize_char(self, value: char) -> Result<()>
        ensures { WritesKey (named (value ∷ [])) (serializer_of_key self.entry) result self.exit.0.now }
    {
        let mut buffer = [0u8; 4];
        self.serialize_str(value.encode_utf8(&mut buffer))
    }

    /// Writes the hexadecimal digits in lower case, two a byte, as a key: `ab0c`, `"0c"`.
    ///
    /// ```text
    /// key.serialize_bytes(&[0xab, 0x0c])?    // ab0c
    /// key.serialize_bytes(&[0x0c])?          // "0c"
    /// ```
    ///
    /// # Errors
    ///
    /// As every call: see [`MapKey`].
    pub fn serialize_bytes(self, value: &[u8]) -> Result<()>
        ensures { WritesKey (named (encode_lower value.now)) (serializer_of_key self.entry) result self.exit.0.now }
    {
        let MapKey { ser } = self;
        ser.write_bytes_key(value)
    }

    /// Writes the key `null`.
    ///
    /// ```text
    /// key.serialize_unit()?    // null
    /// ```
    ///
    /// # Errors
    ///
    /// As every call: see [`MapKey`].
    pub fn serialize_unit(self) -> Result<()>
        ensures { WritesNull self.entry result self.exit.0.now }
    {
        self.serialize_str("null")
    }

    /// Writes the key `null`, for a struct without fields. The name changes nothing.
    ///
    /// ```text
    /// key.serialize_unit_struct("Nothing")?    // null
    /// ```
    ///
    /// # Errors
    ///
    /// As every call: see [`MapKey`].
    pub fn serialize_unit_struct(self, _name: &'static str) -> Result<()>
        ensures { WritesNull self.entry result self.exit.0.now }
    {
        self.serialize_unit()
    }

    /// Writes the name of the variant as a key. The type's name and the index change nothing.
    ///
    /// ```text
    /// key.serialize_unit_variant("Color", 2, "blue")?    // blue
    /// ```
    ///
    /// # Errors
    ///
    /// As every call: see [`MapKey`].
    pub fn serialize_unit_variant(
        self,
        _name: &'static str,
        _index: u32,
        variant: &'static str,
    ) -> Result<()>
        ensures { WritesKey (named (chars variant.now)) (serializer_of_key self.entry) result self.exit.0.now }
    {
        self.serialize_str(variant)
    }

    /// Writes the key itself.
    ///
    /// ```text
    /// key.serialize_some(&80u16)?    // "80"
    /// ```
    ///
    /// # Errors
    ///
    /// As every call: see [`MapKey`].
    pub fn serialize_some<K: SerializeKey>(self, key: &K) -> Result<()>
        ensures { WritesKey (option_key K.as_key (Some key.now)) (serializer_of_key self.entry) result self.exit.0.now }
    {
        key.serialize_key(self)
    }

    /// Writes the key that a struct of one field holds. The name changes nothing.
    ///
    /// ```text
    /// key.serialize_newtype_struct("Id", &7u32)?    // "7"
    /// ```
    ///
    /// # Errors
    ///
    /// As every call: see [`MapKey`].
    pub fn serialize_newtype_struct<K: SerializeKey>(
        self,
        _name: &'static str,
        key: &K,
    ) -> Result<()>
        ensures { WritesKey (K.as_key key.now) (serializer_of_key self.entry) result self.exit.0.now }
    {
        key.serialize_key(self)
    }
}
