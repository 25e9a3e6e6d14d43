//! Keys that are read as a document of their own: the key is a string or an identifier, and its text a value.

ghost use Rattle.std.specs.Prelude.{◌≡◌, ◌^◌};
ghost use Rattle.json5_types.specs.Errors.{kind_of};
ghost use Rattle.json5_de.specs.TokenKinds.{bool_kind, natural_kind, integer_kind, decimal_kind};
ghost use Rattle.json5_de.specs.KeyKinds.{ReadsKeyAs, document_key};
ghost use Rattle.json5_de.specs.KeySteps.{IsTextFault, is_out_of_memory};

use crate::de::Deserializer;
use crate::impls::keys::FromText;
use crate::key::MapKey;
use json5_tokens::input::Input;
use json5_types::ErrorCode;
use json5_types::decimal::Decimal;
use json5_types::error::{Error, Result};

impl<I: Input> MapKey<'_, I> {
    ghost use Rattle.json5_de.specs.Lending.{KeyReads, ReadsNullKey};

    /// Reads a key whose text is `null`, with any blanks and comments around it: `{null: 1}`, `{' null ': 1}`.
    ///
    /// ```text
    /// key.deserialize_unit()?    // of the keys `null` and `' null '`; `nil` is `ExpectedNull` at the key
    /// ```
    ///
    /// # Errors
    ///
    /// As every call that reads a document: see [`MapKey`].
    pub fn deserialize_unit(&mut self) -> Result<()>
        ensures { ReadsNullKey self.old self.new result }
    {
        self.de.read_key_document()
    }

    /// Reads a key whose text is `null`, as a struct without fields. The name changes nothing.
    ///
    /// ```text
    /// key.deserialize_unit_struct("Nothing")?    // of the key `null`
    /// ```
    ///
    /// # Errors
    ///
    /// As every call that reads a document: see [`MapKey`].
    pub fn deserialize_unit_struct(&mut self, _name: &'static str) -> Result<()>
        ensures { ReadsNullKey self.old self.new result }
    {
        self.deserialize_unit()
    }

    /// Reads a key whose text is `true` or `false`, with any blanks and comments around it.
    ///
    /// ```text
    /// key.deserialize_bool()?    // true of the keys `true` and `' true '`; `yes` is `ExpectedBool` at the key
    /// ```
    ///
    /// # Errors
    ///
    /// As every call that reads a document: see [`MapKey`].
    pub fn deserialize_bool(&mut self) -> Result<bool>
        ensures { KeyReads (document_key bool_kind) (λ b. b) self.old self.new result }
    {
        self.de.read_key_document()
    }

    /// Reads a key whose text is a whole number from 0 to 255, with any blanks and comments around it.
    ///
    /// ```text
    /// key.deserialize_u8()?    // 16 of the keys `'16'`, `'0x10'` and `' 16 '`
    /// ```
    ///
    /// # Errors
    ///
    /// As every call that reads a document: see [`MapKey`].
    pub fn deserialize_u8(&mut self) -> Result<u8>
        ensures { KeyReads (document_key (natural_kind (2 ^ 8))) (λ n. n) self.old self.new result }
    {
        self.de.read_key_document()
    }

    /// Reads a key whose text is a whole number from 0 to 65535.
    ///
    /// ```text
    /// key.deserialize_u16()?    // 8080 of the key `'8080'`; `'65536'` is a custom fault at the key
    /// ```
    ///
    /// # Errors
    ///
    /// As every call that reads a document: see [`MapKey`].
    pub fn deserialize_u16(&mut self) -> Result<u16>
        ensures { KeyReads (document_key (natural_kind (2 ^ 16))) (λ n. n) self.old self.new result }
    {
        self.de.read_key_document()
    }

    /// Reads a key whose text is a whole number from 0 to 2^32 - 1.
    ///
    /// ```text
    /// key.deserialize_u32()?    // 70000 of the key `'70000'`; `'4294967296'` is a custom fault at the key
    /// ```
    ///
    /// # Errors
    ///
    /// As every call that reads a document: see [`MapKey`].
    pub fn deserialize_u32(&mut self) -> Result<u32>
        ensures { KeyReads (document_key (natural_kind (2 ^ 32))) (λ n. n) self.old self.new result }
    {
        self.de.read_key_document()
    }

    /// Reads a key whose text is a whole number from 0 to 2^64 - 1.
    ///
    /// ```text
    /// key.deserialize_u64()?    // 5000000000 of the key `'5000000000'`; `'-1'` is a custom fault at the key
    /// ```
    ///
    /// # Errors
    ///
    /// As every call that reads a document: see [`MapKey`].
    pub fn deserialize_u64(&mut self) -> Result<u64>
        ensures { KeyReads (document_key (natural_kind (2 ^ 64))) (λ n. n) self.old self.new result }
    {
        self.de.read_key_document()
    }

    /// Reads a key whose text is a whole number from 0 to 2^128 - 1.
    ///
    /// ```text
    /// key.deserialize_u128()?    // 5000000000 of the key `'5000000000'`; `'-1'` is a custom fault at the key
    /// ```
    ///
    /// # Errors
    ///
    /// As every call that reads a document: see [`MapKey`].
    pub fn deserialize_u128(&mut self) -> Result<u128>
        ensures { KeyReads (document_key (natural_kind (2 ^ 128))) (λ n. n) self.old self.new result }
    {
        self.de.read_key_document()
    }

    /// Reads a key whose text is a whole number from -128 to 127.
    ///
    /// ```text
    /// key.deserialize_i8()?    // -7 of the keys `'-7'` and `'-0x7'`
    /// ```
    ///
    /// # Errors
    ///
    /// As every call that reads a document: see [`MapKey`].
    pub fn deserialize_i8(&mut self) -> Result<i8>
        ensures { KeyReads (document_key (integer_kind (2 ^ 7))) (λ n. n) self.old self.new result }
    {
        self.de.read_key_document()
    }

    /// Reads a key whose text is a whole number from -32768 to 32767.
    ///
    /// ```text
    /// key.deserialize_i16()?    // -300 of the key `'-300'`; `'32768'` is a custom fault at the key
    /// ```
    ///
    /// # Errors
    ///
    /// As every call that reads a document: see [`MapKey`].
    pub fn deserialize_i16(&mut self) -> Result<i16>
        ensures { KeyReads (document_key (integer_kind (2 ^ 15))) (λ n. n) self.old self.new result }
    {
        self.de.read_key_document()
    }

    /// Reads a key whose text is a whole number from -2^31 to 2^31 - 1.
    ///
    /// ```text
    /// key.deserialize_i32()?    // -70000 of the key `'-70000'`; `'2147483648'` is a custom fault at the key
    /// ```
    ///
    /// # Errors
    ///
    /// As every call that reads a document: see [`MapKey`].
    pub fn deserialize_i32(&mut self) -> Result<i32>
        ensures { KeyReads (document_key (integer_kind (2 ^ 31))) (λ n. n) self.old self.new result }
    {
        self.de.read_key_document()
    }

    /// Reads a key whose text is a whole number from -2^63 to 2^63 - 1.
    ///
    /// ```text
    /// key.deserialize_i64()?    // -5000000000 of the key `'-5000000000'`; `'1.0'` is a custom fault at the key
    /// ```
    ///
    /// # Errors
    ///
    /// As every call that reads a document: see [`MapKey`].
    pub fn deserialize_i64(&mut self) -> Result<i64>
        ensures { KeyReads (document_key (integer_kind (2 ^ 63))) (λ n. n) self.old self.new result }
    {
        self.de.read_key_document()
    }

    /// Reads a key whose text is a whole number from -2^127 to 2^127 - 1.
    ///
    /// ```text
    /// key.deserialize_i128()?    // -5000000000 of the key `'-5000000000'`; `'1.0'` is a custom fault at the key
    /// ```
    ///
    /// # Errors
    ///
    /// As every call that reads a document: see [`MapKey`].
    pub fn deserialize_i128(&mut self) -> Result<i128>
        ensures { KeyReads (document_key (integer_kind (2 ^ 127))) (λ n. n) self.old self.new result }
    {
        self.de.read_key_document()
    }

    /// Reads a key whose text is a number of any kind, as a decimal.
    ///
    /// ```text
    /// key.deserialize_decimal()?    // of the key `'1.50'` the digits 15 and the exponent -1
    /// ```
    ///
    /// # Errors
    ///
    /// As every call that reads a document: see [`MapKey`].
    pub fn deserialize_decimal(&mut self) -> Result<Decimal>
        ensures { KeyReads (document_key decimal_kind) (λ d. d) self.old self.new result }
    {
        self.de.read_key_document()
    }
}

/// Whether the fault says that memory ran out.
fn is_out_of_memory(error: &Error) -> bool
    ensures { result ≡ is_out_of_memory (kind_of error.now) }
{
    matches!(error.code(), Some(ErrorCode::OutOfMemory))
}

impl<I: Input> Deserializer<I> {
    /// Reads a key as a document of its own.
    pub(crate) fn read_key_document<T: FromText>(&mut self) -> Result<T>
        ensures { ReadsKeyAs (document_key T.kind) T.content self.old self.new result }
    {
        let key = self.find_key()?;
        match T::from_text(self.allocator(), self.token_text(&key.token)) {
            Ok(value) => Ok(value),
            Err(e) => {
                let error = self.text_fault(e, key.start);
                self.refuse(error)
            }
        }
    }

    /// The fault of a key's text, at the key. That memory ran out has no place.
    fn text_fault(&self, error: Error, start: usize) -> Error
        ensures { IsTextFault self.now.input start error result }
    {
        if is_out_of_memory(&error) {
            return Error::new(ErrorCode::OutOfMemory);
        }
        error.at(self.position_of(start))
    }
}
