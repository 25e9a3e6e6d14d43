//! Reading of bytes, which are strings of hexadecimal digits.

ghost use Rattle.std.specs.Prelude.{true, Some};
ghost use Rattle.json5_grammar.specs.declared.error_code.ErrorCode.TheVariants as codes;
ghost use Rattle.json5_types.specs.ByteBufs.{bytes_of};
ghost use Rattle.json5_de.specs.Convert.{digits_bytes};
ghost use Rattle.json5_de.specs.FoundTexts.{JudgesText};
ghost use Rattle.json5_de.specs.TokenKinds.{ReadsBytes};
ghost use Rattle.json5_de.specs.State.{GivesUpWith};
ghost use Rattle.json5_de.specs.ReaderSteps.{IsFaultAt, IsUndecoded};

use crate::de::Deserializer;
use crate::de::tokens::FoundText;
use hex::FromHexError;
use json5_tokens::input::Input;
use json5_types::ErrorCode;
use json5_types::byte_buf::ByteBuf;
use json5_types::error::{Error, Result};

impl<I: Input> Deserializer<I> {
    /// Reads bytes: a string of an even number of ASCII hexadecimal digits, in either case, two a byte.
    ///
    /// ```text
    /// de.deserialize_bytes()?    // the bytes 0xAB and 0x0C of `'aB0c'`
    /// ```
    ///
    /// # Errors
    ///
    /// - `InvalidBytes` at the opening quote of any other string.
    /// - The codes of every call that reads a string: see [`Deserializer`].
    pub fn deserialize_bytes(&mut self) -> Result<ByteBuf>
        ensures { ReadsBytes self.old self.new result }
    {
        let string = self.find_string()?;
        self.bytes_of(&string)
    }

    /// Reads bytes as [`deserialize_bytes`](Deserializer::deserialize_bytes) does.
    ///
    /// ```text
    /// de.deserialize_byte_buf()?    // the bytes 0xAB and 0x0C of `'aB0c'`
    /// ```
    ///
    /// # Errors
    ///
    /// As `deserialize_bytes`.
    pub fn deserialize_byte_buf(&mut self) -> Result<ByteBuf>
        ensures { ReadsBytes self.old self.new result }
    {
        self.deserialize_bytes()
    }

    /// The bytes that a found text spells in hexadecimal digits; if it spells none, `InvalidBytes` at its start.
    pub(crate) fn bytes_of(&mut self, found: &FoundText) -> Result<ByteBuf>
        ensures { JudgesText true (Some codes.InvalidBytes) digits_bytes bytes_of found.now self.old self.new result }
    {
        match hex::decode(self.allocator(), self.token_text(&found.token)) {
            Ok(bytes) => Ok(ByteBuf::from_vec(bytes)),
            Err(error) => self.undecoded(found.start, error),
        }
    }

    /// Refuses the text at the offset, whose decoding failed with this fault.
    fn undecoded<T>(&mut self, offset: usize, error: FromHexError) -> Result<T>
        ensures { GivesUpWith (IsUndecoded error self.old.input offset) self.old self.new result }
    {
        match error {
            FromHexError::OutOfMemory => self.refuse(Error::new(ErrorCode::OutOfMemory)),
            FromHexError::InvalidHexCharacter { .. }
            | FromHexError::OddLength
            | FromHexError::InvalidStringLength => self.refuse_at(offset, ErrorCode::InvalidBytes),
        }
    }

    /// Refuses with this code at the offset.
    fn refuse_at<T>(&mut self, offset: usize, code: ErrorCode) -> Result<T>
        ensures { GivesUpWith (IsFaultAt (Some code) self.old.input offset) self.old self.new result }
    {
        let error = Error::new_at(self.position_of(offset), code);
        self.refuse(error)
    }
}
