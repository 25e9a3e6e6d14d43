//! Reading of null and of booleans.

ghost use Rattle.json5_de.specs.TokenKinds.{ReadsAs, ReadsNull, bool_kind};

use crate::de::Deserializer;
use json5_read::kinds::Literal;
use json5_tokens::input::Input;
use json5_types::error::Result;

impl<I: Input> Deserializer<I> {
    /// Reads `null` (JSON5 section 2). Takes no memory.
    ///
    /// ```text
    /// de.deserialize_unit()?    // of `null`; `nil` is `ExpectedNull` at the i
    /// ```
    ///
    /// # Errors
    ///
    /// - `ExpectedNull` at the first character that differs from `null`.
    /// - `EofParsingNull`, without a position, where the text ends before the word does.
    /// - The codes of every call: see [`Deserializer`].
    pub fn deserialize_unit(&mut self) -> Result<()>
        ensures { ReadsNull self.old self.new result }
    {
        self.skip_blank()?;
        self.literal(Literal::Null)
    }

    /// Reads `true` or `false` (JSON5 section 2). Takes no memory.
    ///
    /// ```text
    /// de.deserialize_bool()?    // true of `true`; `yes` is `ExpectedBool` at the y, `trap` at the a
    /// ```
    ///
    /// # Errors
    ///
    /// - `ExpectedBool` at a character that begins neither, or that differs from the word that was begun.
    /// - `EofParsingBool`, without a position, where the text ends before the word does.
    /// - The codes of every call: see [`Deserializer`].
    pub fn deserialize_bool(&mut self) -> Result<bool>
        ensures { ReadsAs bool_kind (λ b. b) self.old self.new result }
    {
        self.skip_blank()?;
        if self.scanner.peek() == Some('f') {
            self.literal(Literal::False)?;
            return Ok(false);
        }
        self.literal(Literal::True)?;
        Ok(true)
    }
}
