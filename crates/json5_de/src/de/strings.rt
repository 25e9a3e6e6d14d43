//! Reading of strings. Their faults are listed once, in the comment of `Deserializer`.

ghost use Rattle.std.specs.Prelude.{◌≡◌, Some, None, MatchOption, false};
ghost use Rattle.std.specs.Str.{chars};
ghost use Rattle.json5_de.specs.Convert.{one_character};
ghost use Rattle.json5_de.specs.FoundTexts.{JudgesText};
ghost use Rattle.json5_de.specs.TokenKinds.{ReadsAs, ReadsCow, ReadsEscapeFree, ReadsString, char_kind};

use crate::de::Deserializer;
use crate::de::tokens::FoundText;
use crate::mismatch::Mismatch;
use json5_tokens::input::{Borrows, Input};
use json5_types::cow_str::CowStr;
use json5_types::error::Result;

/// The text's character, if it has just one.
pub(crate) fn only_character(text: &str) -> Option<char>
    ensures { MatchOption result (one_character (chars text.now) false ≡ None) (λ c. one_character (chars text.now) false ≡ Some c) }
{
    let mut rest = text.chars();
    let first = rest.next()?;
    if rest.next().is_some() {
        return None;
    }
    Some(first)
}

impl<I: Input> Deserializer<I> {
    /// Reads a string and returns its text, escapes replaced, in a `String` of its own (JSON5 section 5).
    ///
    /// ```text
    /// de.deserialize_string()?    // `ab` of `'ab'` and of `"a\x62"`
    /// ```
    ///
    /// # Errors
    ///
    /// As every call that reads a string: see [`Deserializer`].
    #[inline(always)]
    pub fn deserialize_string(&mut self) -> Result<String>
        ensures { ReadsString self.old self.new result }
    {
        match self.short_string_owned() {
            Some(text) => Ok(text),
            None => self.string_slowly(),
        }
    }

    /// The same as `deserialize_string`, for any string.
    #[inline(never)]
    fn string_slowly(&mut self) -> Result<String>
        ensures { ReadsString self.old self.new result }
    {
        self.skip_blank()?;
        self.string_owned()
    }

    /// Reads a string of exactly one character (JSON5 section 5). A string without an escape takes no memory.
    ///
    /// ```text
    /// de.deserialize_char()?    // é of `'é'` and of `'\xE9'`; `''` and `'ab'` are custom faults at the opening quote
    /// ```
    ///
    /// # Errors
    ///
    /// - A custom fault at the opening quote where the string has no character or several.
    /// - The codes of every call that reads a string: see [`Deserializer`].
    pub fn deserialize_char(&mut self) -> Result<char>
        ensures { ReadsAs char_kind (λ c. c) self.old self.new result }
    {
        let string = self.find_string()?;
        self.character_of(&string)
    }

    /// The only character of a found text; if it isn't one character, a custom fault at its start.
    pub(crate) fn character_of(&mut self, found: &FoundText) -> Result<char>
        ensures { JudgesText false None one_character (λ c. c) found.now self.old self.new result }
    {
        let text = self.token_text(&found.token);
        let Some(c) = only_character(text) else {
            let error = self.mismatch_at(found.start, &Mismatch::NotCharacter(text));
            return self.refuse(error);
        };
        Ok(c)
    }
}

// What is borrowed from the input.
impl<'de, I: Borrows<'de>> Deserializer<I> {
    /// Reads a string (JSON5 section 5) and returns its text, borrowed from the input where the string has no escape, which
    /// then takes no memory.
    ///
    /// ```text
    /// de.deserialize_identifier()?    // Borrowed of `'ab'`, Owned of `'a\x62'`
    /// ```
    ///
    /// # Errors
    ///
    /// As every call that reads a string: see [`Deserializer`].
    #[inline(always)]
    pub fn deserialize_identifier(&mut self) -> Result<CowStr<'de>>
        ensures { ReadsCow self.old self.new result }
    {
        match self.short_str() {
            Some(text) => Ok(CowStr::Borrowed(text)),
            None => self.identifier_slowly(),
        }
    }

    /// The same as `deserialize_identifier`, for any string.
    #[inline(never)]
    fn identifier_slowly(&mut self) -> Result<CowStr<'de>>
        ensures { ReadsCow self.old self.new result }
    {
        self.skip_blank()?;
        self.text()
    }

    /// Reads a string without an escape (JSON5 section 5) and returns the slice of the input between its quotes. Takes no
    /// memory where it succeeds.
    ///
    /// ```text
    /// let name: &str = de.deserialize_str()?;    // `'a\x62'` is a custom fault at the opening quote: read it as `CowStr` or `String`
    /// ```
    ///
    /// # Errors
    ///
    /// - A custom fault at the opening quote where the string has an escape.
    /// - The codes of every call that reads a string: see [`Deserializer`].
    #[inline(always)]
    pub fn deserialize_str(&mut self) -> Result<&'de str>
        ensures { ReadsEscapeFree self.old self.new result }
    {
        match self.short_str() {
            Some(text) => Ok(text),
            None => self.str_slowly(),
        }
    }

    /// The same as `deserialize_str`, for any string.
    #[inline(never)]
    fn str_slowly(&mut self) -> Result<&'de str>
        ensures { ReadsEscapeFree self.old self.new result }
    {
        self.skip_blank()?;
        let start = self.offset();
        match self.text()? {
            CowStr::Borrowed(text) => Ok(text),
            CowStr::Owned(text) => self.refuse_mismatch(start, &Mismatch::Escaped(text.as_str())),
        }
    }
}
