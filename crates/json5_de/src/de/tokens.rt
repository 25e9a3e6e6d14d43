//! Tokens: the calls of the scanner, whose refusal is for good, and the short ways of strings.
//!
//! A short way returns a small value, so that the caller's frame holds no fault. Where it returns None, nothing has changed, and
//! the other calls say what is there.

ghost use Rattle.std.specs.Prelude.{◌-◌, string_bytes};
ghost use Rattle.json5_tokens.specs.Cursor.{IsInput};
ghost use Rattle.json5_grammar.specs.Language.Documents.{max_depth};
ghost use Rattle.json5_read.specs.OwnedReads.{OwnsKey, ReadsDatum};
ghost use Rattle.json5_read.specs.Kinds.{word_of, ends_of, differs_of};
ghost use Rattle.json5_read.specs.SkipSteps.{SkipsValue};
ghost use Rattle.json5_de.specs.State.{Calls};
ghost use Rattle.json5_de.specs.ReaderSteps.{Eats, IsCount};
ghost use Rattle.json5_de.specs.FoundTexts.{SpellsText, SpellsCow, FindsKey, FindsString};
ghost use Rattle.json5_de.specs.TokenCalls as tokens;
ghost use Rattle.json5_de.specs.TokenCalls.{Takes, TakesOwnString, PassesWord};
ghost use Rattle.json5_de.specs.TokenKinds.{string_kind};
ghost use Rattle.json5_de.specs.ShortWays.{ReadsShort, ReadsShortText, ReadsEscapeFreeText, RunsOut};

use crate::de::Deserializer;
use json5_read::kinds::{Literal, skip_literal};
use json5_read::owned_tokens::key_owned;
use json5_read::read::read_value;
use json5_read::skip::skip_value;
use json5_tokens::input::{Borrows, Input};
use json5_tokens::short_texts::Span;
use json5_tokens::text_token::TextToken;
use json5_types::ErrorCode;
use json5_types::cow_str::CowStr;
use json5_types::error::{Error, Result};
use json5_types::number::Number;
use json5_types::value::Value;

/// A string or a key that was taken, and its offset.
#[derive(Drop)]
pub(crate) struct FoundText {
    /// The count of bytes before the string or key.
    pub(crate) start: usize,
    pub(crate) token: TextToken,
}

impl<I: Input> Deserializer<I> {
    /// The input.
    #[inline(always)]
    pub(crate) fn input(&self) -> I
        ensures { IsInput self.now.input (I.text result) }
    {
        self.scanner.input()
    }

    /// Takes the literal in front.
    pub(crate) fn literal(&mut self, literal: Literal) -> Result<()>
        ensures { PassesWord (word_of literal) (ends_of literal) (differs_of literal) self.old self.new result }
    {
        match skip_literal(&mut self.scanner, literal) {
            Ok(()) => Ok(()),
            Err(e) => self.refuse(e),
        }
    }

    /// Takes the number in front.
    pub(crate) fn number(&mut self) -> Result<Number>
        ensures { Takes tokens.number_token self.old self.new result }
    {
        match self.scanner.number() {
            Ok(number) => Ok(number),
            Err(e) => self.refuse(e),
        }
    }

    /// Takes the string in front, and returns an owned copy of its text.
    pub(crate) fn string_owned(&mut self) -> Result<String>
        ensures { TakesOwnString self.old self.new result }
    {
        // Goals below need what `offset` promises: what is unread is the end of the input.
        let _offset = self.offset();
        match self.scanner.string_owned() {
            Ok(text) => Ok(text),
            Err(e) => self.refuse(e),
        }
    }

    /// Takes the string in front, to its token.
    pub(crate) fn string_token(&mut self) -> Result<TextToken>
        ensures { Takes tokens.text_token self.old self.new result }
    {
        match self.scanner.string_token() {
            Ok(token) => Ok(token),
            Err(e) => self.refuse(e),
        }
    }

    /// Passes over the value in front.
    pub(crate) fn skip_value(&mut self) -> Result<()>
        ensures { Calls (SkipsValue (max_depth - self.old.level)) self.old self.new result }
    {
        match skip_value(&mut self.scanner, 128 - self.level) {
            Ok(()) => Ok(()),
            Err(e) => self.refuse(e),
        }
    }

    /// Reads the value in front.
    pub(crate) fn read_value(&mut self) -> Result<Value>
        ensures { Calls (ReadsDatum (max_depth - self.old.level)) self.old self.new result }
    {
        match read_value(&mut self.scanner, 128 - self.level) {
            Ok(value) => Ok(value),
            Err(e) => self.refuse(e),
        }
    }

    /// Takes the key in front.
    pub(crate) fn key(&mut self) -> Result<TextToken>
        ensures { Takes tokens.key_token self.old self.new result }
    {
        match self.scanner.key() {
            Ok(key) => Ok(key),
            Err(e) => self.refuse(e),
        }
    }

    /// The text of a string or a key that was taken.
    pub(crate) fn token_text<'t>(&'t self, token: &'t TextToken) -> &'t str
        ensures { SpellsText self.now token.now result.now }
    {
        self.scanner.text_of(token)
    }

    /// An owned copy of the text of a key that was taken.
    pub(crate) fn own_key_text(&self, key: TextToken) -> Result<String>
        ensures { OwnsKey self.now.input key result }
    {
        key_owned(&self.scanner, key)
    }

    /// The count of bytes before what is unread.
    pub(crate) fn offset(&self) -> usize
        ensures { IsCount self.now result }
    {
        self.scanner.offset()
    }

    /// Takes the character if it is next, and returns whether it was.
    pub(crate) fn eat(&mut self, c: char) -> bool
        ensures { Eats c self.old self.new result }
    {
        self.scanner.eat(c)
    }

    /// Takes a string, blanks before it included.
    pub(crate) fn find_string(&mut self) -> Result<FoundText>
        ensures { FindsString self.old self.new result }
    {
        self.skip_blank()?;
        let start = self.offset();
        let token = self.string_token()?;
        Ok(FoundText { start, token })
    }

    /// Takes a key, blanks before it included.
    pub(crate) fn find_key(&mut self) -> Result<FoundText>
        ensures { FindsKey self.old self.new result }
    {
        self.skip_blank()?;
        let start = self.offset();
        let token = self.key()?;
        Ok(FoundText { start, token })
    }

    /// Reads a string without an escape and returns the span of its text, or returns None.
    #[inline(always)]
    pub(crate) fn short_string(&mut self) -> Option<Span>
        ensures { ReadsShortText self.old self.new result }
    {
        if self.failed {
            return None;
        }
        self.scanner.short_string()
    }

    /// Reads the string in front and returns its text, escapes replaced, or returns None.
    #[inline(always)]
    pub(crate) fn short_string_owned(&mut self) -> Option<String>
        ensures { ReadsShort string_kind string_bytes self.old self.new result }
    {
        if self.failed {
            return None;
        }
        self.scanner.short_string_owned()
    }

    /// Refuses since memory ran out, now and from now on.
    #[cold]
    #[inline(never)]
    pub(crate) fn without_memory<T>(&mut self) -> Result<T>
        ensures { RunsOut self.old self.new result }
    {
        self.refuse(Error::new(ErrorCode::OutOfMemory))
    }
}

// What is borrowed from the input.
impl<'de, I: Borrows<'de>> Deserializer<I> {
    /// Takes the string in front, its text borrowed if it has no backslash.
    pub(crate) fn text(&mut self) -> Result<CowStr<'de>>
        ensures { Takes tokens.string_token self.old self.new result }
    {
        match self.scanner.string() {
            Ok(text) => Ok(text),
            Err(e) => self.refuse(e),
        }
    }

    /// The text of a key that was taken, borrowed if no escape is used.
    pub(crate) fn borrowed_key_text(&self, key: TextToken) -> CowStr<'de>
        ensures { SpellsCow self.now key result }
    {
        self.scanner.borrowed_text_of(key)
    }

    /// Reads a string without an escape and returns its text, or returns None.
    #[inline(always)]
    pub(crate) fn short_str(&mut self) -> Option<&'de str>
        ensures { ReadsEscapeFreeText self.old self.new result }
    {
        let span = self.short_string()?;
        Some(self.scanner.borrowed_text_of_span(span))
    }
}
