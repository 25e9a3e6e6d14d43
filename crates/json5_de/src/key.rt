//! Keys of objects: the law of a type that is read from one, what its reading is lent, and keys that are read as their text, or as
//! what it spells (JSON5 section 3).

ghost use Rattle.std.specs.Prelude.{◌≡◌, IfOk, IfErr, string_bytes};
ghost use Rattle.json5_types.specs.Cows.{cow_bytes, is_borrowed};
ghost use Rattle.json5_de.specs.Convert.{names_bytes};
ghost use Rattle.json5_de.specs.State.{State, SameText};
ghost use Rattle.json5_de.specs.ConvertLists.{if_some};
ghost use Rattle.json5_de.specs.DeserializeLaw.{Unprompted};
ghost use Rattle.json5_de.specs.OptionFaults.{RefusesLive};
ghost use Rattle.json5_de.specs.Keys.{GivesKey, CompletesKey};
ghost use Rattle.json5_de.specs.KeyKinds.{ReadsKeyAs, string_key, char_key, escape_free_key, cow_key, variant_key, ignored_key, some_of};
ghost use Rattle.json5_de.specs.ShortWays.{ReadsShortKey, TakesEscapeFreeKey};

mod documents;

use crate::de::Deserializer;
use crate::mismatch::Mismatch;
use json5_tokens::input::{Borrows, Input};
use json5_tokens::short_texts::Span;
use json5_types::byte_buf::ByteBuf;
use json5_types::cow_str::CowStr;
use json5_types::error::Result;
use std::alloc::Global;

/// A key that is to be read, a string or an identifier (JSON5 section 3). Each of its methods reads it whole, and a type calls
/// one of them, once. Where it is dropped unread, the access that lent it refuses from then on.
///
/// ```text
/// fn deserialize_key(key: &mut MapKey<'_, I>) -> Result<Id> {
///     let number = key.deserialize_u32()?;    // 7 of `'7'`
///     Ok(Id { number })
/// }
/// ```
///
/// # Errors
///
/// Every call may return
/// - `Failed`, without a position, after a call of the reader that was refused.
/// - Where a quote begins the key, the codes of a string: see [`Deserializer`].
/// - `ExpectedIdentifier` at a character that begins no key, or at the backslash of an escape whose character may not be in an
///   identifier.
/// - `InvalidEscapeSequence` at the character after a backslash that is no `u`. In a `\u` escape it and the custom fault of
///   surrogates have the positions that they have in a string.
/// - `EofParsingIdentifier`, without a position, where the text ends in an identifier or right after it;
///   `EofParsingEscapeSequence`, without a position, where it ends in an escape.
/// - `OutOfMemory` where a request for memory was refused.
///
/// A call that reads the key's text as a document of its own (`deserialize_unit`, `_unit_struct`, `_bool`, `_decimal`, `_u8` to
/// `_i128`) also returns the faults of that document: their codes are those of `from_str`, and each has the position of the
/// key.
pub struct MapKey<'a, I: Input> {
    pub(crate) de: &'a mut Deserializer<I>,
}

/// Dropped unread, it leaves the reader before the key.
impl<I: Input> Drop for MapKey<'_, I> {
    ghost use Rattle.json5_de.specs.Lending.{reader_of_key};

    fn drop(self)
        ensures { self.exit.0.now ≡ reader_of_key self.entry }
    {
        let MapKey { de: _ } = self;
    }
}

/// A type that is read from a key.
///
/// Its law is the contract of `deserialize_key`: one key is read from the front, blanks and comments before it included, and
/// exactly what follows it is left unread.
///
/// ```text
/// impl<I: Input> DeserializeKey<I> for Id {
///     ghost Content = { ℕ };
///     ghost content = { λ i. i.number };
///     ghost convert = { (document_key (natural_kind (2 ^ 32))).convert };
///
///     fn deserialize_key(key: &mut MapKey<'_, I>) -> Result<Id> {
///         let number = key.deserialize_u32()?;
///         Ok(Id { number })
///     }
/// }
/// ```
pub trait DeserializeKey<I: Input>: Sized + Drop {
    ghost use Rattle.std.specs.Prelude.{⊤};
    ghost use Rattle.json5_types.specs.declared.error.Error.{Error};
    ghost use Rattle.json5_de.specs.State.{State};
    ghost use Rattle.json5_de.specs.Keys.{KeyConversion};
    ghost use Rattle.json5_de.specs.Lending.{reader_of_key, HoldsTheSameKey};

    // What of a key counts.
    ghost Content: { Type 0 };

    ghost content: { Self → Content };

    // What a key's text converts to, if it does; the Bool is true if no escape is used.
    ghost convert: { KeyConversion Content };

    // What is known of a refusal, beside what the law says.
    ghost refuses: { State → Error → State → Type 0 } = { λ _ _ _. ⊤ };

    /// Reads one key from the front, and leaves what follows it unread.
    ///
    /// # Errors
    ///
    /// The faults of the call of the key that the impl makes, and custom faults of its own.
    fn deserialize_key(key: &mut MapKey<'_, I>) -> Result<Self>
        ensures sound { IfOk result (λ v. GivesKey content convert (reader_of_key key.old) (reader_of_key key.new) v) }
        ensures complete { CompletesKey convert (reader_of_key key.old) result }
        ensures refused { IfErr result (λ e. refuses (reader_of_key key.old) e (reader_of_key key.new)) }
        ensures unprompted { Unprompted (reader_of_key key.old) result }
        ensures same_text { SameText (reader_of_key key.old) (reader_of_key key.new) }
        ensures same_reference { HoldsTheSameKey key.old key.new };
}

impl<I: Input> MapKey<'_, I> {
    ghost use Rattle.json5_de.specs.Lending.{KeyReads, KeyReadsBy, ReadsBytesKey};

    /// Returns the allocator of the reader, for what an impl allocates itself.
    pub fn allocator(&self) -> Global {
        self.de.allocator()
    }

    /// Reads the `K` that a struct of one field holds. The name changes nothing.
    ///
    /// ```text
    /// let id: u32 = key.deserialize_newtype_struct("Id")?;    // 7 of the key `'7'`
    /// ```
    ///
    /// # Errors
    ///
    /// The faults of `K`; `Failed`, without a position, after a call of the reader that was refused.
    pub fn deserialize_newtype_struct<K: DeserializeKey<I>>(
        &mut self,
        _name: &'static str,
    ) -> Result<K>
        ensures { KeyReadsBy K.content K.convert (RefusesLive K.refuses) self.old self.new result }
    {
        self.de.check_not_failed()?;
        match K::deserialize_key(self) {
            Ok(key) => Ok(key),
            Err(e) => self.de.refuse(e),
        }
    }

    /// Reads a `K`, which is always Some: a key is never None, not even `null`.
    ///
    /// ```text
    /// let name: Option<String> = key.deserialize_option()?;    // Some of `null` for the key `null`
    /// ```
    ///
    /// # Errors
    ///
    /// The faults of `K`; `Failed`, without a position, after a call of the reader that was refused.
    pub fn deserialize_option<K: DeserializeKey<I>>(&mut self) -> Result<Option<K>>
        ensures { KeyReadsBy (if_some K.content) (some_of K.convert) (RefusesLive K.refuses) self.old self.new result }
    {
        let key = self.deserialize_newtype_struct::<K>("Option")?;
        Ok(Some(key))
    }

    /// Reads the key and returns its text, escapes replaced, in a `String` of its own.
    ///
    /// ```text
    /// key.deserialize_string()?    // `port` of the keys `port`, `'port'` and `p\u006frt`
    /// ```
    ///
    /// # Errors
    ///
    /// As every call: see [`MapKey`].
    #[inline(always)]
    pub fn deserialize_string(&mut self) -> Result<String>
        ensures { KeyReads string_key string_bytes self.old self.new result }
    {
        let Some(span) = self.de.short_key() else {
            return self.de.key_string_slowly();
        };
        let de = &*self.de;
        match String::from_str(de.scanner.allocator(), de.scanner.text_of_span(span)) {
            Ok(text) => Ok(text),
            Err(_) => self.de.without_memory(),
        }
    }

    /// Reads a key of exactly one character.
    ///
    /// ```text
    /// key.deserialize_char()?    // é of the keys `é` and `'\xE9'`; `ab` is a custom fault at the key
    /// ```
    ///
    /// # Errors
    ///
    /// - A custom fault at the key where it has no character or several.
    /// - The codes of every call: see [`MapKey`].
    pub fn deserialize_char(&mut self) -> Result<char>
        ensures { KeyReads char_key (λ c. c) self.old self.new result }
    {
        let key = self.de.find_key()?;
        self.de.character_of(&key)
    }

    /// Reads a key that is one of the variants, and returns its index among them, counted from 0; of equal names it is the
    /// first. The name of the enum changes nothing.
    ///
    /// ```text
    /// let color = key.deserialize_enum("Color", &["red", "green", "blue"])?;    // 2 for the key `blue`
    /// ```
    ///
    /// # Errors
    ///
    /// - A custom fault that lists the variants, at any other key.
    /// - The codes of every call: see [`MapKey`].
    pub fn deserialize_enum(&mut self, _name: &'static str, variants: &[&str]) -> Result<usize>
        ensures { KeyReads (variant_key (names_bytes variants.now)) (λ n. n) self.old self.new result }
    {
        let key = self.de.find_key()?;
        self.de.variant_of(&key, variants)
    }

    /// Reads a key of any text, and keeps nothing of it.
    ///
    /// ```text
    /// key.deserialize_ignored_any()?    // of any key: `port`, `'a key'`, `""`
    /// ```
    ///
    /// # Errors
    ///
    /// As every call: see [`MapKey`].
    pub fn deserialize_ignored_any(&mut self) -> Result<()>
        ensures { KeyReads ignored_key (λ _. tt) self.old self.new result }
    {
        self.de.find_key()?;
        Ok(())
    }

    /// Reads a key as bytes: its text is an even number of ASCII hexadecimal digits, in either case, two a byte.
    ///
    /// ```text
    /// key.deserialize_bytes()?    // the bytes 0xAB and 0x0C of the keys `ab0c` and `'AB0C'`
    /// ```
    ///
    /// # Errors
    ///
    /// - `InvalidBytes` at a key of any other text.
    /// - The codes of every call: see [`MapKey`].
    pub fn deserialize_bytes(&mut self) -> Result<ByteBuf>
        ensures { ReadsBytesKey self.old self.new result }
    {
        let key = self.de.find_key()?;
        self.de.bytes_of(&key)
    }

    /// Reads a key as bytes, as [`deserialize_bytes`](MapKey::deserialize_bytes) does.
    ///
    /// ```text
    /// key.deserialize_byte_buf()?    // the bytes 0xAB and 0x0C of the key `ab0c`
    /// ```
    ///
    /// # Errors
    ///
    /// As `deserialize_bytes`.
    pub fn deserialize_byte_buf(&mut self) -> Result<ByteBuf>
        ensures { ReadsBytesKey self.old self.new result }
    {
        self.deserialize_bytes()
    }
}

// What is borrowed from the text.
impl<'de, I: Borrows<'de>> MapKey<'_, I> {
    ghost use Rattle.json5_de.specs.Lending.{KeyReads, ReadsCowKey};

    /// Reads a key without an escape, and returns its slice of the input, without quotes.
    ///
    /// ```text
    /// key.deserialize_str()?    // `port` of the keys `port` and `'port'`; `p\u006frt` is a custom fault at the key
    /// ```
    ///
    /// # Errors
    ///
    /// - A custom fault at a key that has an escape.
    /// - The codes of every call: see [`MapKey`].
    #[inline(always)]
    pub fn deserialize_str(&mut self) -> Result<&'de str>
        ensures { KeyReads escape_free_key (λ t. t.now) self.old self.new result }
    {
        match self.de.short_key_str() {
            Some(text) => Ok(text),
            None => self.de.key_str_slowly(),
        }
    }

    /// Reads the key and returns its text, borrowed from the input where the key has no escape.
    ///
    /// ```text
    /// key.deserialize_identifier()?    // Borrowed of the key `port`, Owned of `p\u006frt`
    /// ```
    ///
    /// # Errors
    ///
    /// As every call: see [`MapKey`].
    #[inline(always)]
    pub fn deserialize_identifier(&mut self) -> Result<CowStr<'de>>
        ensures { ReadsCowKey self.old self.new result }
    {
        match self.de.short_key_str() {
            Some(text) => Ok(CowStr::Borrowed(text)),
            None => self.de.key_cow_slowly(),
        }
    }

    /// Reads a key of any text, as [`deserialize_identifier`](MapKey::deserialize_identifier) does.
    ///
    /// ```text
    /// key.deserialize_any()?    // Borrowed of the key `port`, Owned of `p\u006frt`
    /// ```
    ///
    /// # Errors
    ///
    /// As every call: see [`MapKey`].
    pub fn deserialize_any(&mut self) -> Result<CowStr<'de>>
        ensures { ReadsCowKey self.old self.new result }
    {
        self.deserialize_identifier()
    }
}

impl<I: Input> Deserializer<I> {
    /// Takes a key without an escape and returns the span of its text, or returns None.
    #[inline(always)]
    pub(crate) fn short_key(&mut self) -> Option<Span>
        ensures { ReadsShortKey self.old self.new result }
    {
        if self.failed {
            return None;
        }
        self.scanner.short_key()
    }

    /// Reads any key as a text.
    #[inline(never)]
    pub(crate) fn key_string_slowly(&mut self) -> Result<String>
        ensures { ReadsKeyAs string_key string_bytes self.old self.new result }
    {
        let key = self.find_key()?;
        match self.own_key_text(key.token) {
            Ok(text) => Ok(text),
            Err(e) => self.refuse(e),
        }
    }
}

// What is borrowed from the text.
impl<'de, I: Borrows<'de>> Deserializer<I> {
    /// Takes a key without an escape, or nothing.
    #[inline(always)]
    pub(crate) fn short_key_str(&mut self) -> Option<&'de str>
        ensures { TakesEscapeFreeKey self.old self.new result }
    {
        let span = self.short_key()?;
        Some(self.scanner.borrowed_text_of_span(span))
    }

    /// Reads a key as a text, borrowed where no escape is used.
    #[inline(never)]
    fn key_cow_slowly(&mut self) -> Result<CowStr<'de>>
        ensures { ReadsKeyAs cow_key (λ t. (cow_bytes t, is_borrowed t)) self.old self.new result }
    {
        let key = self.find_key()?;
        Ok(self.borrowed_key_text(key.token))
    }

    /// Reads a key without an escape.
    #[inline(never)]
    fn key_str_slowly(&mut self) -> Result<&'de str>
        ensures { ReadsKeyAs escape_free_key (λ t. t.now) self.old self.new result }
    {
        let key = self.find_key()?;
        match self.borrowed_key_text(key.token) {
            CowStr::Borrowed(text) => Ok(text),
            CowStr::Owned(text) => self.refuse_mismatch(
                key.start,
                &Mismatch::Escaped(text.as_str()),
            ),
        }
    }
}
