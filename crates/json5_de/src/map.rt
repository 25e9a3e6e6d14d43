//! Reading of objects, one member after another (JSON5 section 3).

ghost use Rattle.std.specs.Prelude.{◌≡◌, true};
ghost use Rattle.std.specs.Borrow.{sem};
ghost use Rattle.json5_tokens.specs.Cursor.{Locates};
ghost use Rattle.json5_de.specs.Arrays.{PositionedAtBracket};
ghost use Rattle.json5_de.specs.Enums.{EndsObject};
ghost use Rattle.json5_de.specs.Objects.{ReadsValueFree};

use crate::de::{Deserialize, Deserializer};
use crate::key::DeserializeKey;
use crate::stage::{AccessStage, Progress};
use json5_read::brackets::BracketKind;
use json5_tokens::input::Input;
use json5_types::error::{Error, Result};
use json5_types::{ErrorCode, Position};
use std::alloc::Global;

/// The members of an object, one after another: a key, then its value.
///
/// `end` closes the object and frees the reader. Until then the reader's own calls return `Failed`; if the access is dropped or
/// leaked before its `end`, they always do. After a call of the access that was refused, every later one returns `Failed`. Equal
/// keys are returned as often as they come.
///
/// ```text
/// let mut map = de.deserialize_map()?;
/// while let Some(name) = map.next_key::<String>()? {
///     let port = map.next_value::<u16>()?;
///     ports.push((name, port))?;
/// }
/// map.end()?;
/// ```
///
/// # Errors
///
/// Every call that reads may return
/// - `ExpectedComment` and `EofParsingComment` for a comment, as in every call of a [`Deserializer`].
/// - `Failed`, after a call of the access that was refused.
pub struct MapAccess<'a, I: Input> {
    pub(crate) de: &'a mut Deserializer<I>,
    /// The count of bytes before the key that was read last.
    pub(crate) key_start: usize,
    pub(crate) progress: Progress,
}

/// Dropped before its end, it leaves the reader blocked.
impl<I: Input> Drop for MapAccess<'_, I> {
    ghost use Rattle.json5_de.specs.Lending.{reader_of_map};

    fn drop(self)
        ensures { self.exit.0.now ≡ reader_of_map self.entry }
    {
        let MapAccess {
            de: _,
            key_start: _,
            progress: _,
        } = self;
    }
}

impl<I: Input> Deserializer<I> {
    ghost use Rattle.json5_de.specs.Lending.{OpensMapAccess, lends_to_map};

    /// Opens an object (JSON5 section 3), and lends the reader to the access that reads its members.
    ///
    /// ```text
    /// let mut map = de.deserialize_map()?;
    /// while let Some(name) = map.next_key::<&str>()? {
    ///     ports.push((name, map.next_value::<u16>()?))?;
    /// }
    /// map.end()?;
    /// ```
    ///
    /// # Errors
    ///
    /// - `ExpectedOpeningBrace` at another character than `{`.
    /// - `TooDeep` at the brace past the limit.
    /// - `EofParsingObject`, without a position, where the text ends.
    /// - The codes of every call: see [`Deserializer`].
    #[inline(always)]
    pub fn deserialize_map(&mut self) -> Result<MapAccess<'_, I>>
        ensures* lends { sem 𝓛 (lends_to_map I.row I.Input self.entry result) }
        ensures opens { OpensMapAccess self.entry self.old result }
    {
        let start = self.open(BracketKind::Object)?;
        self.set_failed(true);
        Ok(MapAccess {
            de: self,
            key_start: start,
            progress: Progress::new(start, None),
        })
    }

    /// Opens an object as [`deserialize_map`](Deserializer::deserialize_map) does, for [`MapAccess::read_fields`]. The name and
    /// the fields change nothing.
    ///
    /// ```text
    /// let mut map = de.deserialize_struct("Settings", &["host", "port"])?;
    /// map.read_fields(&mut found)?;
    /// map.end()?;
    /// ```
    ///
    /// # Errors
    ///
    /// As `deserialize_map`.
    #[inline(always)]
    pub fn deserialize_struct(
        &mut self,
        _name: &'static str,
        _fields: &'static [&'static str],
    ) -> Result<MapAccess<'_, I>>
        ensures* lends { sem 𝓛 (lends_to_map I.row I.Input self.entry result) }
        ensures opens { OpensMapAccess self.entry self.old result }
    {
        self.deserialize_map()
    }
}

impl<'a, I: Input> MapAccess<'a, I> {
    ghost use Rattle.json5_de.specs.Lending.{map_state_of, KeyPending, NoKeyPending, map_brace, ReadsNextKey, ReadsNextValue};

    /// Returns the allocator of the reader.
    ///
    /// ```text
    /// let host = String::from_str(map.allocator(), "localhost")?;
    /// ```
    pub fn allocator(&self) -> Global {
        self.de.allocator()
    }

    /// Reads the key of the next member, and the comma before it. Returns None if the closing brace is next, which `end` takes.
    /// The value of a key has to be read before the next key. Where the key begins is kept: a struct's fields may be read by a
    /// loop of one's own, and [`refuse_key`](MapAccess::refuse_key) makes its fault there.
    ///
    /// ```text
    /// while let Some(name) = map.next_key::<String>()? {    // of `{http: 80}` Some of `http`; after its value None
    ///     fields.read(&mut map, name.as_str())?;
    /// }
    /// ```
    ///
    /// # Errors
    ///
    /// A fault without a position gets that of the opening brace, except those of `K`.
    /// - `ExpectedComma` at a character after a member that is neither a comma nor `}`.
    /// - `ExpectedIdentifier` at a character that begins no key, where one may begin.
    /// - `EofParsingObject` where the text ends after a member or before a key.
    /// - The faults of `K`. One without a position gets that of the key; if its code is `EofParsing..`, `OutOfMemory` or
    ///   `Failed`, it gets that of the opening brace.
    /// - The codes of every call: see [`MapAccess`].
    pub fn next_key<K: DeserializeKey<I>>(&mut self) -> Result<Option<K>>
        requires no_key { NoKeyPending self.old }
        ensures { ReadsNextKey K.content K.convert K.refuses self.old self.new result }
    {
        let mut fault = Error::new(ErrorCode::Failed);
        self.de.set_failed(self.progress.failed);
        let comma_due = self.progress.stage.is_comma_due();
        match self
            .de
            .take_member_key(comma_due, &mut self.key_start, &mut fault)
        {
            Some(key) => {
                self.de.set_failed(true);
                self.progress.stage = self.progress.stage.with_key(key.is_some());
                Ok(key)
            }
            None => Err(self.de.refuse_access(&mut self.progress, fault)),
        }
    }

    /// Reads the colon and the value of the key that was read last.
    ///
    /// ```text
    /// let Some(name) = map.next_key::<&str>()? else {
    ///     return Err(map.place(Error::custom(alloc, "an empty object")?));
    /// };
    /// let port = map.next_value::<u16>()?;    // 80 of `{http: 80}`
    /// ```
    ///
    /// # Errors
    ///
    /// A fault without a position gets that of the opening brace.
    /// - `ExpectedColon` at a character after the key that is no colon.
    /// - `EofParsingObject` where the text ends before the colon.
    /// - The faults of `V`, also where the text ends after the colon.
    /// - The codes of every call: see [`MapAccess`].
    pub fn next_value<V: Deserialize<I>>(&mut self) -> Result<V>
        requires key { KeyPending self.old }
        ensures reads { ReadsNextValue V.content V.convert V.refuses self.old self.new result }
        ensures no_memory { ReadsValueFree V.convert V.allocation_free (map_state_of self.old) result }
    {
        let mut fault = Error::new(ErrorCode::Failed);
        self.de.set_failed(self.progress.failed);
        match self.de.take_member_value::<V>(&mut fault) {
            Some(value) => {
                self.de.set_failed(true);
                self.progress.stage = AccessStage::Started;
                Ok(value)
            }
            None => Err(self.de.refuse_access(&mut self.progress, fault)),
        }
    }

    /// Says whether a key was read and its value wasn't yet. A call that is refused doesn't change it.
    ///
    /// ```text
    /// if map.key_pending() {
    ///     map.skip_value()?;
    /// }
    /// ```
    pub fn key_pending(&self) -> bool
        ensures { result ≡ (map_state_of self.now).pending }
    {
        self.progress.stage.is_pending()
    }

    /// Gives your own fault the position of the opening brace if it has none; a fault that has one stays as it is.
    ///
    /// ```text
    /// return Err(map.place(Error::custom(alloc, "neither a name nor an id")?));
    /// ```
    #[cold]
    #[inline(never)]
    pub fn place(&self, error: Error) -> Error
        ensures { PositionedAtBracket (map_state_of self.now).at error result }
    {
        self.de.with_position_at(self.progress.start, error)
    }

    /// Returns the position of an offset in bytes, such as the `start` of a `Spanned` value: line and column, counted from 0.
    /// If no character begins at the offset, it is the position of the text's end.
    ///
    /// ```text
    /// let port = map.next_value::<Spanned<u16>>()?;
    /// let position = map.position_of(port.start);    // for your own fault at the value
    /// ```
    pub fn position_of(&self, offset: usize) -> Position
        ensures { Locates (map_state_of self.now).at.reader.input offset result }
    {
        self.de.position_of(offset)
    }

    /// Closes the object: takes `}`, and before it the comma that may follow the last member. Then the reader continues after
    /// the brace.
    ///
    /// If the object is the content of a variant, the variant's `}` is taken too, before which one comma may be.
    ///
    /// ```text
    /// map.end()?;    // after the last member of `{http: 80,}`; where one is left, `ExpectedClosingBrace` at it
    /// ```
    ///
    /// # Errors
    ///
    /// - `ExpectedClosingBrace` at another character than `}`, such as that of a member that wasn't read.
    /// - `EofParsingObject`, without a position, where the text ends.
    /// - The codes of every call: see [`MapAccess`].
    ///
    /// `EofParsingComment` and `Failed` have no position either. In a variant a fault without one gets that of the variant's
    /// opening brace, and after the object's own brace come the faults of the variant's: see [`EnumAccess`](crate::EnumAccess).
    #[inline(always)]
    pub fn end(self) -> Result<()>
        requires no_key { NoKeyPending self }
        ensures { EndsObject (map_brace self.entry) (map_state_of self.entry) self.exit.0.now result }
    {
        let MapAccess {
            de,
            key_start: _,
            progress,
        } = self;
        de.end_access(BracketKind::Object, progress)
    }
}
