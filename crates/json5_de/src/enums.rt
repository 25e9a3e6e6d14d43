//! Reading of enums: the name of a variant, and then its content.

ghost use Rattle.std.specs.Prelude.{◌≡◌, Some, IfOk, true, false, None};
ghost use Rattle.std.specs.Borrow.{sem};
ghost use Rattle.std.specs.List.{position};
ghost use Rattle.std.specs.Str.{bytes_eq};
ghost use Rattle.json5_de.specs.Convert.{names_bytes, index_of};
ghost use Rattle.json5_read.specs.Brackets.{brackets_of};
ghost use Rattle.json5_de.specs.TokenKinds.{RefusedAs, null_kind, every_tree, ReadsAs, variant_kind};
ghost use Rattle.json5_de.specs.Enums.{NamesVariant, ReadsVariant, ReadsInBrace, ClosesContent, TakesContentOpening, OpensTuple, OpensStruct, content_of, unit_content, content_free, FirstCharIs, ReadsOnlyKey, ReadsKeyed, is_left_brace};
ghost use Rattle.json5_grammar.specs.Language.Characters.{NotBegun};
ghost use Rattle.json5_grammar.specs.Language.Strings.{is_quote};
ghost use Rattle.json5_de.specs.State.{GivesUpIfErr};
ghost use Rattle.json5_de.specs.FoundTexts.{JudgesText};
ghost use Rattle.json5_de.specs.ReaderSteps.{IsMismatch};

use crate::de::tokens::FoundText;
use crate::de::{Deserialize, Deserializer};
use crate::map::MapAccess;
use crate::mismatch::Mismatch;
use crate::seq::SeqAccess;
use crate::stage::Progress;
use json5_read::brackets::BracketKind;
use json5_tokens::input::Input;
use json5_tokens::strings::is_quote;
use json5_types::ErrorCode;
use json5_types::error::{Error, Result};

/// The variant of an enum: its name was read, and one of four calls reads its content. The caller chooses the call by
/// `variant`; each of them takes the access.
///
/// Until the content is read the reader's own calls return `Failed`; if the access is dropped or leaked, they always do.
///
/// ```text
/// let access = de.deserialize_enum("Reminder", &["off", "daily", "weekly", "once"])?;
/// match access.variant() {
///     0 => access.unit_variant()?,                                   // 'off', {off: null}
///     1 => hour = access.newtype_variant::<u8>()?,                   // {daily: 7}
///     2 => hours = access.tuple_variant(2)?,                         // {weekly: [1, 7]}
///     _ => once = access.struct_variant(&["day", "hour"])?,          // {once: {day: 'today', hour: 7}}
/// }
/// ```
///
/// # Errors
///
/// Every call that reads content may return
/// - `ExpectedComment` and `EofParsingComment` for a comment, as in every call of a [`Deserializer`].
///
/// Every call but `unit_variant` also
/// - A custom fault at the opening quote of a variant that is a string: it has no content.
///
/// After the content `unit_variant` and `newtype_variant`, and the `end` of the other two, also
/// - `ExpectedClosingBrace` at another character than the variant's `}`.
/// - `EofParsingObject`, without a position, where the text ends before it.
pub struct EnumAccess<'a, I: Input> {
    de: &'a mut Deserializer<I>,
    name: Named,
}

/// Dropped before its content is read, it leaves the reader blocked.
impl<I: Input> Drop for EnumAccess<'_, I> {
    ghost use Rattle.json5_de.specs.Lending.{reader_of_enum};

    fn drop(self)
        ensures { self.exit.0.now ≡ reader_of_enum self.entry }
    {
        let EnumAccess { de: _, name: _ } = self;
    }
}

impl<I: Input> Deserializer<I> {
    ghost use Rattle.json5_de.specs.Lending.{named_state_of, enum_state_of, HoldsEnum, BlocksEnumReader, lends_to_enum};

    /// Reads the name of a variant: a string, or the only key of an object and its colon. The access that it lends the reader
    /// to reads the content. The name of the enum changes nothing.
    ///
    /// ```text
    /// let access = de.deserialize_enum("Shape", &["Circle", "Square"])?;
    /// match access.variant() {
    ///     0 => Ok(Shape::Circle(access.newtype_variant()?)),    // {Circle: 2}
    ///     _ => Ok(Shape::Square(access.newtype_variant()?)),
    /// }
    /// ```
    ///
    /// # Errors
    ///
    /// - `ExpectedStringOrObject` at a character that begins neither.
    /// - `EofParsingValue`, without a position, where the text ends before a value.
    /// - A custom fault that lists the variants, at the opening quote or the key of another name.
    /// - The codes of every call that reads a string: see [`Deserializer`].
    /// - `TooDeep` at the brace past the limit.
    ///
    /// After the brace, where a fault without a position gets that of the brace, also
    /// - `ExpectedIdentifier` at a character that begins no key, `}` among them.
    /// - `ExpectedColon` at a character after the key that is no colon.
    /// - `EofParsingObject` where the text ends before the key or the colon.
    /// - The codes of a key: see [`MapKey`](crate::MapKey).
    pub fn deserialize_enum(
        &mut self,
        _name: &'static str,
        variants: &'static [&'static str],
    ) -> Result<EnumAccess<'_, I>>
        ensures* lends { sem 𝓛 (lends_to_enum I.row I.Input self.entry result) }
        ensures same_reference { IfOk result (HoldsEnum self.entry) }
        ensures blocks { IfOk result BlocksEnumReader }
        ensures names { NamesVariant (names_bytes variants.now) enum_state_of self.old result }
    {
        let name = self.named(variants)?;
        self.set_failed(true);
        Ok(EnumAccess { de: self, name })
    }

    /// Takes the closing bracket of a variant's content, and then the variant's brace, which begins at this offset. A fault of
    /// the bracket without a position gets that of the brace.
    pub(crate) fn close_content(
        &mut self,
        kind: BracketKind,
        comma_due: bool,
        brace: usize,
    ) -> Result<()>
        ensures { ClosesContent (brackets_of kind) comma_due brace self.old self.new result }
    {
        match self.close_or_fail(kind, comma_due) {
            Ok(()) => self.close_or_fail(BracketKind::Object, true),
            Err(e) => Err(self.with_position_at(brace, e)),
        }
    }

    /// Opens the content of a variant, which is an array or an object. A fault without a position gets that of the variant's brace;
    /// a string has no content.
    fn open_content(&mut self, kind: BracketKind, name: &Named, expected: &str) -> Result<usize>
        ensures { TakesContentOpening (brackets_of kind) (named_state_of self.old name.now) self.new result }
    {
        if !name.has_content {
            return self.refuse_mismatch(name.start, &Mismatch::WithoutContent(expected));
        }
        match self.open(kind) {
            Ok(start) => Ok(start),
            Err(e) => Err(self.with_position_at(name.start, e)),
        }
    }

    /// Reads the content of a variant and the closing brace. A fault of the content without a position gets that of the opening
    /// brace.
    fn in_brace<T: Deserialize<I>>(&mut self, start: usize) -> Result<T>
        ensures { ReadsInBrace T.content T.convert T.allocation_free T.refuses start self.old self.new result }
    {
        match T::deserialize(self) {
            Ok(value) => {
                self.close_or_fail(BracketKind::Object, true)?;
                Ok(value)
            }
            Err(e) => {
                let error = self.with_position_at(start, e);
                self.refuse(error)
            }
        }
    }

    /// Reads the content of a variant whose name was read, as [`EnumAccess::unit_variant`] does.
    #[doc(hidden)]
    pub fn unit_content(&mut self, name: Named) -> Result<()>
        ensures { ReadsVariant (λ _. tt) unit_content (content_free every_tree) (RefusedAs null_kind) (named_state_of self.old name) self.new result }
    {
        if !name.has_content {
            return Ok(());
        }
        self.in_brace::<()>(name.start)
    }

    /// The same, as [`EnumAccess::newtype_variant`] does.
    #[doc(hidden)]
    pub fn newtype_content<T: Deserialize<I>>(&mut self, name: Named) -> Result<T>
        ensures { ReadsVariant T.content (content_of T.convert) (content_free T.allocation_free) T.refuses (named_state_of self.old name) self.new result }
    {
        if !name.has_content {
            return self.refuse_mismatch(name.start, &Mismatch::WithoutContent("newtype"));
        }
        self.in_brace(name.start)
    }

    /// Takes the only key of an object, one of the variants, and its colon.
    fn read_only_key(&mut self, variants: &[&str]) -> Result<usize>
        ensures { ReadsOnlyKey (names_bytes variants.now) self.old self.new result }
    {
        self.skip_blank()?;
        if !self.at_key() {
            return Err(self.fail_unexpected(
                ErrorCode::EofParsingObject,
                ErrorCode::ExpectedIdentifier,
            ));
        }
        let key = self.find_key()?;
        let variant = self.variant_of(&key, variants)?;
        self.pass_colon()?;
        Ok(variant)
    }

    /// Opens an object and takes its only key and the colon. After the brace a fault without a position gets that of the brace.
    fn read_keyed_variant(&mut self, variants: &[&str]) -> Result<usize>
        ensures { ReadsKeyed (names_bytes variants.now) self.old self.new result }
    {
        let start = self.open(BracketKind::Object)?;
        match self.read_only_key(variants) {
            Ok(variant) => Ok(variant),
            Err(e) => Err(self.with_position_at(start, e)),
        }
    }

    /// Whether a string is next.
    fn at_text(&self) -> bool
        ensures found { result ≡ true → FirstCharIs is_quote self.now.unread }
        ensures other { result ≡ false → NotBegun is_quote self.now.unread }
    {
        match self.scanner.peek() {
            Some(c) => is_quote(c),
            None => false,
        }
    }

    /// Whether an object is next.
    fn at_object(&self) -> bool
        ensures found { result ≡ true → FirstCharIs is_left_brace self.now.unread }
        ensures other { result ≡ false → NotBegun is_left_brace self.now.unread }
    {
        match self.scanner.peek() {
            Some(c) => c == '{',
            None => false,
        }
    }

    /// Reads the name of a variant, a string or the only key of an object.
    #[doc(hidden)]
    pub fn named(&mut self, variants: &[&str]) -> Result<Named>
        ensures names { NamesVariant (names_bytes variants.now) (named_state_of self.new) self.old result }
        ensures failed { GivesUpIfErr self.old self.new result }
    {
        self.skip_blank()?;
        let start = self.offset();
        if self.at_text() {
            let variant = self.deserialize_variant(variants)?;
            return Ok(Named {
                start,
                variant,
                has_content: false,
            });
        }
        if self.at_object() {
            let variant = self.read_keyed_variant(variants)?;
            return Ok(Named {
                start,
                variant,
                has_content: true,
            });
        }
        Err(self.fail_unexpected(
            ErrorCode::EofParsingValue,
            ErrorCode::ExpectedStringOrObject,
        ))
    }

    /// Reads a string that is one of the variants, and returns its index among them, counted from 0; of equal names it is the
    /// first. A string without an escape takes no memory.
    ///
    /// ```text
    /// let levels = ["low", "middle", "high"];
    /// let level = de.deserialize_variant(&levels)?;    // 2 for 'high'
    /// ```
    ///
    /// # Errors
    ///
    /// - A custom fault that lists the variants, at the opening quote of any other string.
    /// - The codes of every call that reads a string: see [`Deserializer`].
    pub fn deserialize_variant(&mut self, variants: &[&str]) -> Result<usize>
        ensures { ReadsAs (variant_kind (names_bytes variants.now)) (λ n. n) self.old self.new result }
    {
        let string = self.find_string()?;
        self.variant_of(&string, variants)
    }

    /// The first index of a found text among the variants; if it is none of them, a custom fault at its start.
    pub(crate) fn variant_of(&mut self, found: &FoundText, variants: &[&str]) -> Result<usize>
        ensures { JudgesText false None (index_of (names_bytes variants.now)) (λ n. n) found.now self.old self.new result }
    {
        let name = self.token_text(&found.token);
        let Some(place) = index_of(variants, name) else {
            let error = self.unknown_variant(found, name, variants);
            return self.refuse(error);
        };
        Ok(place)
    }

    /// The fault of a string that is none of the variants.
    fn unknown_variant(&self, found: &FoundText, name: &str, variants: &[&str]) -> Error
        ensures { IsMismatch self.now.input found.now.start result }
    {
        self.mismatch_at(found.start, &Mismatch::UnknownVariant(name, variants))
    }
}

impl<'a, I: Input> EnumAccess<'a, I> {
    ghost use Rattle.json5_de.specs.Lending.{state_of, map_state_of, enum_state_of, reader_of, HoldsBlocked, HoldsMapBlocked, lends_reader, lends_to_map};

    /// Returns the index of the name among the variants, counted from 0; of equal names it is the first.
    ///
    /// ```text
    /// match access.variant() {
    ///     0 => access.unit_variant()?,                    // the first of the names
    ///     _ => hour = access.newtype_variant::<u8>()?,
    /// }
    /// ```
    pub fn variant(&self) -> usize
        ensures { result ≡ (enum_state_of self.now).variant }
    {
        self.name.variant
    }

    /// Reads a variant without content. If its name was a string, nothing more is read; in an object `null` and `}` are, before
    /// which one comma may be. Takes no memory.
    ///
    /// ```text
    /// access.unit_variant()?    // 'off', {off: null}
    /// ```
    ///
    /// # Errors
    ///
    /// - The faults of [`deserialize_unit`](Deserializer::deserialize_unit); one without a position gets that of the opening
    ///   brace.
    /// - The codes of every call: see [`EnumAccess`].
    pub fn unit_variant(self) -> Result<()>
        ensures { ReadsVariant (λ _. tt) unit_content (content_free every_tree) (RefusedAs null_kind) (enum_state_of self.entry) self.exit.0.now result }
    {
        let EnumAccess { de, name } = self;
        de.set_failed(false);
        de.unit_content(name)
    }

    /// Reads a variant that holds a `T`: the value and `}`, before which one comma may be.
    ///
    /// ```text
    /// access.newtype_variant::<u8>()?    // {daily: 7}
    /// ```
    ///
    /// # Errors
    ///
    /// - The faults of `T`; one without a position gets that of the opening brace.
    /// - The codes of every call: see [`EnumAccess`].
    pub fn newtype_variant<T: Deserialize<I>>(self) -> Result<T>
        ensures { ReadsVariant T.content (content_of T.convert) (content_free T.allocation_free) T.refuses (enum_state_of self.entry) self.exit.0.now result }
    {
        let EnumAccess { de, name } = self;
        de.set_failed(false);
        de.newtype_content(name)
    }

    /// Opens the array that is a variant's content. The `end` of the access closes the array and the variant's object. The
    /// length changes nothing.
    ///
    /// ```text
    /// let mut seq = access.tuple_variant(2)?;    // {weekly: [1, 7]}
    /// ```
    ///
    /// # Errors
    ///
    /// A fault without a position gets that of the variant's opening brace.
    /// - `ExpectedOpeningBracket` at another character than `[`.
    /// - `TooDeep` at the bracket past the limit.
    /// - `EofParsingArray` where the text ends.
    /// - The codes of every call: see [`EnumAccess`].
    pub fn tuple_variant(self, _length: usize) -> Result<SeqAccess<'a, I>>
        ensures* lends { sem 𝓛 (lends_reader I.row I.Input (reader_of self.entry) result) }
        ensures held { IfOk result (HoldsBlocked (reader_of self.entry) (Some (enum_state_of self.entry).start)) }
        ensures opens { OpensTuple state_of (enum_state_of self.entry) result }
    {
        let EnumAccess { de, name } = self;
        de.set_failed(false);
        let start = de.open_content(BracketKind::Array, &name, "tuple")?;
        de.set_failed(true);
        Ok(SeqAccess {
            de,
            progress: Progress::new(start, Some(name.start)),
        })
    }

    /// Opens the object that is a variant's content. The `end` of the access closes the object and the variant's own. The
    /// fields change nothing.
    ///
    /// ```text
    /// let mut map = access.struct_variant(&["day", "hour"])?;    // {once: {day: 'today', hour: 7}}
    /// ```
    ///
    /// # Errors
    ///
    /// A fault without a position gets that of the variant's opening brace.
    /// - `ExpectedOpeningBrace` at another character than `{`.
    /// - `TooDeep` at the brace past the limit.
    /// - `EofParsingObject` where the text ends.
    /// - The codes of every call: see [`EnumAccess`].
    pub fn struct_variant(self, _fields: &'static [&'static str]) -> Result<MapAccess<'a, I>>
        ensures* lends { sem 𝓛 (lends_to_map I.row I.Input (reader_of self.entry) result) }
        ensures held { IfOk result (HoldsMapBlocked (reader_of self.entry) (Some (enum_state_of self.entry).start)) }
        ensures opens { OpensStruct map_state_of (enum_state_of self.entry) result }
    {
        let EnumAccess { de, name } = self;
        de.set_failed(false);
        let start = de.open_content(BracketKind::Object, &name, "struct")?;
        de.set_failed(true);
        Ok(MapAccess {
            de,
            key_start: start,
            progress: Progress::new(start, Some(name.start)),
        })
    }
}

/// The name of a variant that was read.
#[doc(hidden)]
#[derive(Drop)]
pub struct Named {
    /// The count of bytes before the string or the opening brace.
    pub(crate) start: usize,
    /// The first index of the name among the variants.
    pub variant: usize,
    /// Whether the name is a key, whose value is the content.
    pub(crate) has_content: bool,
}

/// Returns the first index of the name among these, counted from 0.
pub(crate) fn index_of(names: &[&str], name: &str) -> Option<usize>
    ensures { result ≡ position (λ n. bytes_eq n.now name.now) names.now }
{
    names.iter().position(|other| *other == name)
}
