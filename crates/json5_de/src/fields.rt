//! Fields of a struct, which are read as the members of an object come.

ghost use Rattle.std.specs.Prelude.{◌≡◌, true, false, Some, None, IfOk, OnOk, string_bytes};
ghost use Rattle.std.specs.Str.{chars};
ghost use Rattle.json5_de.specs.Convert.{every_text};
ghost use Rattle.json5_de.specs.AnyTree.{every_value};
ghost use Rattle.json5_de.specs.KeyKinds.{RefusedAsKey, string_key};
ghost use Rattle.json5_de.specs.Keys.{CompletesEscapeFreeKey, ReadsKeyOf};
ghost use Rattle.json5_de.specs.DeserializeLaw.{IsUnprompted};
ghost use Rattle.json5_de.specs.FieldKeys.{IsSpelledIn, ReadsFieldKey, ReadsFieldKeyAtEntry, ReadsNextFieldKey, StandsIn};
ghost use Rattle.json5_de.specs.Fields.{FieldRead, FieldRequired, IsOwnAtBracket, RefusesHere};
ghost use Rattle.json5_de.specs.Objects.{ReadsValueFree};
ghost use Rattle.json5_de.specs.Plans.{PassesMember, ReadsFree, ReadsMembers};
ghost use Rattle.json5_de.specs.TokenKinds.{every_tree};
ghost use Rattle.json5_de.specs.StructFaults.{RefusesMembers};
ghost use Rattle.json5_de.specs.Lending.{map_state_of, at_its_key, beginning_at, RefusesWithOwn, KeepsMap, KeyPending, NoKeyPending, TakesPendingKey};
ghost use Rattle.json5_tokens.specs.ShortTexts.{IsTextAt};
ghost use Rattle.json5_tokens.specs.TextTokens.{IsTextOf};

use crate::de::any::IgnoredAny;
use crate::de::{Deserialize, Deserializer};
use crate::map::MapAccess;
use json5_read::brackets::BracketKind;
use json5_tokens::input::Input;
use json5_tokens::scanner::ShortStep;
use json5_tokens::short_texts::Span;
use json5_tokens::text_token::TextToken;
use json5_types::ErrorCode;
use json5_types::error::{Error, Result};
use std::alloc::Global;
use std::fmt;
use std::marker::Model;

/// The fields of a struct, as far as they were read: what [`MapAccess::read_fields`] fills.
///
/// ```text
/// struct Found { host: Option<String>, port: Option<u16> }
///
/// fn read(&mut self, map: &mut MapAccess<'_, I>, name: &str) -> Result<()> {
///     match name {
///         "host" => map.next_field(name, &mut self.host),
///         "port" => map.next_field(name, &mut self.port),
///         _ => map.skip_value(),
///     }
/// }
/// ```
pub trait Fields<I: Input>: Sized + Drop {
    ghost use Rattle.std.specs.Prelude.{Bool, false, ⊤};
    ghost use Rattle.json5_grammar.specs.Language.Trees.{Tree};
    ghost use Rattle.json5_de.specs.Plans.{Step, TakesMember, TakesFree};
    ghost use Rattle.json5_de.specs.StructFaults.{ValueFaults, RefusesMember};
    ghost use Rattle.json5_de.specs.Lending.{map_state_of, KeepsMap, KeyPending, NoKeyPending, TakesPendingKey, KeyIsNamed};

    // What of them counts.
    ghost Content: { Type 0 };

    ghost content: { Self → Content };

    // What a member changes, by its name and its value.
    ghost step: { Step Content };

    // Which values are read without memory, whatever their names are.
    ghost allocation_free: { Tree → Bool } = { λ _. false };

    // What is known of the refusal of a value, by its name.
    ghost refuses: { ValueFaults } = { λ _ _ _ _. ⊤ };

    /// Reads the value of the key that was read last, which has this name: into its field by `MapAccess::next_field`, or past
    /// it by `MapAccess::skip_value` where there is no such field.
    ///
    /// # Errors
    ///
    /// Those of the call that it makes.
    fn read(&mut self, map: &mut MapAccess<'_, I>, name: &str) -> Result<()>
        requires key { KeyPending map.old }
        requires named { KeyIsNamed name.now map.old }
        ensures access { KeepsMap map.old map.new }
        ensures pending { OnOk result (NoKeyPending map.new) }
        ensures takes { TakesMember step (content self.old) (content self.new) name.now (map_state_of map.old) (map_state_of map.new) result }
        ensures no_memory { TakesFree allocation_free step (content self.old) name.now (map_state_of map.old) result }
        ensures refused { RefusesMember refuses step (content self.old) name.now (map_state_of map.old) result };
}

impl<I: Input> Deserializer<I> {
    /// Reads the next key of an object as `next_key::<String>` does, and keeps its text. Says whether there was one, and
    /// puts into `start` how many bytes come before it. A key without an escape takes no memory.
    #[inline(always)]
    fn read_field_key(
        &mut self,
        comma_due: bool,
        field_key: &mut FieldKey<I>,
        start: &mut usize,
    ) -> Result<bool>
        ensures { ReadsFieldKey comma_due self.old self.new field_key.new start.new result }
    {
        if self.failed {
            return self.read_field_key_slowly(comma_due, field_key, start);
        }
        match self.scanner.short_step(b'}', comma_due) {
            ShortStep::Entry => {}
            ShortStep::Closing => return Ok(false),
            ShortStep::Other => return self.read_field_key_slowly(comma_due, field_key, start),
        }
        *start = self.offset();
        let Some(span) = self.short_key() else {
            return self.read_entry_field_key(field_key, start);
        };
        field_key.put(self.input(), span);
        Ok(true)
    }

    /// The same for anything in front.
    #[inline(never)]
    fn read_field_key_slowly(
        &mut self,
        comma_due: bool,
        field_key: &mut FieldKey<I>,
        start: &mut usize,
    ) -> Result<bool>
        ensures { ReadsFieldKey comma_due self.old self.new field_key.new start.new result }
    {
        match self.advance_to_entry(BracketKind::Object, comma_due) {
            Ok(true) => self.read_entry_field_key(field_key, start),
            Ok(false) => Ok(false),
            Err(e) => Err(e),
        }
    }

    /// Reads a key and keeps its text. One without an escape takes no memory.
    fn find_field_key(&mut self, field_key: &mut FieldKey<I>) -> Result<()>
        ensures reads { ReadsKeyOf (λ _. field_key.new) every_text (RefusedAsKey string_key) self.old self.new result }
        ensures no_memory { CompletesEscapeFreeKey self.old result }
    {
        match self.find_key() {
            Ok(key) => {
                field_key.put_token(self.input(), key.token);
                Ok(())
            }
            Err(e) => Err(e),
        }
    }

    /// Reads the key of the member that begins here, if a key begins it, and keeps its text.
    #[inline(never)]
    fn read_entry_field_key(
        &mut self,
        field_key: &mut FieldKey<I>,
        start: &mut usize,
    ) -> Result<bool>
        ensures { ReadsFieldKeyAtEntry self.old self.new field_key.new start.new result }
    {
        let offset = self.offset();
        *start = offset;
        if !self.at_key() {
            return Err(self.fail_unexpected(
                ErrorCode::EofParsingObject,
                ErrorCode::ExpectedIdentifier,
            ));
        }
        let read = self.find_field_key(field_key);
        match self.positioned_key(read, offset) {
            Ok(key) => Ok(key.is_some()),
            Err(e) => Err(e),
        }
    }
}

impl<'a, I: Input> MapAccess<'a, I> {
    /// A custom fault at the opening brace.
    fn own_fault<D: fmt::Display + Drop>(&self, message: D) -> Error
        ensures own { IsOwnAtBracket (map_state_of self.now).at result }
        ensures unprompted { IsUnprompted result }
    {
        match Error::custom(self.de.allocator(), message) {
            Ok(error) => self.place(error),
            Err(error) => self.place(error),
        }
    }

    /// Refuses the member of the key that was read last: makes a custom fault at the offset, and `Failed` at the opening
    /// brace after a refusal.
    fn refuse_at<D: fmt::Display + Drop>(&mut self, offset: usize, message: D) -> Error
        ensures refused { RefusesWithOwn (beginning_at offset self.old) self.old result self.new }
    {
        self.de.set_failed(true);
        if self.progress.failed {
            return self.place(Error::new(ErrorCode::Failed));
        }
        self.progress.failed = true;
        match Error::custom(self.de.allocator(), message) {
            Ok(error) => self.de.with_position_at(offset, error),
            Err(error) => self.de.with_position_at(offset, error),
        }
    }

    /// Refuses a field that has a value.
    fn duplicate(&mut self, name: &str) -> Error
        ensures refused { RefusesWithOwn (map_state_of self.old).at self.old result self.new }
    {
        self.refuse_at(
            self.progress.start,
            format_args!("duplicate field `{name}`"),
        )
    }

    /// Refuses the member whose key was read last, such as one that the struct doesn't have: makes a custom fault at the key. The
    /// value stays unread, and each later call returns `Failed`.
    ///
    /// ```text
    /// match name {
    ///     "port" => map.next_field(name, &mut self.port),
    ///     _ => Err(map.refuse_key(format_args!("unknown field `{name}`"))),
    /// }
    /// ```
    ///
    /// The fault is `OutOfMemory` there, where a request for memory was refused, and `Failed` at the opening brace after a call
    /// of the access that was refused.
    #[cold]
    #[inline(never)]
    pub fn refuse_key<D: fmt::Display + Drop>(&mut self, message: D) -> Error
        ensures refused { RefusesWithOwn (at_its_key self.old) self.old result self.new }
    {
        self.refuse_at(self.key_start, message)
    }

    /// Reads the value of the key that was read last into this field of a struct. A call that is refused leaves the field as it
    /// was.
    ///
    /// ```text
    /// map.next_field("port", &mut found.port)?;    // Some(80) after the key of `{port: 80}`; a second `port` is refused
    /// ```
    ///
    /// # Errors
    ///
    /// - A custom fault ``duplicate field `name` `` at the opening brace where the field has a value; the second value stays
    ///   unread.
    /// - The codes of [`next_value`](MapAccess::next_value), with its positions.
    pub fn next_field<V: Deserialize<I>>(&mut self, name: &str, field: &mut Option<V>) -> Result<()>
        requires key { KeyPending self.old }
        ensures access { KeepsMap self.old self.new }
        ensures pending { TakesPendingKey self.old self.new result }
        ensures reads { FieldRead V.content V.convert V.refuses (map_state_of self.old) (map_state_of self.new) field.old field.new result }
        ensures no_memory { field.old ≡ None → ReadsValueFree V.convert V.allocation_free (map_state_of self.old) result }
    {
        if field.is_some() {
            return Err(self.duplicate(name));
        }
        match self.next_value::<V>() {
            Ok(value) => {
                *field = Some(value);
                Ok(())
            }
            Err(e) => Err(e),
        }
    }

    /// Passes over the value of the key that was read last, as `next_value::<IgnoredAny>` does.
    ///
    /// ```text
    /// match name {
    ///     "port" => map.next_field(name, &mut self.port),
    ///     _ => map.skip_value(),    // a name that the struct doesn't have
    /// }
    /// ```
    ///
    /// # Errors
    ///
    /// As [`next_value`](MapAccess::next_value), with the faults of a value of any kind.
    pub fn skip_value(&mut self) -> Result<()>
        requires key { KeyPending self.old }
        ensures access { KeepsMap self.old self.new }
        ensures pending { TakesPendingKey self.old self.new result }
        ensures passes { PassesMember (map_state_of self.old) (map_state_of self.new) result }
        ensures no_memory { ReadsValueFree every_value every_tree (map_state_of self.old) result }
        ensures cause { RefusesHere ⟦<IgnoredAny as Deserialize<I>>⟧.refuses (map_state_of self.old) result }
    {
        self.next_value::<IgnoredAny>()?;
        Ok(())
    }

    /// Returns the value of a field that has to be there, once all members are read.
    ///
    /// ```text
    /// let mut map = de.deserialize_struct("Settings", &["host", "port"])?;
    /// map.read_fields(&mut found)?;
    /// let host = map.required_field("host", found.host)?;
    /// map.end()?;
    /// ```
    ///
    /// # Errors
    ///
    /// - A custom fault ``missing field `name` `` at the opening brace where the field has no value.
    /// - `OutOfMemory` there, where a request for memory was refused.
    /// - `Failed` at the opening brace after a call of the access that was refused.
    pub fn required_field<V: Deserialize<I>>(&mut self, name: &str, field: Option<V>) -> Result<V>
        ensures access { KeepsMap self.old self.new }
        ensures found { IfOk result (λ v. field ≡ Some v) }
        ensures value { FieldRequired (map_state_of self.old) (map_state_of self.new) field result }
    {
        self.de.set_failed(true);
        if self.progress.failed {
            return Err(self.place(Error::new(ErrorCode::Failed)));
        }
        match field {
            Some(value) => Ok(value),
            None => {
                self.progress.failed = true;
                Err(self.own_fault(format_args!("missing field `{name}`")))
            }
        }
    }

    /// Reads the next key as `next_key::<String>` does, and keeps its text. Says whether there was one.
    #[inline(always)]
    fn next_field_key(&mut self, field_key: &mut FieldKey<I>) -> Result<bool>
        requires no_key { NoKeyPending self.old }
        ensures { ReadsNextFieldKey self.old self.new field_key.new result }
    {
        self.de.set_failed(self.progress.failed);
        let comma_due = self.progress.stage.is_comma_due();
        match self
            .de
            .read_field_key(comma_due, field_key, &mut self.key_start)
        {
            Ok(given) => {
                self.de.set_failed(true);
                self.progress.stage = self.progress.stage.with_key(given);
                Ok(given)
            }
            Err(e) => Err(self.de.refuse_access(&mut self.progress, e)),
        }
    }

    /// Reads the members of an object into these fields, one after another, up to the closing brace, which `end` takes. A
    /// refusal comes after the members that were read before it.
    ///
    /// ```text
    /// let mut found = Found { host: None, port: None };
    /// let mut map = de.deserialize_struct("Settings", &["host", "port"])?;
    /// map.read_fields(&mut found)?;
    /// map.end()?;
    /// ```
    ///
    /// # Errors
    ///
    /// - The codes of `next_key::<String>`, with its positions.
    /// - The faults of the fields' `read`.
    pub fn read_fields<F: Fields<I>>(&mut self, fields: &mut F) -> Result<()>
        requires no_key { NoKeyPending self.old }
        ensures access { KeepsMap self.old self.new }
        ensures pending { OnOk result (NoKeyPending self.new) }
        ensures reads { ReadsMembers F.step (F.content fields.old) (F.content fields.new) (map_state_of self.old) (map_state_of self.new) result }
        ensures no_memory { ReadsFree F.allocation_free F.step (F.content fields.old) (map_state_of self.old) result }
        ensures refused { RefusesMembers F.step F.refuses (F.content fields.old) (map_state_of self.old) result }
    {
        let mut field_key = FieldKey::new(self.de.allocator(), self.de.input());
        while self.next_field_key(&mut field_key)? {
            fields.read(self, field_key.as_str())?;
        }
        Ok(())
    }
}

/// The key of the member that was read last. One without an escape is compared where it stands in the input; another one is
/// owned.
#[derive(Drop)]
pub(crate) struct FieldKey<I: Input> {
    input: I,
    /// Where the key stands in the input. None if it is owned.
    span: Option<Span>,
    owned: String,
}

impl<I: Input> Model for FieldKey<I> {
    ghost use Rattle.std.specs.Prelude.{ℕ, List};
    ghost use Rattle.json5_de.specs.FieldKeys.{field_key_of, StandsIn};

    ghost Value = { List ℕ };

    ghost view = { λ n. field_key_of (I.text n.input) n.span n.owned };

    ghost invariant = { λ n. StandsIn (I.text n.input) n.span };
}

impl<I: Input> FieldKey<I> {
    /// No key yet.
    pub(crate) fn new(alloc: Global, input: I) -> FieldKey<I> {
        FieldKey {
            input,
            span: None,
            owned: String::new(alloc),
        }
    }

    /// Takes the part of the input at the span as the key.
    #[inline(always)]
    pub(crate) fn put(&mut self, input: I, span: Span)
        requires { StandsIn (I.text input) (Some span) }
        ensures { IsTextAt (chars (I.text input)) span self.new }
    {
        // The goal below needs that the input is UTF-8.
        let _text = input.as_text();
        self.input = input;
        self.span = Some(span);
    }

    /// Takes this key.
    fn put_owned(&mut self, key: String)
        ensures { self.new ≡ string_bytes key }
    {
        self.span = None;
        self.owned = key;
    }

    /// Takes the text of the token as the key.
    fn put_token(&mut self, input: I, token: TextToken)
        requires { IsSpelledIn (I.text input) token }
        ensures { IsTextOf (chars (I.text input)) token self.new }
    {
        match token {
            TextToken::EscapeFree(span) => self.put(input, span),
            TextToken::Escaped(text) => self.put_owned(text),
        }
    }

    /// Its text.
    #[inline(always)]
    pub(crate) fn as_str(&self) -> &str
        ensures { result.now ≡ self.now }
    {
        match self.span {
            Some(span) => &self.input.as_text()[span.start..span.end],
            None => self.owned.as_str(),
        }
    }
}
