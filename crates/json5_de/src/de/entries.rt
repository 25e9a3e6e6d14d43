//! The entries of arrays and objects, elements and members: their brackets, commas and colons, and one element, key or value
//! (JSON5 sections 3 and 4).
//! What is read most is taken by the short ways of the scanner, which return small values, so that the caller's frame holds no
//! fault. Where they find anything else, they take nothing, and the slower calls say what is there.

ghost use Rattle.std.specs.Prelude.{◌≡◌, false, ℕ, List, IfErr, OnOk, IsOk, true};
ghost use Rattle.json5_grammar.specs.Model.Collections.{IsEnd};
ghost use Rattle.json5_de.specs.State.{SameText};
ghost use Rattle.json5_de.specs.Faults.{RefusedBy};
ghost use Rattle.json5_de.specs.DeserializeLaw.{AnswersFailed, answered};
ghost use Rattle.json5_read.specs.Brackets.{brackets_of};
ghost use Rattle.json5_de.specs.Enums.{ClosesLast};
ghost use Rattle.json5_de.specs.ObjectFaults.{PassesColon, BeginsKey, PositionsKey, ReadsKeyAtEntry, ReadsKeyOfMember, ReadsValueOfMember, is_positionless};
ghost use Rattle.json5_de.specs.AccessCalls.{TakesElement};
ghost use Rattle.json5_de.specs.Objects.{CompletesFreeMemberValue, bare_map};
ghost use Rattle.json5_de.specs.Keys.{ReadsKeyOf};
ghost use Rattle.json5_de.specs.KeyPlaces.{ReadKeyBegins};
ghost use Rattle.json5_grammar.specs.Language.Blanks.{Solid};
ghost use Rattle.json5_grammar.specs.Language.Characters.{NotBegun};
ghost use Rattle.json5_types.specs.Errors.{kind_of};
ghost use Rattle.json5_read.specs.Offsets.{StartsAfter};
ghost use Rattle.json5_de.specs.ObjectFaults as faults;

use crate::de::{Deserialize, Deserializer};
use crate::key::{DeserializeKey, MapKey};
use json5_read::brackets::BracketKind;
use json5_read::steps::{advance_to_entry, pass_colon};
use json5_tokens::char::is_json5_identifier_start;
use json5_tokens::input::Input;
use json5_tokens::scanner::ShortStep;
use json5_types::ErrorCode;
use json5_types::error::{Error, Result};

impl<I: Input> Deserializer<I> {
    ghost use Rattle.json5_de.specs.Arrays.{Closed, TakesOpening, NotClosed};
    ghost use Rattle.json5_de.specs.AccessCalls.{TakesClosing, Advances};

    /// Takes an opening bracket, and returns the count of bytes before it.
    #[inline(always)]
    pub(crate) fn open(&mut self, kind: BracketKind) -> Result<usize>
        ensures { TakesOpening (brackets_of kind) self.old self.new result }
    {
        if self.failed || self.level >= 128 {
            return self.open_slowly(kind);
        }
        if !self.scanner.short_sign(kind.brackets().opening as u8) {
            return self.open_slowly(kind);
        }
        self.level += 1;
        Ok(self.scanner.offset().saturating_sub(1))
    }

    /// The same as `open`, whatever is in front.
    #[inline(never)]
    fn open_slowly(&mut self, kind: BracketKind) -> Result<usize>
        ensures { TakesOpening (brackets_of kind) self.old self.new result }
    {
        self.skip_blank()?;
        let brackets = kind.brackets();
        let start = self.offset();
        if !self.eat(brackets.opening) {
            return Err(self.fail_unexpected(brackets.ends, brackets.not_opened));
        }
        if !self.enter_bracket() {
            let error = Error::new_at(self.position_of(start), ErrorCode::TooDeep);
            return self.refuse(error);
        }
        Ok(start)
    }

    /// Goes to the next element or member and gives true, or to the closing bracket and gives false. The error of a refusal is
    /// left in `fault`.
    #[inline(always)]
    pub(crate) fn take_step(
        &mut self,
        kind: BracketKind,
        comma_due: bool,
        fault: &mut Error,
    ) -> Option<bool>
        ensures { Advances (brackets_of kind) comma_due self.old self.new (answered result fault.new) }
    {
        if self.failed {
            return self.take_step_slowly(kind, comma_due, fault);
        }
        match self
            .scanner
            .short_step(kind.brackets().closing as u8, comma_due)
        {
            ShortStep::Entry => Some(true),
            ShortStep::Closing => Some(false),
            ShortStep::Other => self.take_step_slowly(kind, comma_due, fault),
        }
    }

    /// The same as `take_step`, whatever is in front.
    #[inline(never)]
    fn take_step_slowly(
        &mut self,
        kind: BracketKind,
        comma_due: bool,
        fault: &mut Error,
    ) -> Option<bool>
        ensures { Advances (brackets_of kind) comma_due self.old self.new (answered result fault.new) }
    {
        match self.advance_to_entry(kind, comma_due) {
            Ok(more) => Some(more),
            Err(error) => {
                *fault = error;
                None
            }
        }
    }

    /// Goes to the next element or member and returns true, or to the closing bracket and returns false, whatever is in front.
    #[inline(never)]
    pub(crate) fn advance_to_entry(&mut self, kind: BracketKind, comma_due: bool) -> Result<bool>
        ensures { Advances (brackets_of kind) comma_due self.old self.new result }
    {
        self.check_not_failed()?;
        match advance_to_entry(&mut self.scanner, kind, comma_due) {
            Ok(more) => Ok(more),
            Err(e) => self.refuse(e),
        }
    }

    /// Takes the closing bracket in front.
    fn close_bracket(&mut self, kind: BracketKind) -> Result<()>
        ensures { TakesClosing (brackets_of kind) self.old self.new result }
    {
        let brackets = kind.brackets();
        if !self.eat(brackets.closing) {
            return Err(self.fail_unexpected(brackets.ends, brackets.not_closed));
        }
        self.exit_bracket();
        Ok(())
    }

    /// Takes a closing bracket, and before it the comma that may be there.
    pub(crate) fn close(&mut self, kind: BracketKind, comma_due: bool) -> Result<()>
        ensures closed { OnOk result (Closed (brackets_of kind) comma_due self.old self.new) }
        ensures refused { IfErr result (RefusedBy (NotClosed (brackets_of kind) comma_due) self.old) }
        ensures same_text { SameText self.old self.new }
        ensures complete { (r : List ℕ) → self.old.failed ≡ false → IsEnd (brackets_of kind).closing comma_due self.old.unread r → IsOk result }
        ensures before { AnswersFailed self.old result }
    {
        self.skip_blank()?;
        if !comma_due {
            return self.close_bracket(kind);
        }
        if !self.eat(',') {
            return self.close_bracket(kind);
        }
        self.skip_blank()?;
        self.close_bracket(kind)
    }

    /// Takes a closing bracket, and before it the comma that may be there; a refusal is for good.
    #[inline(always)]
    pub(crate) fn close_or_fail(&mut self, kind: BracketKind, comma_due: bool) -> Result<()>
        ensures { ClosesLast (brackets_of kind) comma_due self.old self.new result }
    {
        if self.failed {
            return self.close_slowly(kind, comma_due);
        }
        if !self.scanner.short_sign(kind.brackets().closing as u8) {
            return self.close_slowly(kind, comma_due);
        }
        self.level = self.level.saturating_sub(1);
        Ok(())
    }

    /// The same as `close_or_fail`, whatever is in front.
    #[inline(never)]
    fn close_slowly(&mut self, kind: BracketKind, comma_due: bool) -> Result<()>
        ensures { ClosesLast (brackets_of kind) comma_due self.old self.new result }
    {
        match self.close(kind, comma_due) {
            Ok(()) => Ok(()),
            Err(e) => self.refuse(e),
        }
    }

    /// Takes the colon after a key, whatever is in front.
    #[inline(never)]
    pub(crate) fn pass_colon(&mut self) -> Result<()>
        ensures { PassesColon self.old self.new result }
    {
        self.check_not_failed()?;
        match pass_colon(&mut self.scanner) {
            Ok(()) => Ok(()),
            Err(e) => self.refuse(e),
        }
    }

    /// Takes the colon after a key. The error of a refusal is left in `fault`.
    #[inline(always)]
    pub(crate) fn take_colon(&mut self, fault: &mut Error) -> Option<()>
        ensures { PassesColon self.old self.new (answered result fault.new) }
    {
        if self.failed {
            return self.take_colon_slowly(fault);
        }
        if !self.scanner.short_sign(b':') {
            return self.take_colon_slowly(fault);
        }
        Some(())
    }

    /// The same as `take_colon`, whatever is in front.
    #[inline(never)]
    fn take_colon_slowly(&mut self, fault: &mut Error) -> Option<()>
        ensures { PassesColon self.old self.new (answered result fault.new) }
    {
        match self.pass_colon() {
            Ok(()) => Some(()),
            Err(error) => {
                *fault = error;
                None
            }
        }
    }

    /// Reads the next element of an array, or gives None if the closing bracket is next. The error of a refusal is left in
    /// `fault`.
    #[inline(always)]
    pub(crate) fn take_element<T: Deserialize<I>>(
        &mut self,
        comma_due: bool,
        fault: &mut Error,
    ) -> Option<Option<T>>
        ensures { TakesElement T.content T.convert T.refuses comma_due self.old self.new (answered result fault.new) }
    {
        match self.take_step(BracketKind::Array, comma_due, fault) {
            Some(true) => match T::deserialize(self) {
                Ok(value) => Some(Some(value)),
                Err(error) => {
                    *fault = error;
                    None
                }
            },
            Some(false) => Some(None),
            None => None,
        }
    }

    /// Reads a K from the key that is next.
    #[inline(always)]
    pub(crate) fn read_key<K: DeserializeKey<I>>(&mut self) -> Result<K>
        ensures { ReadsKeyOf K.content K.convert K.refuses self.old self.new result }
    {
        K::deserialize_key(&mut MapKey { de: &mut *self })
    }

    /// Whether a key may begin with what is next.
    #[inline(always)]
    pub(crate) fn at_key(&self) -> bool
        ensures found { result ≡ true → BeginsKey self.now.unread }
        ensures other { result ≡ false → NotBegun faults.begins_key self.now.unread }
    {
        match self.scanner.peek() {
            Some(c) => {
                matches!(c, 'a'..='z' | 'A'..='Z' | '"' | '\'' | '\\')
                    || is_json5_identifier_start(c)
            }
            None => false,
        }
    }

    /// A key that was read at this offset. A fault gets the key's position if it has none and may have one.
    #[inline(always)]
    pub(crate) fn positioned_key<K>(&self, read: Result<K>, start: usize) -> Result<Option<K>>
        ensures { PositionsKey (StartsAfter self.now.input start) read result }
    {
        match read {
            Ok(key) => Ok(Some(key)),
            Err(e) if is_positionless(&e) => Err(e),
            Err(e) => Err(self.with_position_at(start, e)),
        }
    }

    /// The key of the member that begins here. Puts into `start` how many bytes come before it.
    #[inline(always)]
    fn read_entry_key<K: DeserializeKey<I>>(&mut self, start: &mut usize) -> Result<Option<K>>
        ensures reads { ReadsKeyAtEntry K.content K.convert K.refuses self.old self.new result }
        ensures begins { Solid self.old.unread → ReadKeyBegins K.content K.convert start.new self.new.input self.new.unread result }
    {
        let offset = self.scanner.offset();
        *start = offset;
        if !self.at_key() {
            return Err(self.fail_unexpected(
                ErrorCode::EofParsingObject,
                ErrorCode::ExpectedIdentifier,
            ));
        }
        let read = self.read_key::<K>();
        self.positioned_key(read, offset)
    }

    /// Reads the next key of an object, or gives None if the closing brace is next. Puts into `start` how many bytes come before
    /// the key. The error of a refusal is left in `fault`.
    #[inline(always)]
    pub(crate) fn take_member_key<K: DeserializeKey<I>>(
        &mut self,
        comma_due: bool,
        start: &mut usize,
        fault: &mut Error,
    ) -> Option<Option<K>>
        ensures reads { ReadsKeyOfMember K.content K.convert K.refuses comma_due self.old self.new (answered result fault.new) }
        ensures begins { ReadKeyBegins K.content K.convert start.new self.new.input self.new.unread (answered result fault.new) }
    {
        match self.take_step(BracketKind::Object, comma_due, fault) {
            Some(true) => match self.read_entry_key::<K>(start) {
                Ok(key) => Some(key),
                Err(error) => {
                    *fault = error;
                    None
                }
            },
            Some(false) => Some(None),
            None => None,
        }
    }

    /// Reads a colon and the value after a key. The error of a refusal is left in `fault`.
    #[inline(always)]
    pub(crate) fn take_member_value<V: Deserialize<I>>(&mut self, fault: &mut Error) -> Option<V>
        ensures reads { ReadsValueOfMember V.content V.convert V.refuses self.old self.new (answered result fault.new) }
        ensures no_memory { CompletesFreeMemberValue V.convert V.allocation_free (bare_map self.old false true) (answered result fault.new) }
    {
        match self.take_colon(fault) {
            Some(()) => match V::deserialize(self) {
                Ok(value) => Some(value),
                Err(error) => {
                    *fault = error;
                    None
                }
            },
            None => None,
        }
    }
}

/// Whether the fault doesn't get a key's position: the input ended, memory ran out or the reader had failed.
#[cold]
#[inline(never)]
fn is_positionless(error: &Error) -> bool
    ensures { result ≡ is_positionless (kind_of error.now) }
{
    match error.code() {
        Some(code) => matches!(
            code,
            ErrorCode::EofParsingArray
                | ErrorCode::EofParsingBool
                | ErrorCode::EofParsingComment
                | ErrorCode::EofParsingEscapeSequence
                | ErrorCode::EofParsingIdentifier
                | ErrorCode::EofParsingNull
                | ErrorCode::EofParsingNumber
                | ErrorCode::EofParsingObject
                | ErrorCode::EofParsingString
                | ErrorCode::EofParsingValue
                | ErrorCode::OutOfMemory
                | ErrorCode::Failed
        ),
        None => false,
    }
}
