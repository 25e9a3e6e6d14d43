//! The steps of the format.

use crate::fault::{Fault, Saying, Wanted};
use crate::floats::nearest;
use crate::raw::is_raw_text;
use crate::reader::{Json5, Saved, Step};
use crate::texts::{literal_in, truth_in};
use fast_float::FastFloat;
use json5_grammar::error_code::ErrorCode;
use json5_read::brackets::BracketKind;
use json5_read::kinds::Literal;
use json5_types::cow_str::CowStr;
use serde::{Format, Kind, Name};
use std::alloc::Global;

impl<'t> Json5<'t> {
    /// An integer that has no short way.
    #[inline(never)]
    fn long_i64(&mut self) -> Step<i64> {
        if let Some(n) = self.whole()?.as_i128() {
            if let Ok(n) = i64::try_from(n) {
                return Ok(n);
            }
        }
        Err(Fault::Misfit(Wanted::InRange, self.last))
    }

    /// An integer that has no short way.
    #[inline(never)]
    fn long_u64(&mut self) -> Step<u64> {
        if let Some(n) = self.whole()?.as_u128() {
            if let Ok(n) = u64::try_from(n) {
                return Ok(n);
            }
        }
        Err(Fault::Misfit(Wanted::InRange, self.last))
    }

    fn float<F: FastFloat>(&mut self) -> Step<F> {
        match self.short_digits() {
            Some(digits) => match fast_float::parse::<F, _>(digits) {
                Ok(x) => Ok(x),
                Err(_) => Err(Fault::Misfit(Wanted::Another, self.last)),
            },
            None => self.long_float(),
        }
    }

    /// A float that has no short way.
    #[inline(never)]
    fn long_float<F: FastFloat>(&mut self) -> Step<F> {
        let read = if self.at_key {
            let (number, text) = self.number_key()?;
            nearest(&number, text.as_str().trim())
        } else {
            let number = self.number()?;
            nearest(&number, self.digits())
        };
        match read {
            Some(x) => Ok(x),
            None => Err(Fault::Misfit(Wanted::Another, self.last)),
        }
    }

    /// The step to the first key of an object that is no struct's: an enum's, as a rule.
    #[inline(never)]
    fn first_key(&mut self, names: &[Name<'_>]) -> Step<Option<usize>> {
        self.at_map = false;
        let start = self.walk.offset();
        if let Some(key) = self.walk.short_key() {
            self.last = start;
            return Ok(Some(self.found_name(names, key)));
        }
        self.long_next_key(names)
    }

    /// A step to a key that has no short way.
    #[inline(never)]
    fn long_next_key(&mut self, names: &[Name<'_>]) -> Step<Option<usize>> {
        if self.short_end().is_some() || !self.goes_on(BracketKind::Object)? {
            self.ended(names);
            return Ok(None);
        }
        let key = self.key()?;
        Ok(Some(self.found_name(names, key.as_str())))
    }

    /// A text that has no short way.
    #[inline(never)]
    fn long_string(&mut self, alloc: Global) -> Step<String> {
        match self.cow()? {
            CowStr::Owned(text) => Ok(text),
            CowStr::Borrowed(text) => match String::from_str(alloc, text) {
                Ok(text) => Ok(text),
                Err(_) => Err(self.no_memory()),
            },
        }
    }
}

impl<'t> Format for Json5<'t> {
    type Error = Fault;

    type Mark = usize;

    fn bool(&mut self, _input: &[u8]) -> Step<bool> {
        if self.at_key {
            let key = self.key()?;
            return match truth_in(self.alloc, key.as_str()) {
                Ok(truth) => Ok(truth),
                Err(error) => Err(self.no_text(error)),
            };
        }
        self.begin()?;
        let truth = self.walk.peek() != Some('f');
        self.word(if truth { Literal::True } else { Literal::False })?;
        Ok(truth)
    }

    #[inline(always)]
    fn i64(&mut self, _input: &[u8]) -> Step<i64> {
        if let Some(n) = self.short_whole(i64::MIN as i128, i64::MAX as i128) {
            if let Ok(n) = i64::try_from(n) {
                return Ok(n);
            }
        }
        self.long_i64()
    }

    #[inline(always)]
    fn u64(&mut self, _input: &[u8]) -> Step<u64> {
        if let Some(n) = self.short_whole(0, u64::MAX as i128) {
            if let Ok(n) = u64::try_from(n) {
                return Ok(n);
            }
        }
        self.long_u64()
    }

    fn i128(&mut self, _input: &[u8]) -> Step<i128> {
        match self.whole()?.as_i128() {
            Some(n) => Ok(n),
            None => Err(Fault::Misfit(Wanted::InRange, self.last)),
        }
    }

    fn u128(&mut self, _input: &[u8]) -> Step<u128> {
        match self.whole()?.as_u128() {
            Some(n) => Ok(n),
            None => Err(Fault::Misfit(Wanted::InRange, self.last)),
        }
    }

    fn f32(&mut self, _input: &[u8]) -> Step<f32> {
        self.float()
    }

    fn f64(&mut self, _input: &[u8]) -> Step<f64> {
        self.float()
    }

    fn char(&mut self, _input: &[u8]) -> Step<char> {
        let text = self.cow()?;
        let mut rest = text.as_str().chars();
        match rest.next() {
            Some(c) if rest.as_str().is_empty() => Ok(c),
            _ => Err(Fault::Misfit(Wanted::Character, self.last)),
        }
    }

    // Text with an escape does not stand in the input as it reads. A key may have no quotes.
    fn plain_str(&mut self, _input: &[u8]) -> Step<(usize, usize)> {
        match self.cow()? {
            CowStr::Borrowed(text) => {
                let is_quoted = matches!(self.begins(self.last), Some(Kind::Str));
                let start = self.last.saturating_add(is_quoted as usize);
                Ok((start, start.saturating_add(text.len())))
            }
            CowStr::Owned(_) => Err(Fault::Misfit(Wanted::BorrowedText, self.last)),
        }
    }

    // No bytes stand in the input as they read. But the text of a value does, where it was asked for.
    fn plain_bytes(&mut self, _input: &[u8]) -> Step<(usize, usize)> {
        let is_raw = self.at_raw;
        self.at_raw = false;
        self.pass()?;
        if is_raw {
            Ok((self.last, self.walk.offset()))
        } else {
            Err(Fault::BorrowedBytes(self.last))
        }
    }

    #[inline(always)]
    fn string(&mut self, alloc: Global, _input: &[u8]) -> Step<String> {
        let Some(text) = self.short_text() else {
            return self.long_string(alloc);
        };
        match String::from_str(alloc, text) {
            Ok(text) => Ok(text),
            Err(_) => Err(self.no_memory()),
        }
    }

    // Hexadecimal digits.
    fn byte_buf(&mut self, alloc: Global, _input: &[u8]) -> Step<Vec<u8>> {
        let text = self.cow()?;
        match hex::decode(alloc, text.as_str()) {
            Ok(bytes) => Ok(bytes),
            Err(hex::FromHexError::OutOfMemory) => Err(self.no_memory()),
            Err(_) => Err(Fault::Text(ErrorCode::InvalidBytes, self.last)),
        }
    }

    fn peek(&mut self, _input: &[u8]) -> Step<Kind> {
        if self.at_key {
            return Ok(Kind::Str);
        }
        self.begin()?;
        match self.begins(self.last) {
            Some(Kind::Float) => Ok(self.kind_of_number()),
            Some(kind) => Ok(kind),
            None if self.asked == self.last => Ok(Kind::Unit),
            None => Err(self.ends_or(ErrorCode::EofParsingValue, ErrorCode::ExpectedValue)),
        }
    }

    fn take_unit(&mut self, _input: &[u8]) -> Step<bool> {
        if self.at_key {
            let before = self.walk.fork();
            let key = self.key()?;
            if literal_in(self.alloc, key.as_str(), Literal::Null).is_ok() {
                return Ok(true);
            }
            self.walk = before;
            self.at_key = true;
        } else {
            self.begin()?;
            if self.walk.peek() == Some('n') {
                self.word(Literal::Null)?;
                return Ok(true);
            }
        }
        self.wanted = Wanted::Null;
        Ok(false)
    }

    // A key is never `None`.
    fn take_none(&mut self, input: &[u8]) -> Step<bool> {
        if self.at_key {
            return Ok(false);
        }
        if self.take_unit(input)? {
            return Ok(true);
        }
        if self.walk.peek().is_none() {
            return Err(Fault::coded(ErrorCode::EofParsingValue, self.bracket()));
        }
        self.hold();
        Ok(false)
    }

    fn begin_seq(&mut self, _input: &[u8]) -> Step<()> {
        self.open(BracketKind::Array)
    }

    #[inline(always)]
    fn next_item(&mut self, _input: &[u8]) -> Step<bool> {
        if let Some(comes) = self.short_on() {
            return Ok(comes);
        }
        self.goes_on(BracketKind::Array)
    }

    fn end_tuple(&mut self, _input: &[u8]) -> Step<()> {
        if self.short_end().is_some() {
            return Ok(());
        }
        self.gap()?;
        if self.walk.comma() {
            self.gap()?;
        }
        if self.close() {
            return Ok(());
        }
        let brackets = BracketKind::Array.brackets();
        Err(self.ends_or(brackets.ends, brackets.not_closed))
    }

    fn begin_map(&mut self, _input: &[u8]) -> Step<()> {
        self.at_map = true;
        self.open(BracketKind::Object)
    }

    // A struct is an object alone.
    #[inline(always)]
    fn begin_struct(&mut self, _input: &[u8]) -> Step<bool> {
        self.at_map = false;
        self.open(BracketKind::Object)?;
        Ok(false)
    }

    #[inline(always)]
    fn next_key(&mut self, _input: &[u8], names: &[Name<'_>]) -> Step<Option<usize>> {
        if !self.is_comma_due() {
            if self.at_map {
                return self.first_key(names);
            }
        } else if !self.walk.comma() {
            if self.close() {
                self.ended(names);
                return Ok(None);
            }
            return self.long_next_key(names);
        }
        let start = self.walk.offset();
        if let Some(key) = self.walk.short_key() {
            self.last = start;
            return Ok(Some(self.found(names, key)));
        }
        self.long_next_key(names)
    }

    fn next_entry(&mut self, _input: &[u8]) -> Step<bool> {
        let comes = match self.short_on() {
            Some(comes) => comes,
            None => self.goes_on(BracketKind::Object)?,
        };
        self.at_key = comes;
        Ok(comes)
    }

    fn variant(&mut self, _input: &[u8], names: &[Name<'_>]) -> Step<usize> {
        if is_raw_text(names) {
            self.at_raw = true;
            return Ok(0);
        }
        if let Some(name) = self.short_text() {
            return Ok(self.found_variant(names, name));
        }
        self.hold();
        let name = self.cow()?;
        Ok(self.found_variant(names, name.as_str()))
    }

    fn skip(&mut self, _input: &[u8]) -> Step<()> {
        self.pass()
    }

    fn mark(&mut self) -> usize {
        if !self.at_key {
            self.past_colon();
        }
        self.stand();
        let saved = Saved {
            walk: self.walk.fork(),
            at_key: self.at_key,
        };
        if self.marks.push(saved).is_err() {
            self.is_full = true;
            return usize::MAX;
        }
        self.marks.len() - 1
    }

    fn rewind(&mut self, mark: usize) {
        self.marks.truncate(mark.saturating_add(1));
        match self.marks.get(mark) {
            Some(saved) => {
                let (walk, at_key) = (saved.walk.fork(), saved.at_key);
                self.walk = walk;
                self.at_key = at_key;
                self.stand();
            }
            None => self.walk.give_up(),
        }
    }

    fn release(&mut self, mark: usize) {
        self.marks.truncate(mark);
    }

    // Whether the text is no document, or memory ran out.
    fn is_fatal(&self, error: &Fault) -> bool {
        if error.is_of_type() {
            return false;
        }
        match error.code(self.last) {
            Some((code, at)) => !self.may_be_another(code, at),
            None => true,
        }
    }

    fn missing(&self, name: &str) -> Fault {
        self.said(Saying::Missing, self.closed, self.key_of(name))
    }

    fn duplicate(&self, name: &str) -> Fault {
        self.said(
            Saying::Duplicate,
            self.past_blanks(self.last),
            self.kept(name),
        )
    }

    fn unknown_key(&self) -> Fault {
        self.said(
            Saying::UnknownKey,
            self.past_blanks(self.last),
            self.expected(),
        )
    }

    fn unknown_variant(&self) -> Fault {
        self.said(
            Saying::UnknownVariant,
            self.past_blanks(self.unknown_variant_at()),
            self.expected(),
        )
    }

    fn wrong_len(&self) -> Fault {
        Fault::WrongLength(self.closed)
    }

    fn invalid(&self) -> Fault {
        if self.lacks_content() {
            return self.missing("");
        }
        let at = self.past_blanks(self.last);
        match self.wanted {
            Wanted::Null if self.at_key => Fault::Text(ErrorCode::ExpectedNull, at),
            Wanted::Null => self.ends_or(ErrorCode::EofParsingNull, ErrorCode::ExpectedNull),
            wanted => Fault::Misfit(wanted, at),
        }
    }

    fn no_memory(&self) -> Fault {
        Fault::Bare(ErrorCode::OutOfMemory)
    }

    fn custom(&self, message: &str) -> Fault {
        self.said(
            Saying::Custom,
            self.past_blanks(self.last),
            self.kept(message),
        )
    }
}
