//! The reader behind the steps of a format.

ghost use Rattle.std.specs.Prelude.{OnOk};
ghost use Rattle.json5_walk.specs.Walks.{IsDocumentWithin};

use crate::fault::{Fault, Long, Saying, Wanted};
use crate::names::{find_field, find_name, key_of, list_of};
use crate::texts::{is_of_digits, number_in};
use json5_grammar::error_code::ErrorCode;
use json5_read::brackets::BracketKind;
use json5_read::kinds::Literal;
use json5_read::skip::skip_value;
use json5_tokens::scanner::Scanner;
use json5_types::cow_str::CowStr;
use json5_types::error::{Error, Result};
use json5_types::nesting::Limit;
use json5_types::number::Number;
use json5_types::whole::Whole;
use json5_walk::next::Next;
use json5_walk::walk::Walk;
use serde::{Kind, Name};
use std::alloc::Global;

pub(crate) type Step<T> = std::result::Result<T, Fault>;

/// JSON5 as a format of serde's: a walk over the text, and what its steps need to know besides.
#[derive(Drop)]
pub(crate) struct Json5<'t> {
    pub(crate) alloc: Global,
    pub(crate) walk: Walk<'t>,
    /// Where a step may come back to.
    pub(crate) marks: Vec<Saved<'t>>,
    /// Whether memory for a mark was refused.
    pub(crate) is_full: bool,
    /// Whether the next value is a key.
    pub(crate) at_key: bool,
    /// Whether the text of the next value is asked for.
    pub(crate) at_raw: bool,
    /// Whether an object that is no struct's was opened, and none of its keys is read yet.
    pub(crate) at_map: bool,
    /// Where the last value or key begins, or the blanks before it.
    pub(crate) last: usize,
    /// Where the bracket begins that was closed last.
    pub(crate) closed: usize,
    /// What the value that is next isn't, where a step asked.
    pub(crate) wanted: Wanted,
    /// Where the last name stands that was none of those asked for, or the blanks before it.
    pub(crate) unknown: usize,
    /// Where the last value stands that named no variant. It may be the tag of an object, whose other keys are read after it.
    no_variant: usize,
    /// Where the last value of an `Option`, or the last name of a variant, begins, or the blanks before it: a text that
    /// ends in it is at fault there.
    held: usize,
    /// Where an unknown name stands, or a bracket without a field, of which the fault is to tell more. Only a text that
    /// was refused is read for that; else it is `usize::MAX`.
    pub(crate) asked: usize,
    /// The name of the field that is missing there, as it stands in Rust or is renamed.
    field: Option<String>,
    /// The names that were expected there, or the key of that field.
    expected: Option<String>,
}

#[derive(Drop)]
pub(crate) struct Saved<'t> {
    pub(crate) walk: Walk<'t>,
    pub(crate) at_key: bool,
}

impl<'t> Json5<'t> {
    pub(crate) fn new(alloc: Global, limit: Limit, text: &'t str) -> Json5<'t> {
        Json5 {
            alloc,
            walk: Walk::new(alloc, text, limit),
            marks: Vec::new(alloc),
            is_full: false,
            at_key: false,
            at_raw: false,
            at_map: false,
            last: 0,
            closed: 0,
            wanted: Wanted::Another,
            unknown: 0,
            no_variant: 0,
            held: usize::MAX,
            asked: usize::MAX,
            field: None,
            expected: None,
        }
    }

    /// The same over a text that was refused, to tell more of its fault. None where a second reading tells no more.
    pub(crate) fn asking(
        limit: Limit,
        text: &'t str,
        first: &Json5<'_>,
        fault: &Fault,
    ) -> Option<Json5<'t>> {
        let (asked, field) = match fault.said()? {
            (Saying::UnknownVariant | Saying::UnknownKey, at, _) => (at, None),
            (Saying::Missing, at, name) => (at, first.kept(name)),
            _ => return None,
        };
        let mut format = Json5::new(first.alloc, limit, text);
        format.asked = asked;
        format.field = field;
        Some(format)
    }

    /// Where the innermost bracket begins that is open.
    pub(crate) fn bracket(&self) -> Option<usize> {
        match self.walk.innermost() {
            Some(bracket) => Some(bracket.start),
            None => None,
        }
    }

    /// A fault of the walk's, or else at the innermost bracket. Its place isn't computed here, so that a try that fails is cheap.
    #[cold]
    #[inline(never)]
    pub(crate) fn scanned(&self, error: Error) -> Fault {
        if let Some(ErrorCode::Failed) = error.code() {
            if self.is_full {
                return Fault::Bare(ErrorCode::OutOfMemory);
            }
            return Fault::Misplaced(self.walk.offset());
        }
        let long = match error.position() {
            Some(_) => Long::Scanned(error, self.walk.base()),
            None => Long::Scanned(self.walk.located(error), 0),
        };
        Fault::long(self.alloc, long)
    }

    /// The first code at the innermost bracket where the text ends, else the second one here.
    #[cold]
    #[inline(never)]
    pub(crate) fn ends_or(&self, ends: ErrorCode, differs: ErrorCode) -> Fault {
        if self.walk.peek().is_none() {
            Fault::coded(ends, self.bracket())
        } else {
            Fault::Code(differs, self.walk.offset())
        }
    }

    /// A fault of the walk's in a value or a key: where the text ends in one that is held, at its own place.
    #[cold]
    #[inline(never)]
    fn broken(&self, error: Error) -> Fault {
        let is_held = self.held != usize::MAX && self.past_blanks(self.held) == self.last;
        match (error.position(), error.code()) {
            (_, Some(ErrorCode::Failed)) => self.scanned(error),
            (None, Some(code)) if is_held => Fault::Code(code, self.last),
            _ => self.scanned(error),
        }
    }

    /// Notes that a value or a name of a variant comes in which a text may end. What is looked at twice has no place of
    /// its own.
    #[inline(always)]
    pub(crate) fn hold(&mut self) {
        if self.marks.is_empty() {
            self.held = self.walk.offset();
        }
    }

    /// What the walk took, or its fault.
    #[inline(always)]
    pub(crate) fn taken<T: Drop>(&self, answer: Result<T>) -> Step<T> {
        match answer {
            Ok(value) => Ok(value),
            Err(error) => Err(self.broken(error)),
        }
    }

    #[inline(always)]
    pub(crate) fn gap(&mut self) -> Step<()> {
        let answer = self.walk.gap();
        match answer {
            Ok(()) => Ok(()),
            Err(error) => Err(self.scanned(error)),
        }
    }

    /// Takes a colon, if one is next. Most follow the key at once.
    #[inline(always)]
    pub(crate) fn past_colon(&mut self) {
        if let Next::Colon = self.walk.next() {
            if !self.walk.colon() {
                self.far_colon();
            }
        }
    }

    #[inline(never)]
    fn far_colon(&mut self) {
        let _ = self.walk.short_colon();
    }

    /// Goes to the next element by a short way, and says whether one comes; None where there is no short way.
    #[inline(always)]
    pub(crate) fn short_on(&mut self) -> Option<bool> {
        if self.is_comma_due() && !self.walk.comma() {
            if self.close() {
                return Some(false);
            }
            return self.far_on();
        }
        match self.walk.peek() {
            Some('!'..='.' | '0'..='\\' | '^'..='|') => Some(true),
            Some(' ') if self.is_entry_spaced() => Some(true),
            _ => self.entry_or_end(),
        }
    }

    /// Whether an element or a key begins after the next character, a blank.
    #[inline(always)]
    fn is_entry_spaced(&self) -> bool {
        let text: &'t str = self.walk.text();
        let next = text.as_bytes().get(self.walk.offset().saturating_add(1));
        matches!(next, Some(b'!'..=b'.' | b'0'..=b'\\' | b'^'..=b'|'))
    }

    /// The same where a comma is due that isn't the next character.
    #[inline(never)]
    fn far_on(&mut self) -> Option<bool> {
        if let Some(comes) = self.short_end() {
            return Some(comes);
        }
        if !self.walk.short_comma() {
            return None;
        }
        self.entry_or_end()
    }

    /// The same where no comma is due.
    #[inline(never)]
    fn entry_or_end(&mut self) -> Option<bool> {
        match self.solid()? {
            b']' | b'}' => self.short_end(),
            b'!'..=b'.' | b'0'..=b'~' => Some(true),
            _ => None,
        }
    }

    #[inline(always)]
    pub(crate) fn is_comma_due(&self) -> bool {
        matches!(self.walk.next(), Next::Comma)
    }

    /// Takes the closing bracket by a short way, and says that no member comes. Most have no blanks in front.
    #[inline(always)]
    pub(crate) fn short_end(&mut self) -> Option<bool> {
        if self.close() || self.far_close() {
            return Some(false);
        }
        None
    }

    /// Takes blanks and the closing bracket, and says whether it did.
    #[inline(never)]
    fn far_close(&mut self) -> bool {
        match self.walk.short_close() {
            Some(bracket) => {
                self.closed = bracket.start;
                true
            }
            None => false,
        }
    }

    /// The first byte after ASCII blanks.
    #[inline(always)]
    fn solid(&self) -> Option<u8> {
        let text: &'t str = self.walk.text();
        let rest = text.as_bytes().get(self.walk.offset()..)?;
        for byte in rest {
            if !matches!(*byte, b' ' | b'\n' | b'\r' | b'\t') {
                return Some(*byte);
            }
        }
        None
    }

    /// Takes blanks, and says whether they have no fault. A fault is found again by the next call that takes blanks.
    #[inline(always)]
    fn short_gap(&mut self) -> bool {
        self.walk.gap().is_ok()
    }

    /// A fault with words.
    #[cold]
    #[inline(never)]
    pub(crate) fn said(&self, saying: Saying, at: usize, words: Option<String>) -> Fault {
        Fault::long(self.alloc, Long::Said(saying, at, words))
    }

    /// The offset after the blanks at this one.
    #[cold]
    #[inline(never)]
    pub(crate) fn past_blanks(&self, offset: usize) -> usize {
        let mut ahead = self.ahead(offset);
        match ahead.skip_blank() {
            Ok(()) => offset.saturating_add(ahead.offset()),
            Err(_) => offset,
        }
    }

    /// How many bytes the value at the offset has, if it is one.
    #[cold]
    pub(crate) fn length_of(&self, offset: usize) -> Option<usize> {
        let mut ahead = self.ahead(offset);
        skip_value(&mut ahead, 128).ok()?;
        Some(ahead.offset())
    }

    /// A scanner over the text from an offset on.
    fn ahead(&self, offset: usize) -> Scanner<&'t str> {
        let text: &'t str = self.walk.text();
        Scanner::new(self.alloc, text.get(offset..).unwrap_or(""))
    }

    /// Goes to the next value by a short way, past a colon if one is due, and says whether it did.
    #[inline(always)]
    fn short_begin(&mut self) -> bool {
        self.past_colon();
        let is_solid = self.short_blanks();
        self.stand();
        is_solid && !matches!(self.walk.next(), Next::Colon)
    }

    /// Takes blanks that begin with an ASCII one, if any, and says whether no others are in front.
    #[inline(always)]
    fn short_blanks(&mut self) -> bool {
        match self.walk.peek() {
            Some('!'..='.' | '0'..='~') => true,
            Some(' ' | '\n' | '\r' | '\t') => self.short_gap(),
            _ => false,
        }
    }

    /// Goes to the next value, past a colon if one is due.
    #[inline(always)]
    pub(crate) fn begin(&mut self) -> Step<()> {
        if self.short_begin() {
            return Ok(());
        }
        self.begin_slowly()
    }

    #[inline(never)]
    fn begin_slowly(&mut self) -> Step<()> {
        if let Next::Colon = self.walk.next() {
            self.gap()?;
            if !self.walk.colon() {
                return Err(self.ends_or(ErrorCode::EofParsingObject, ErrorCode::ExpectedColon));
            }
        }
        self.gap()?;
        self.stand();
        Ok(())
    }

    /// Notes that a value or a key comes.
    #[inline(always)]
    pub(crate) fn stand(&mut self) {
        self.last = self.walk.offset();
        self.wanted = Wanted::Another;
    }

    pub(crate) fn word(&mut self, literal: Literal) -> Step<()> {
        let answer = self.walk.literal(literal);
        self.taken(answer)
    }

    pub(crate) fn number(&mut self) -> Step<Number> {
        self.begin()?;
        let answer = self.walk.number();
        self.taken(answer)
    }

    /// Takes a whole number of a short form in this range.
    #[inline(always)]
    pub(crate) fn short_whole(&mut self, min: i128, max: i128) -> Option<i128> {
        if self.at_key {
            return None;
        }
        self.past_colon();
        self.stand();
        self.walk.short_whole(min, max)
    }

    /// Takes a decimal number of few digits, and gives it as it stands.
    #[inline(always)]
    pub(crate) fn short_digits(&mut self) -> Option<&'t [u8]> {
        if self.at_key {
            return None;
        }
        self.past_colon();
        self.stand();
        if !self.walk.short_number() && !self.spaced_number() {
            return None;
        }
        let text: &'t str = self.walk.text();
        text.as_bytes().get(self.last..self.walk.offset())
    }

    /// The same after blanks.
    #[inline(never)]
    fn spaced_number(&mut self) -> bool {
        self.short_begin() && self.walk.short_number()
    }

    /// Takes a whole number, or a key whose text is one.
    pub(crate) fn whole(&mut self) -> Step<Whole> {
        let number = if self.at_key {
            self.number_key()?.0
        } else {
            self.number()?
        };
        match number {
            Number::Whole(whole) => Ok(whole),
            Number::Decimal(_) => {
                let is_whole = is_of_digits(self.digits());
                let wanted = if is_whole {
                    Wanted::InRange
                } else {
                    Wanted::Integer
                };
                Err(Fault::Misfit(wanted, self.last))
            }
        }
    }

    /// Takes a key, and gives its text.
    #[inline(never)]
    pub(crate) fn key(&mut self) -> Step<CowStr<'t>> {
        self.gap()?;
        self.stand();
        let answer = self.walk.key();
        let key = self.taken(answer)?;
        self.at_key = false;
        Ok(key)
    }

    /// The number that a key's text is, as a document.
    pub(crate) fn number_key(&mut self) -> Step<(Number, CowStr<'t>)> {
        let key = self.key()?;
        match number_in(self.alloc, key.as_str()) {
            Ok(number) => Ok((number, key)),
            Err(error) => Err(self.no_text(error)),
        }
    }

    /// The fault of the text of the last key.
    #[cold]
    pub(crate) fn no_text(&self, error: Error) -> Fault {
        match error.code().unwrap_or(ErrorCode::ExpectedNumber) {
            ErrorCode::OutOfMemory => Fault::Bare(ErrorCode::OutOfMemory),
            code => Fault::Text(code, self.last),
        }
    }

    /// The last number as it stands.
    pub(crate) fn digits(&self) -> &'t str {
        let text: &'t str = self.walk.text();
        text.get(self.last..self.walk.offset()).unwrap_or("")
    }

    /// The kind of the number that is next.
    pub(crate) fn kind_of_number(&self) -> Kind {
        match self.ahead(self.last).skip_number() {
            Ok(Some(whole)) if whole.as_u128().is_some() => Kind::Unsigned,
            Ok(Some(_)) => Kind::Signed,
            _ => Kind::Float,
        }
    }

    /// Takes a string or a key.
    pub(crate) fn cow(&mut self) -> Step<CowStr<'t>> {
        if self.at_key {
            return self.key();
        }
        self.begin()?;
        let answer = self.walk.string();
        self.taken(answer)
    }

    /// Takes a string or a key without an escape by a short way.
    #[inline(always)]
    pub(crate) fn short_text(&mut self) -> Option<&'t str> {
        if self.at_key {
            return self.key_text();
        }
        self.past_colon();
        self.stand();
        self.walk.short_string()
    }

    #[inline(always)]
    fn key_text(&mut self) -> Option<&'t str> {
        self.stand();
        let key = self.walk.short_key()?;
        self.at_key = false;
        Some(key)
    }

    /// Opens a bracket. Most have no blanks in front.
    #[inline(always)]
    pub(crate) fn open(&mut self, kind: BracketKind) -> Step<()> {
        if !self.at_key {
            self.past_colon();
            let _ = self.short_blanks();
            self.stand();
            if self.walk.open(kind) {
                return Ok(());
            }
        }
        self.open_slowly(kind)
    }

    #[inline(never)]
    fn open_slowly(&mut self, kind: BracketKind) -> Step<()> {
        if self.at_key {
            return Err(Fault::Text(ErrorCode::ExpectedIdentifier, self.walk.offset()));
        }
        self.begin()?;
        if self.walk.open(kind) {
            Ok(())
        } else {
            Err(self.unopened(kind))
        }
    }

    /// Why a bracket isn't opened.
    #[cold]
    #[inline(never)]
    fn unopened(&self, kind: BracketKind) -> Fault {
        let brackets = kind.brackets();
        if self.walk.peek() == Some(brackets.opening) {
            if !self.walk.next().takes_value() {
                return Fault::Misplaced(self.walk.offset());
            }
            return Fault::Code(ErrorCode::TooDeep, self.last);
        }
        self.ends_or(brackets.ends, brackets.not_opened)
    }

    /// Takes the closing bracket, if it is next.
    #[inline(always)]
    pub(crate) fn close(&mut self) -> bool {
        match self.walk.close() {
            Some(bracket) => {
                self.closed = bracket.start;
                true
            }
            None => false,
        }
    }

    /// Goes to the next member, past a comma if one is due, and says whether one comes. At the end it takes the bracket.
    #[inline(never)]
    pub(crate) fn goes_on(&mut self, kind: BracketKind) -> Step<bool> {
        self.gap()?;
        if self.is_comma_due() {
            let brackets = kind.brackets();
            if self.walk.comma() {
                self.gap()?;
            } else if self.walk.peek() != Some(brackets.closing) {
                return Err(self.ends_or(brackets.ends, ErrorCode::ExpectedComma));
            }
        }
        if self.close() {
            return Ok(false);
        }
        if self.walk.peek().is_none() {
            if let BracketKind::Object = kind {
                return Err(Fault::coded(ErrorCode::EofParsingObject, self.bracket()));
            }
        }
        Ok(true)
    }

    /// Passes over a value or a key.
    pub(crate) fn pass(&mut self) -> Step<()> {
        if self.at_key {
            self.key()?;
            return Ok(());
        }
        self.begin()?;
        let answer = self.walk.skip();
        self.taken(answer)
    }

    /// What the character at the offset begins, if it begins a value.
    pub(crate) fn begins(&self, offset: usize) -> Option<Kind> {
        match self.walk.text().as_bytes().get(offset) {
            Some(b'n') => Some(Kind::Unit),
            Some(b't' | b'f') => Some(Kind::Bool),
            Some(b'"' | b'\'') => Some(Kind::Str),
            Some(b'[') => Some(Kind::Seq),
            Some(b'{') => Some(Kind::Map),
            Some(b'+' | b'-' | b'.' | b'I' | b'N' | b'0'..=b'9') => Some(Kind::Float),
            _ => None,
        }
    }

    /// Whether the value that was refused with this code may be one of another type.
    pub(crate) fn may_be_another(&self, code: ErrorCode, at: usize) -> bool {
        let Some(kind) = self.begins(at) else {
            return false;
        };
        match code {
            ErrorCode::ExpectedNull => !matches!(kind, Kind::Unit),
            ErrorCode::ExpectedBool => !matches!(kind, Kind::Bool),
            ErrorCode::ExpectedNumber => !matches!(kind, Kind::Float),
            ErrorCode::ExpectedString
            | ErrorCode::ExpectedOpeningBracket
            | ErrorCode::ExpectedOpeningBrace
            | ErrorCode::ExpectedClosingBracket => true,
            _ => false,
        }
    }

    pub(crate) fn kept(&self, text: &str) -> Option<String> {
        String::from_str(self.alloc, text).ok()
    }

    /// Where a name was looked up: notes its place, if it is none of these.
    #[inline(always)]
    pub(crate) fn found(&mut self, names: &[Name<'_>], key: &str) -> usize {
        let found = find_field(names, key);
        if found == usize::MAX {
            self.note_unknown(names);
        }
        found
    }

    #[inline(never)]
    fn note_unknown(&mut self, names: &[Name<'_>]) {
        self.unknown = self.last;
        if self.asked != usize::MAX {
            self.note_names(names);
        } else if names.is_empty() {
            self.wanted = Wanted::Alone;
        }
    }

    #[cold]
    #[inline(never)]
    fn note_names(&mut self, names: &[Name<'_>]) {
        if self.asked == self.past_blanks(self.last) {
            self.expected = list_of(self.alloc, names);
        }
    }

    /// The same where no call knows the names beforehand, as those of an enum.
    #[inline(never)]
    pub(crate) fn found_name(&mut self, names: &[Name<'_>], key: &str) -> usize {
        let found = find_name(names, key);
        if found == usize::MAX {
            self.note_unknown(names);
        }
        found
    }

    /// The same of a value that names a variant.
    pub(crate) fn found_variant(&mut self, names: &[Name<'_>], name: &str) -> usize {
        let found = self.found_name(names, name);
        if found == usize::MAX {
            self.no_variant = self.last;
        }
        found
    }

    /// Where the name stands that is no variant: the name that was read last, or else a tag before it.
    #[cold]
    pub(crate) fn unknown_variant_at(&self) -> usize {
        if self.unknown == self.last {
            self.unknown
        } else {
            self.no_variant
        }
    }

    /// Where an object ended whose keys were looked up: notes the key of the missing field, if it was asked for.
    #[inline(always)]
    pub(crate) fn ended(&mut self, names: &[Name<'_>]) {
        if self.asked == self.closed {
            self.note_key(names);
        }
    }

    #[cold]
    #[inline(never)]
    fn note_key(&mut self, names: &[Name<'_>]) {
        let is_alone = names.len() == 1 && self.is_asked("");
        for name in names {
            if is_alone || self.is_asked(name.name) {
                self.expected = key_of(self.alloc, name);
            }
        }
    }

    /// Whether the last object, from which a mark leads back, ended just now: an enum looked for its content there.
    #[cold]
    pub(crate) fn lacks_content(&self) -> bool {
        let before = self.walk.offset().saturating_sub(1);
        match (self.walk.text().as_bytes().get(before), self.marks.last()) {
            (Some(b'}'), Some(saved)) => self.past_blanks(saved.walk.offset()) == self.closed,
            _ => false,
        }
    }

    /// Whether the key of this field was asked for, or that of the content, which has no name.
    fn is_asked(&self, name: &str) -> bool {
        match &self.field {
            Some(field) => field.as_str() == name,
            None => false,
        }
    }

    /// The key of a field, if it was noted, or else its name.
    #[cold]
    pub(crate) fn key_of(&self, name: &str) -> Option<String> {
        match &self.expected {
            Some(key) if self.is_asked(name) => self.kept(key.as_str()),
            _ => self.kept(name),
        }
    }

    /// The names that were expected, if they were asked for.
    #[cold]
    pub(crate) fn expected(&self) -> Option<String> {
        match &self.expected {
            Some(list) => self.kept(list.as_str()),
            None => None,
        }
    }

    /// Ends the walk, which has to be one of this text. Whoever reads by a `Format` may put another in its place.
    pub(crate) fn end(&mut self, limit: Limit, text: &str) -> Step<()>
        ensures { OnOk result (IsDocumentWithin limit text.now) }
    {
        let Next::Comma = self.walk.next() else {
            return Err(Fault::Unread(self.walk.offset()));
        };
        self.gap()?;
        if self.walk.depth() > 0 {
            return Err(Fault::Unread(self.walk.offset()));
        }
        if self.walk.peek().is_some() {
            return Err(Fault::Code(ErrorCode::TrailingCharacters, self.walk.offset()));
        }
        self.walk_ends(limit, text)
    }

    fn walk_ends(&mut self, limit: Limit, text: &str) -> Step<()>
        ensures { OnOk result (IsDocumentWithin limit text.now) }
    {
        if self.walk.text().as_bytes() != text.as_bytes()
            || self.walk.limit() != usize::from(limit.get())
        {
            return Err(Fault::Unread(0));
        }
        match self.walk.finish() {
            Ok(()) => Ok(()),
            Err(error) => Err(self.scanned(error)),
        }
    }
}
