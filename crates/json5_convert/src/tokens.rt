//! Goes over a document token by token, and spells each as asked.
//!
//! Plain code: what it makes is compared with the text.

ghost use Rattle.std.specs.Prelude.{OnOk};
ghost use Rattle.json5_walk.specs.Walks.{IsDocument};

use crate::faults::{RespellError, Result};
use crate::gaps::{begins_last_line, has_json_blanks, is_blank_in_json, push_gap};
use crate::numbers::{is_json_number, push_number};
use crate::spelling::{Blanks, Comments, Keys, LastCommas, Numbers, Spelling};
use crate::strings::{
    is_ascii_name, keeps_escapes, keeps_short, keeps_string, needs_no_escape, push_string,
};
use json5_read::brackets::BracketKind;
use json5_read::kinds::{ValueKind, kind_at};
use json5_types::nesting::Limit;
use json5_walk::next::Next;
use json5_walk::walk::Walk;
use std::alloc::Global;

/// The document spelled anew.
pub(crate) fn spelled(alloc: Global, spelling: Spelling, text: &str) -> Result<String>
    ensures { OnOk result (IsDocument text.now) }
{
    let mut speller = Speller {
        alloc,
        spelling,
        walk: Walk::new(alloc, text, Limit::full()),
        made: String::with_capacity(alloc, text.len())?,
        done: 0,
        end: 0,
        fault: RespellError::Failed,
    };
    // Each step but the last takes a token.
    for _ in 0..=text.len() {
        match speller.step() {
            Step::Took => {}
            Step::Ended => {
                check_walked(&mut speller.walk, text)?;
                return Ok(speller.made);
            }
            Step::Refused => return Err(speller.fault),
        }
    }
    Err(RespellError::Failed)
}

/// Refuses with `Failed` unless the walk has taken a document, and this one.
fn check_walked(walk: &mut Walk<'_>, text: &str) -> Result<()>
    ensures { OnOk result (IsDocument text.now) }
{
    let walked = walk.text();
    walk.finish()?;
    if walked == text {
        Ok(())
    } else {
        Err(RespellError::Failed)
    }
}

/// What a step came to.
#[derive(Clone, Copy, Drop)]
enum Step {
    /// A token was taken.
    Took,
    /// The value has ended, and what follows it is appended.
    Ended,
    /// Nothing is made.
    Refused,
}

/// Where a call returns false nothing is made: it leaves the fault here, since a frame that holds a fault takes more time.
#[derive(Drop)]
struct Speller<'t> {
    alloc: Global,
    spelling: Spelling,
    walk: Walk<'t>,
    made: String,
    /// What comes before this offset, in bytes, is in what was made. What follows it up to the walk's stays as it is.
    done: usize,
    /// Where the last token ends, or the gap behind it if that was spelled.
    end: usize,
    fault: RespellError,
}

impl<'t> Speller<'t> {
    /// Spells the next token and the gap before it.
    #[inline(always)]
    fn step(&mut self) -> Step {
        let is_taken = match self.walk.next() {
            Next::Comma => return self.after_value(),
            Next::Value | Next::Element => self.value(),
            Next::Key => self.key(),
            Next::Colon => self.colon(),
            Next::Failed => false,
        };
        if is_taken { Step::Took } else { Step::Refused }
    }

    /// Leaves the fault, and returns false.
    #[cold]
    fn refuse(&mut self, fault: RespellError) -> bool {
        self.fault = fault;
        false
    }

    /// The text between the offsets.
    #[inline(always)]
    fn part(&self, from: usize, to: usize) -> &'t str {
        match self.walk.text().get(from..to) {
            Some(part) => part,
            None => "",
        }
    }

    /// Appends a text.
    #[inline(always)]
    fn push(&mut self, part: &str) -> bool {
        match self.made.push_str(part) {
            Ok(()) => true,
            Err(_) => self.refuse(RespellError::NoMemory),
        }
    }

    /// Appends what comes before the offset and isn't appended.
    #[inline(always)]
    fn copy_to(&mut self, offset: usize) -> bool {
        let part = self.part(self.done, offset);
        self.done = offset;
        self.push(part)
    }

    /// Appends what comes before the token or the gap from `start` to where the walk is told to be, but leaves that out.
    #[inline(always)]
    fn leave_out(&mut self, start: usize) -> bool {
        let is_copied = self.copy_to(start);
        self.done = self.end;
        is_copied
    }

    /// Takes blanks.
    #[inline(never)]
    fn gap(&mut self) -> bool {
        match self.walk.gap() {
            Ok(()) => true,
            Err(error) => self.refuse(RespellError::from(error)),
        }
    }

    /// Spells the gap in front of the token that begins at `start`, which was taken or is next.
    #[inline(always)]
    fn gap_to(&mut self, start: usize) -> bool {
        let from = self.end;
        self.end = start;
        if from == start || self.stays(from, start) {
            return true;
        }
        self.respell_gap(from, start)
    }

    /// Whether a gap is surely as the spelling has it.
    #[inline(always)]
    fn stays(&self, from: usize, to: usize) -> bool {
        if let (Blanks::Own, Comments::Kept) = (self.spelling.blanks, self.spelling.comments) {
            return true;
        }
        is_blank_in_json(self.walk.text().as_bytes(), from, to)
    }

    /// Appends the gap as the spelling has it.
    #[inline(never)]
    fn respell_gap(&mut self, from: usize, to: usize) -> bool {
        let gap = self.part(from, to);
        if matches!(self.spelling.comments, Comments::Kept) && has_json_blanks(gap) {
            return true;
        }
        let is_end = to == self.walk.text().len();
        self.leave_out(from) && self.put_gap(gap, is_end)
    }

    fn put_gap(&mut self, gap: &str, is_end: bool) -> bool {
        match push_gap(&mut self.made, self.spelling, gap, is_end) {
            Ok(()) => true,
            Err(_) => self.refuse(RespellError::NoMemory),
        }
    }

    /// Spells the gap before the token that was taken, and goes past both. Of a token of this length it returns where that
    /// begins.
    #[inline(always)]
    fn start_of(&mut self, len: usize) -> Option<usize> {
        let end = self.walk.offset();
        let start = end.saturating_sub(len);
        let is_spelled = self.gap_to(start);
        self.end = end;
        if is_spelled { Some(start) } else { None }
    }

    /// The same of a bracket, a comma or a colon.
    #[inline(always)]
    fn sign(&mut self) -> bool {
        self.start_of(1).is_some()
    }

    /// A value that is no collection, an opening bracket, or the bracket that closes an array.
    #[inline(always)]
    fn value(&mut self) -> bool {
        match self.walk.short_string() {
            Some(text) => self.short_string(text),
            None => self.long_value(),
        }
    }

    /// Spells the string without an escape that was taken, which has this text.
    #[inline(always)]
    fn short_string(&mut self, text: &str) -> bool {
        let Some(start) = self.start_of(text.len().saturating_add(2)) else {
            return false;
        };
        let token = self.part(start, self.end);
        keeps_short(self.spelling.strings, token) || self.put_short(start, token, text)
    }

    /// Appends the string that is spelled so, which has this text and no escape, in JSON's quotes.
    #[inline(never)]
    fn put_short(&mut self, start: usize, token: &str, text: &str) -> bool {
        if needs_no_escape(text) {
            return self.put_quoted(start, text);
        }
        self.put_string(start, token)
    }

    #[inline(never)]
    fn long_value(&mut self) -> bool {
        if !self.gap() {
            return false;
        }
        match self.walk.peek() {
            Some('[') => self.open(BracketKind::Array),
            Some('{') => self.open(BracketKind::Object),
            Some(']') => self.close(),
            Some(c) => self.scalar(kind_at(c)),
            None => false,
        }
    }

    #[inline(always)]
    fn open(&mut self, kind: BracketKind) -> bool {
        self.walk.open(kind) && self.sign()
    }

    /// A value that is no collection, which is next.
    #[inline(always)]
    fn scalar(&mut self, kind: ValueKind) -> bool {
        let start = self.walk.offset();
        if !self.gap_to(start) {
            return false;
        }
        match kind {
            ValueKind::Literal(_) => self.skip(),
            ValueKind::String => self.string(start),
            _ => self.number(start),
        }
    }

    /// Goes past a value that is no collection, which is next.
    fn skip(&mut self) -> bool {
        match self.walk.skip() {
            Ok(()) => {
                self.end = self.walk.offset();
                true
            }
            Err(error) => self.refuse(RespellError::from(error)),
        }
    }

    fn string(&mut self, start: usize) -> bool {
        if !self.skip() {
            return false;
        }
        let token = self.part(start, self.end);
        keeps_escapes(self.spelling.strings, token) || self.put_string(start, token)
    }

    /// Appends the string or the key that is spelled so.
    #[inline(never)]
    fn put_string(&mut self, start: usize, token: &str) -> bool {
        if !self.leave_out(start) {
            return false;
        }
        match push_string(self.alloc, &mut self.made, self.spelling.strings, token) {
            Ok(()) => true,
            Err(fault) => self.refuse(fault),
        }
    }

    fn number(&mut self, start: usize) -> bool {
        if self.walk.short_number() {
            self.end = self.walk.offset();
        } else if !self.skip() {
            return false;
        }
        let token = self.part(start, self.end);
        matches!(self.spelling.numbers, Numbers::Own)
            || is_json_number(token)
            || self.put_number(start, token)
    }

    #[inline(never)]
    fn put_number(&mut self, start: usize, token: &str) -> bool {
        if !self.leave_out(start) {
            return false;
        }
        match push_number(self.alloc, &mut self.made, token) {
            Ok(true) => true,
            Ok(false) => {
                let position = self.walk.position_of(start);
                self.refuse(RespellError::Number(position))
            }
            Err(fault) => self.refuse(fault),
        }
    }

    /// A key, or the closing brace.
    #[inline(always)]
    fn key(&mut self) -> bool {
        match self.walk.short_key() {
            Some(text) => self.short_key(text),
            None => self.key_or_close(),
        }
    }

    #[inline(never)]
    fn key_or_close(&mut self) -> bool {
        if !self.gap() {
            return false;
        }
        if let Some('}') = self.walk.peek() {
            return self.close();
        }
        match self.walk.short_key() {
            Some(text) => self.short_key(text),
            None => self.long_key(),
        }
    }

    /// Spells the key without an escape that was taken, which has this text.
    #[inline(always)]
    fn short_key(&mut self, text: &str) -> bool {
        let is_quoted = matches!(self.byte_before(self.walk.offset()), b'"' | b'\'');
        let quotes = if is_quoted { 2 } else { 0 };
        match self.start_of(text.len().saturating_add(quotes)) {
            Some(start) => self.respell_key(start, is_quoted, text),
            None => false,
        }
    }

    fn long_key(&mut self) -> bool {
        let start = self.walk.offset();
        if !self.gap_to(start) {
            return false;
        }
        match self.walk.key() {
            Ok(text) => {
                self.end = self.walk.offset();
                let is_quoted = matches!(self.byte_before(self.end), b'"' | b'\'');
                self.respell_key(start, is_quoted, text.as_str())
            }
            Err(error) => self.refuse(RespellError::from(error)),
        }
    }

    /// The last byte before the offset; 0 where there is none.
    #[inline(always)]
    fn byte_before(&self, offset: usize) -> u8 {
        match self.walk.text().as_bytes().get(offset.wrapping_sub(1)) {
            Some(byte) => *byte,
            None => 0,
        }
    }

    /// Spells the key that was taken, which has this text.
    #[inline(always)]
    fn respell_key(&mut self, start: usize, is_quoted: bool, text: &str) -> bool {
        let token = self.part(start, self.end);
        match (self.spelling.keys, is_quoted) {
            (Keys::Bare, _) if token.len() > text.len() && is_ascii_name(text) => self.put(
                start, text,
            ),
            (Keys::Quoted, false) => self.put_quoted(start, text),
            (_, false) => true,
            (_, true) => keeps_string(self.spelling.strings, token, text)
                || self.put_string(start, token),
        }
    }

    /// Appends the text in place of the token that was taken.
    #[inline(always)]
    fn put(&mut self, start: usize, text: &str) -> bool {
        self.leave_out(start) && self.push(text)
    }

    /// The same between double quotes, of a text without a character that JSON escapes, as a name is.
    #[inline(never)]
    fn put_quoted(&mut self, start: usize, text: &str) -> bool {
        self.leave_out(start) && self.push("\"") && self.push(text) && self.push("\"")
    }

    #[inline(always)]
    fn colon(&mut self) -> bool {
        (self.walk.short_colon() || self.gap() && self.walk.colon()) && self.sign()
    }

    /// The comma after a value, or the closing bracket, or the end.
    #[inline(always)]
    fn after_value(&mut self) -> Step {
        if !self.walk.short_comma() {
            return self.end_or_close();
        }
        if self.sign() {
            Step::Took
        } else {
            Step::Refused
        }
    }

    #[inline(never)]
    fn end_or_close(&mut self) -> Step {
        if !self.gap() {
            return Step::Refused;
        }
        if self.walk.depth() == 0 {
            return self.end();
        }
        let is_taken = if self.walk.comma() {
            self.sign()
        } else {
            self.close()
        };
        if is_taken { Step::Took } else { Step::Refused }
    }

    /// The end of the document, and what comes before it and isn't appended.
    fn end(&mut self) -> Step {
        let end = self.walk.text().len();
        if self.gap_to(end) && self.copy_to(end) {
            Step::Ended
        } else {
            Step::Refused
        }
    }

    /// The closing bracket, which is next, and the comma before it: it goes where none is to be last, or comes where one is
    /// asked for.
    #[inline(always)]
    fn close(&mut self) -> bool {
        self.respell_comma() && self.walk.close().is_some() && self.sign()
    }

    #[inline(always)]
    fn respell_comma(&mut self) -> bool {
        match self.spelling.last_commas {
            LastCommas::Own => true,
            LastCommas::Never if self.byte_before(self.end) == b',' => self.leave_out(
                self.end.saturating_sub(1),
            ),
            LastCommas::Never => true,
            LastCommas::Lines => self.put_comma(),
        }
    }

    /// Appends a comma, where there is none and the closing bracket, which is next, stands on a line of its own.
    fn put_comma(&mut self) -> bool {
        let gap = self.part(self.end, self.walk.offset());
        if matches!(self.byte_before(self.end), b',' | b'[' | b'{') || !begins_last_line(gap) {
            return true;
        }
        self.copy_to(self.end) && self.push(",")
    }
}
