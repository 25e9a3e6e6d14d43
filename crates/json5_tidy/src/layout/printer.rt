//! Writes the lexemes of a document in the layout.

use crate::layout::asks::is_ignore;
use crate::layout::columns::{columns, has_wide};
use crate::layout::entries::{ends_line, entry_end, has_entry, is_in_rows};
use crate::layout::lexemes::{Kind, Lexeme, lexeme_at, part_of};
use crate::layout::lines::has_crlf;
use crate::layout::made::Made;
use crate::layout::measure::Fit;
use crate::layout::on_line::put_in_line;
use crate::layout::spacing::Spacing;
use crate::layout::stars::{is_star_comment, last_line, next_line};
use memchr::memchr;
use std::alloc::{AllocError, Global};

/// Where a lexeme is.
#[derive(Clone, Copy, Drop)]
enum Place {
    /// An element, a member or a closing bracket may be next.
    Entry,
    /// After a key.
    Key,
    /// After a colon.
    Value,
    /// After a value, before its comma.
    Ended,
}

/// Whether an entry follows the value that ended.
#[derive(Clone, Copy, Drop)]
enum Next {
    NotSought,
    Entry,
    NoEntry,
}

/// A collection over several lines, or the document itself.
#[derive(Clone, Copy, Drop)]
struct Frame {
    /// The level of the line that its opening bracket is on.
    outer: usize,
    /// The level of its entries.
    inner: usize,
    is_document: bool,
    is_object: bool,
    /// Whether it is of words alone, as many on a line as there were, and as fit. Else each entry is on a line of its
    /// own.
    is_in_rows: bool,
}

#[derive(Drop)]
struct Printer {
    style: Spacing,
    /// Whether a line ends with CR LF.
    is_crlf: bool,
    is_ascii: bool,
    /// Whether tabs are in the text, or indent its lines.
    has_tabs: bool,
    frames: Vec<Frame>,
    frame: Frame,
    made: Made,
    /// The level of the current line.
    level: usize,
    place: Place,
    /// The last lexeme that was written; `End` if none was.
    last: Kind,
    /// Whether a comma was passed that is to be written if an entry follows.
    comma_due: bool,
    /// Line ends before and after a comma that wasn't written where it was.
    lines: usize,
    next: Next,
    /// Whether the entry that comes next is left as it is.
    is_ignored: bool,
}

/// The document in the layout. Of a text that is no document it gives some bytes.
///
/// ```text
/// laid_out(alloc, spacing, b"{a:1,/* b */b:[1,2,]}")?    // `{ a: 1, /* b */ b: [1, 2] }` and a line end
/// ```
///
/// # Errors
///
/// `AllocError` where a request for memory was refused.
pub fn laid_out(alloc: Global, style: Spacing, bytes: &[u8]) -> Result<Vec<u8>, AllocError> {
    let mut printer = Printer::new(alloc, style, bytes)?;
    let mut at = 0;
    loop {
        let lexeme = lexeme_at(bytes, at);
        if lexeme.is_end() {
            return printer.finish(bytes);
        }
        at = printer.put(bytes, lexeme)?.max(lexeme.end);
    }
}

impl Printer {
    /// What was written.
    fn finish(mut self, bytes: &[u8]) -> Result<Vec<u8>, AllocError> {
        if self.style.final_line_end {
            self.made.line_end(bytes, self.is_crlf)?;
        }
        self.made.finish(bytes)
    }

    fn new(alloc: Global, style: Spacing, bytes: &[u8]) -> Result<Printer, AllocError> {
        let room = bytes
            .len()
            .saturating_add(bytes.len() / 8)
            .saturating_add(64);
        let document = Frame {
            outer: 0,
            inner: 0,
            is_document: true,
            is_object: false,
            is_in_rows: false,
        };
        Ok(Printer {
            style,
            is_crlf: style.is_crlf.unwrap_or_else(|| has_crlf(bytes)),
            is_ascii: !has_wide(bytes),
            has_tabs: style.indent == 0 || memchr(b'\t', bytes).is_some(),
            frames: Vec::new(alloc),
            frame: document,
            made: Made::new(alloc, room, style.tab_width)?,
            level: 0,
            place: Place::Entry,
            last: Kind::End,
            comma_due: false,
            lines: 0,
            next: Next::NotSought,
            is_ignored: false,
        })
    }

    /// Writes a lexeme, or the whole collection or entry that begins with it, if the first is on one line and the
    /// second left as it is. Returns where what it wrote ends.
    #[inline(always)]
    fn put(&mut self, bytes: &[u8], lexeme: Lexeme) -> Result<usize, AllocError> {
        match lexeme.kind {
            Kind::Comma => self.put_comma(bytes, lexeme.lines)?,
            Kind::Colon => self.put_colon(bytes, lexeme)?,
            Kind::Close => self.put_close(bytes, lexeme)?,
            Kind::Line | Kind::Block => self.put_comment(bytes, lexeme)?,
            Kind::Open => return self.put_open(bytes, lexeme),
            _ => return self.put_word(bytes, lexeme),
        }
        Ok(lexeme.end)
    }

    #[inline(always)]
    fn put_colon(&mut self, bytes: &[u8], colon: Lexeme) -> Result<(), AllocError> {
        if matches!(self.last, Kind::Line) {
            self.start_line(bytes, self.frame.inner.saturating_add(1))?;
        }
        self.place = Place::Value;
        self.part(bytes, colon)
    }

    fn put_close(&mut self, bytes: &[u8], close: Lexeme) -> Result<(), AllocError> {
        self.comma_due = false;
        self.lines = 0;
        self.is_ignored = false;
        if !matches!(self.last, Kind::Open) {
            if matches!(self.place, Place::Ended) && self.style.last_comma {
                self.comma(bytes)?;
            }
            self.start_line(bytes, self.frame.outer)?;
        }
        self.close();
        self.part(bytes, close)
    }

    fn put_comment(&mut self, bytes: &[u8], comment: Lexeme) -> Result<(), AllocError> {
        let is_followed = self.comma_due && self.is_followed(bytes, comment.end);
        let lines = self.lines_before(bytes, comment.lines, is_followed)?;
        self.before_comment(bytes, comment, lines)?;
        if self.moves(bytes, comment) {
            return self.put_star_comment(bytes, comment);
        }
        self.part(bytes, comment)?;
        self.note_lines(bytes, comment)
    }

    /// Whether it is a star comment whose lines move with the first. Those behind a long line stay.
    fn moves(&self, bytes: &[u8], comment: Lexeme) -> bool {
        comment.is_broken
            && self.style.moves_stars
            && self.made.column(bytes) <= self.style.width
            && is_star_comment(comment.of(bytes))
    }

    /// Writes a star comment, each line at its place relative to the first, as far as there is room to the left.
    fn put_star_comment(&mut self, bytes: &[u8], comment: Lexeme) -> Result<(), AllocError> {
        let text = comment.of(bytes);
        let was = self
            .made
            .columns_of(last_line(part_of(bytes, 0, comment.start)));
        let is = self.made.column(bytes);
        self.last = comment.kind;
        let mut at = 0;
        loop {
            let (line, solid) = next_line(text, at);
            self.made.part(
                bytes,
                comment.start.saturating_add(at),
                comment.start.saturating_add(line),
            )?;
            if solid >= text.len() {
                return Ok(());
            }
            let column = self.made.columns_of(part_of(text, line, solid));
            let place = column.saturating_add(is).saturating_sub(was);
            self.made
                .start_at(bytes, self.style.indent, self.level, place)?;
            at = solid;
        }
    }

    /// Writes a word, or the whole entry that begins with it if that is left as it is. Returns where it ends.
    #[inline(always)]
    fn put_word(&mut self, bytes: &[u8], word: Lexeme) -> Result<usize, AllocError> {
        let lines = self.lines_before(bytes, word.lines, self.comma_due)?;
        if self.is_ignored {
            return self.put_as_it_is(bytes, word.start, word.end, lines);
        }
        self.before_word(bytes, word, lines)?;
        self.end_word();
        self.part(bytes, word)?;
        self.note_lines(bytes, word)?;
        Ok(word.end)
    }

    /// Writes an opening bracket, and the whole collection that begins with it if that is on one line or left as it is.
    /// Returns where what was written ends.
    fn put_open(&mut self, bytes: &[u8], bracket: Lexeme) -> Result<usize, AllocError> {
        let lines = self.lines_before(bytes, bracket.lines, self.comma_due)?;
        if self.is_ignored {
            return self.put_as_it_is(bytes, bracket.start, bracket.end, lines);
        }
        self.before_word(bytes, bracket, lines)?;
        self.part(bytes, bracket)?;
        self.open(bytes, bracket)
    }

    /// Writes the lexeme.
    #[inline(always)]
    fn part(&mut self, bytes: &[u8], lexeme: Lexeme) -> Result<(), AllocError> {
        self.last = lexeme.kind;
        self.made.part(bytes, lexeme.start, lexeme.end)
    }

    /// Notes where the current line begins, after a lexeme that was written.
    #[inline(always)]
    fn note_lines(&mut self, bytes: &[u8], lexeme: Lexeme) -> Result<(), AllocError> {
        if lexeme.is_broken {
            self.made.note_lines(bytes, lexeme.start, lexeme.end)?;
        }
        Ok(())
    }

    /// How many line ends come before a lexeme that has so many, after the last that was written. The comma that was
    /// passed is written if an entry follows.
    #[inline(always)]
    fn lines_before(
        &mut self,
        bytes: &[u8],
        lines: usize,
        is_followed: bool,
    ) -> Result<usize, AllocError> {
        let before = self.lines;
        self.lines = 0;
        self.comma_due = false;
        if is_followed {
            self.comma(bytes)?;
            return Ok(lines);
        }
        Ok(lines.saturating_add(before))
    }

    /// Writes the entry as it is whose first lexeme is from one offset to another. Returns where the entry ends.
    #[inline(never)]
    fn put_as_it_is(
        &mut self,
        bytes: &[u8],
        start: usize,
        first_end: usize,
        lines: usize,
    ) -> Result<usize, AllocError> {
        let end = entry_end(bytes, start, self.frame.is_object).max(first_end);
        let first = Lexeme {
            kind: Kind::Word,
            start,
            end: first_end,
            lines,
            is_broken: false,
        };
        self.before_word(bytes, first, lines)?;
        self.made.part(bytes, start, end)?;
        self.made.note_lines(bytes, start, end)?;
        self.end_value();
        self.last = Kind::Word;
        self.is_ignored = false;
        Ok(end)
    }

    #[inline(always)]
    fn end_word(&mut self) {
        if matches!(self.place, Place::Entry) && self.frame.is_object {
            self.place = Place::Key;
        } else {
            self.end_value();
        }
    }

    #[inline(always)]
    fn end_value(&mut self) {
        self.place = Place::Ended;
        self.next = Next::NotSought;
    }

    /// After an opening bracket: writes what follows up to the closing one, if all is on one line. Returns where what
    /// was written ends.
    fn open(&mut self, bytes: &[u8], lexeme: Lexeme) -> Result<usize, AllocError> {
        let is_object = bytes.get(lexeme.start).copied() == Some(b'{');
        let end = self.put_on_line(bytes, lexeme.end, is_object)?;
        if end > lexeme.end {
            self.last = Kind::Close;
            self.end_value();
            return Ok(end);
        }
        self.open_lines(is_object, !is_object && is_in_rows(bytes, end))?;
        Ok(end)
    }

    /// Writes the collection whose bracket ends here, if there is room for it on the line. Returns where it ends, and
    /// the same offset if it wasn't written.
    fn put_on_line(
        &mut self,
        bytes: &[u8],
        end: usize,
        is_object: bool,
    ) -> Result<usize, AllocError> {
        let used = if self.has_tabs {
            self.made.column(bytes)
        } else {
            self.made.line_len()
        };
        // Bytes are counted first: no character takes more columns than it has bytes, but for tabs.
        let (fit, after) = self.put_behind(bytes, end, is_object, used, false)?;
        if !matches!(fit, Fit::Wide) || self.is_ascii {
            return Ok(if matches!(fit, Fit::Fits) { after } else { end });
        }
        let column = self.made.column(bytes);
        if column == used && !has_wide(part_of(bytes, end, after)) {
            return Ok(end);
        }
        let (fit, after) = self.put_behind(bytes, end, is_object, column, true)?;
        Ok(if matches!(fit, Fit::Fits) { after } else { end })
    }

    /// Writes the collection whose bracket ends here, if there is room for it behind so many columns or bytes. Returns
    /// where it ends, or how far it was looked at.
    fn put_behind(
        &mut self,
        bytes: &[u8],
        end: usize,
        is_object: bool,
        used: usize,
        counts_columns: bool,
    ) -> Result<(Fit, usize), AllocError> {
        let used = used.saturating_add(usize::from(!self.frame.is_document));
        if used > self.style.width {
            return Ok((Fit::Wide, end));
        }
        let room = self.style.width - used;
        put_in_line(&mut self.made, bytes, end, is_object, room, counts_columns)
    }

    /// Begins a collection over several lines.
    fn open_lines(&mut self, is_object: bool, is_in_rows: bool) -> Result<(), AllocError> {
        self.frames.push(self.frame)?;
        self.frame = Frame {
            outer: self.level,
            inner: self.level.saturating_add(1),
            is_document: false,
            is_object,
            is_in_rows,
        };
        self.place = Place::Entry;
        Ok(())
    }

    fn close(&mut self) {
        if let Some(outer) = self.frames.pop() {
            self.frame = outer;
        }
        self.end_value();
    }

    /// Writes the comma now if one is to follow any value, and else notes it.
    #[inline(always)]
    fn put_comma(&mut self, bytes: &[u8], lines: usize) -> Result<(), AllocError> {
        if matches!(self.place, Place::Ended) && !self.frame.is_document {
            if self.style.last_comma {
                self.lines = 0;
                return self.comma(bytes);
            }
            self.comma_due = true;
        }
        self.lines = self.lines.saturating_add(lines);
        Ok(())
    }

    #[inline(always)]
    fn comma(&mut self, bytes: &[u8]) -> Result<(), AllocError> {
        self.made.comma(bytes)?;
        self.place = Place::Entry;
        self.last = Kind::Comma;
        Ok(())
    }

    /// Whether a comma is to follow the value that ended: always, if it isn't the last.
    fn wants_comma(&mut self, bytes: &[u8], end: usize) -> bool {
        if self.frame.is_document {
            return false;
        }
        self.style.last_comma || self.is_followed(bytes, end)
    }

    /// Whether an entry follows the value that ended. It is sought once.
    fn is_followed(&mut self, bytes: &[u8], end: usize) -> bool {
        if matches!(self.next, Next::NotSought) {
            self.next = if has_entry(bytes, end) {
                Next::Entry
            } else {
                Next::NoEntry
            };
        }
        matches!(self.next, Next::Entry)
    }

    #[inline(never)]
    fn before_comment(
        &mut self,
        bytes: &[u8],
        comment: Lexeme,
        lines: usize,
    ) -> Result<(), AllocError> {
        let is_line = matches!(comment.kind, Kind::Line);
        let starts_line = self.starts_line(lines);
        if matches!(self.place, Place::Key | Place::Value) {
            return self.line_or_space(bytes, starts_line);
        }
        if matches!(self.place, Place::Ended) {
            if !is_line && !starts_line {
                return self.made.space(bytes);
            }
            if self.wants_comma(bytes, comment.end) {
                self.comma(bytes)?;
            }
        }
        self.note_ignore(bytes, comment, starts_line);
        self.before_entry_comment(bytes, comment, lines)
    }

    /// Notes a comment that asks to leave the next entry as it is: one on a line of its own, or in stars.
    fn note_ignore(&mut self, bytes: &[u8], comment: Lexeme, starts_line: bool) {
        if !starts_line
            && !matches!(self.last, Kind::End | Kind::Open)
            && matches!(comment.kind, Kind::Line)
        {
            return;
        }
        if is_ignore(comment.of(bytes)) {
            self.is_ignored = matches!(self.place, Place::Entry);
        }
    }

    fn before_entry_comment(
        &mut self,
        bytes: &[u8],
        comment: Lexeme,
        lines: usize,
    ) -> Result<(), AllocError> {
        if matches!(self.last, Kind::End) {
            return Ok(());
        }
        if !self.starts_line(lines) && self.stays_on_line(bytes, comment) {
            return self.made.space(bytes);
        }
        self.entry_line(bytes, lines)
    }

    /// Whether a comment between entries stays on the line that it is on: at its end, behind another comment, or in a
    /// row with the word that follows it.
    fn stays_on_line(&self, bytes: &[u8], comment: Lexeme) -> bool {
        match (self.last, comment.kind) {
            (Kind::Block, _) | (_, Kind::Line) => true,
            (Kind::Comma, _) if self.frame.is_in_rows && !comment.is_broken => {
                ends_line(bytes, comment.end) || self.has_room_for_both(bytes, comment)
            }
            _ => ends_line(bytes, comment.end),
        }
    }

    /// Whether the comment fits on the line, with the word that follows it.
    fn has_room_for_both(&self, bytes: &[u8], comment: Lexeme) -> bool {
        let next = lexeme_at(bytes, comment.end);
        let word = columns(next.of(bytes)).saturating_add(1);
        self.has_room(bytes, comment.of(bytes), word)
    }

    /// Whether the lexeme after so many line ends begins a line.
    #[inline(always)]
    fn starts_line(&self, lines: usize) -> bool {
        lines > 0 || matches!(self.last, Kind::Line)
    }

    /// Before an opening bracket, or any token that is no sign of punctuation.
    #[inline(always)]
    fn before_word(&mut self, bytes: &[u8], word: Lexeme, lines: usize) -> Result<(), AllocError> {
        let starts_line = self.starts_line(lines);
        let last = self.last;
        if !matches!(self.place, Place::Entry) {
            return self.line_or_space(bytes, starts_line && !matches!(last, Kind::Colon));
        }
        if matches!(last, Kind::End) {
            return Ok(());
        }
        if !starts_line && self.goes_on(bytes, last, word) {
            return self.made.space(bytes);
        }
        self.entry_line(bytes, lines)
    }

    /// Whether the entry that begins with this token goes on the same line.
    #[inline(always)]
    fn goes_on(&self, bytes: &[u8], last: Kind, word: Lexeme) -> bool {
        match last {
            Kind::Block => true,
            Kind::Comma => { self.frame.is_in_rows && self.has_room(bytes, word.of(bytes), 0) }
            _ => false,
        }
    }

    /// Whether the text fits on the line, behind a space and with a comma, and so many columns after it.
    fn has_room(&self, bytes: &[u8], text: &[u8], more: usize) -> bool {
        let room = self.style.width.saturating_sub(more.saturating_add(2));
        // No character takes more columns than it has bytes, but for tabs.
        self.style.indent > 0 && self.made.line_len().saturating_add(text.len()) <= room
            || self.made.column(bytes).saturating_add(columns(text)) <= room
    }

    /// Within a member: a new line, one level further in, or a space.
    #[inline(always)]
    fn line_or_space(&mut self, bytes: &[u8], starts_line: bool) -> Result<(), AllocError> {
        if starts_line {
            self.start_line(bytes, self.frame.inner.saturating_add(1))
        } else {
            self.made.space(bytes)
        }
    }

    /// A new line for an entry or a comment, after an empty one if there was one.
    #[inline(always)]
    fn entry_line(&mut self, bytes: &[u8], lines: usize) -> Result<(), AllocError> {
        if lines > 1 && !matches!(self.last, Kind::Open) {
            self.made.line_end(bytes, self.is_crlf)?;
        }
        self.start_line(bytes, self.frame.inner)
    }

    #[inline(always)]
    fn start_line(&mut self, bytes: &[u8], level: usize) -> Result<(), AllocError> {
        self.level = level;
        self.made
            .start_line(bytes, self.is_crlf, self.style.indent, level)
    }
}
