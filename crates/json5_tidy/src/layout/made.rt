//! What was written of the layout. What stands in it as it does in the text is copied at once.

use crate::layout::columns::{columns, tabs_in_front};
use crate::layout::lines::line_start;
use std::alloc::{AllocError, Global};

/// A line end, and spaces for the indentation of a line.
const LINE: &[u8; 65] = b"\n                                                                ";

/// What was written, and a part of the text that is to follow it.
#[derive(Drop)]
pub(crate) struct Made {
    out: Vec<u8>,
    /// Where the current line begins in `out`.
    line: usize,
    /// Where the part of the text begins that isn't copied yet.
    from: usize,
    /// Where it ends.
    to: usize,
    /// How many columns a tab has.
    tab: usize,
}

/// How far something was written.
#[derive(Clone, Copy, Drop)]
pub(crate) struct Mark {
    len: usize,
    from: usize,
    to: usize,
}

impl Made {
    pub(crate) fn new(alloc: Global, room: usize, tab: usize) -> Result<Made, AllocError> {
        Ok(Made {
            out: Vec::with_capacity(alloc, room)?,
            line: 0,
            from: 0,
            to: 0,
            tab,
        })
    }

    /// What was written.
    pub(crate) fn finish(mut self, bytes: &[u8]) -> Result<Vec<u8>, AllocError> {
        self.flush(bytes)?;
        Ok(self.out)
    }

    /// How far it is written.
    #[inline(always)]
    pub(crate) fn mark(&self) -> Mark {
        Mark {
            len: self.out.len(),
            from: self.from,
            to: self.to,
        }
    }

    /// Takes back what was written since.
    #[inline(always)]
    pub(crate) fn take_back(&mut self, mark: Mark) {
        self.out.truncate(mark.len);
        self.from = mark.from;
        self.to = mark.to;
    }

    /// Writes this part of the text.
    #[inline(always)]
    pub(crate) fn part(
        &mut self,
        bytes: &[u8],
        start: usize,
        end: usize,
    ) -> Result<(), AllocError> {
        if start != self.to {
            self.flush(bytes)?;
            self.from = start;
        }
        self.to = end;
        Ok(())
    }

    /// Writes the same, behind a space, and a comma before that, as the gap has columns.
    #[inline(always)]
    pub(crate) fn part_behind(
        &mut self,
        bytes: &[u8],
        gap: usize,
        start: usize,
        end: usize,
    ) -> Result<(), AllocError> {
        if gap > 1 {
            self.comma(bytes)?;
        }
        if gap > 0 {
            self.space(bytes)?;
        }
        self.part(bytes, start, end)
    }

    /// Writes a space.
    #[inline(always)]
    pub(crate) fn space(&mut self, bytes: &[u8]) -> Result<(), AllocError> {
        self.byte(bytes, b' ')
    }

    /// Writes a comma.
    #[inline(always)]
    pub(crate) fn comma(&mut self, bytes: &[u8]) -> Result<(), AllocError> {
        self.byte(bytes, b',')
    }

    /// Writes a byte, as part of the text if it is next there.
    #[inline(always)]
    fn byte(&mut self, bytes: &[u8], byte: u8) -> Result<(), AllocError> {
        if self.from < self.to && bytes.get(self.to).copied() == Some(byte) {
            self.to = self.to.saturating_add(1);
            return Ok(());
        }
        self.flush(bytes)?;
        self.out.push(byte)?;
        Ok(())
    }

    /// Copies the part of the text.
    #[inline(always)]
    fn flush(&mut self, bytes: &[u8]) -> Result<(), AllocError> {
        if self.from < self.to {
            self.out
                .extend_from_slice(bytes.get(self.from..self.to).unwrap_or(b""))?;
        }
        self.from = self.to;
        Ok(())
    }

    /// Begins a line, so far indented.
    pub(crate) fn start_line(
        &mut self,
        bytes: &[u8],
        is_crlf: bool,
        indent: usize,
        level: usize,
    ) -> Result<(), AllocError> {
        let width = level.saturating_mul(indent);
        if is_crlf || width == 0 || width > 64 {
            return self.start_any_line(bytes, is_crlf, indent, level);
        }
        self.flush(bytes)?;
        self.line = self.out.len().saturating_add(1);
        self.out.extend_from_slice(&LINE[..width + 1])
    }

    /// The same for any indentation.
    #[inline(never)]
    fn start_any_line(
        &mut self,
        bytes: &[u8],
        is_crlf: bool,
        indent: usize,
        level: usize,
    ) -> Result<(), AllocError> {
        self.line_end(bytes, is_crlf)?;
        for _ in 0..level {
            self.indent(indent)?;
        }
        Ok(())
    }

    /// Indents by one level.
    fn indent(&mut self, indent: usize) -> Result<(), AllocError> {
        if indent == 0 {
            self.out.push(b'\t')?;
        }
        for _ in 0..indent {
            self.out.push(b' ')?;
        }
        Ok(())
    }

    /// Begins a line after a line end that was written, at this column: with the tabs of the level as far as they fit, and
    /// spaces.
    pub(crate) fn start_at(
        &mut self,
        bytes: &[u8],
        indent: usize,
        level: usize,
        column: usize,
    ) -> Result<(), AllocError> {
        self.flush(bytes)?;
        self.line = self.out.len();
        let tabs = match indent {
            0 => level.min(column / self.tab.max(1)),
            _ => 0,
        };
        for _ in 0..tabs {
            self.out.push(b'\t')?;
        }
        for _ in tabs.saturating_mul(self.tab)..column {
            self.out.push(b' ')?;
        }
        Ok(())
    }

    /// Ends the line.
    pub(crate) fn line_end(&mut self, bytes: &[u8], is_crlf: bool) -> Result<(), AllocError> {
        self.flush(bytes)?;
        if is_crlf {
            self.out.push(b'\r')?;
        }
        self.out.push(b'\n')?;
        self.line = self.out.len();
        Ok(())
    }

    /// Notes where the current line begins, after a part of the text that may hold line ends.
    pub(crate) fn note_lines(
        &mut self,
        bytes: &[u8],
        start: usize,
        end: usize,
    ) -> Result<(), AllocError> {
        self.flush(bytes)?;
        let text = bytes.get(start..end).unwrap_or(b"");
        let line = line_start(text);
        if line > 0 {
            let len = text.len().saturating_sub(line);
            self.line = self.out.len().saturating_sub(len);
        }
        Ok(())
    }

    /// How many bytes the current line has.
    #[inline(always)]
    pub(crate) fn line_len(&self) -> usize {
        self.out
            .len()
            .saturating_sub(self.line)
            .saturating_add(self.to.saturating_sub(self.from))
    }

    /// How many columns the line has.
    pub(crate) fn columns_of(&self, line: &[u8]) -> usize {
        let more = self.tab.saturating_sub(1);
        columns(line).saturating_add(tabs_in_front(line).saturating_mul(more))
    }

    /// How many columns the current line has.
    pub(crate) fn column(&self, bytes: &[u8]) -> usize {
        let copied = match self.out.as_slice().get(self.line..) {
            Some(line) => self.columns_of(line),
            None => 0,
        };
        match bytes.get(self.from..self.to) {
            Some(rest) => copied.saturating_add(columns(rest)),
            None => copied,
        }
    }
}
