//! Whether a collection fits on the rest of a line.

ghost use Rattle.std.specs.Prelude.{◌≡◌, false};
ghost use Rattle.json5_tidy.specs.Lexemes.{is_end};

use crate::layout::columns::columns;
use crate::layout::lexemes::{Kind, Lexeme};

/// Measures a collection as if it were on one line.
#[derive(Drop)]
pub(crate) struct Measure {
    /// Whether columns are counted, and not bytes.
    counts_columns: bool,
    /// How many columns or bytes are left.
    room: usize,
    /// How many brackets are open.
    depth: usize,
    /// Whether an opening bracket came before.
    is_opened: bool,
    /// Whether that is a brace.
    is_in_brace: bool,
    /// Whether no token follows the innermost bracket so far.
    is_first: bool,
    comma_due: bool,
}

/// What came of measuring.
#[derive(Clone, Copy, Drop)]
pub(crate) enum Fit {
    Fits,
    /// Something in it needs a line of its own.
    Breaks,
    /// It is too wide.
    Wide,
}

impl Measure {
    /// Within an opening bracket, with so many columns or bytes after it.
    pub(crate) fn new(is_object: bool, room: usize, counts_columns: bool) -> Measure {
        Measure {
            counts_columns,
            room,
            depth: 1,
            is_opened: true,
            is_in_brace: is_object,
            is_first: true,
            comma_due: false,
        }
    }

    /// Whether the collection has ended.
    #[inline(always)]
    pub(crate) fn is_over(&self) -> bool {
        self.depth == 0
    }

    /// Whether the lexeme can't be on the line: it ends the text or the line, or a line ends in it, or between a
    /// bracket and it.
    #[inline(always)]
    pub(crate) fn is_broken_by(&self, lexeme: Lexeme) -> bool
        ensures { (result ≡ false) → is_end lexeme ≡ false }
    {
        if lexeme.is_broken || matches!(lexeme.kind, Kind::End | Kind::Line) {
            return true;
        }
        if !self.is_first || lexeme.lines == 0 {
            return false;
        }
        !(self.is_opened && matches!(lexeme.kind, Kind::Close))
    }

    /// Whether a comma was passed that belongs before the next entry.
    #[inline(always)]
    pub(crate) fn is_comma_due(&self) -> bool {
        self.comma_due
    }

    /// Passes a comma. It counts where an entry follows.
    #[inline(always)]
    pub(crate) fn pass_comma(&mut self) {
        self.comma_due = true;
    }

    /// Takes the comma that is due, if there is room for it.
    pub(crate) fn takes_comma(&mut self) -> bool {
        self.comma_due = false;
        self.takes_width(1)
    }

    /// How many columns stand before the lexeme: a space or none, and a comma if one is due.
    #[inline(always)]
    pub(crate) fn gap(&self, kind: Kind, byte: u8) -> usize {
        match kind {
            Kind::Colon => 0,
            Kind::Close => usize::from(byte == b'}' && !self.is_opened),
            Kind::Block => usize::from(!self.is_opened || self.is_in_brace),
            _ if self.is_opened => usize::from(self.is_in_brace),
            _ => usize::from(self.comma_due).saturating_add(1),
        }
    }

    /// Takes the lexeme, which is no comma, and so many columns before it, if there is room for them.
    #[inline(always)]
    pub(crate) fn takes(&mut self, bytes: &[u8], lexeme: Lexeme, byte: u8, gap: usize) -> bool {
        if !matches!(lexeme.kind, Kind::Block) {
            self.is_first = false;
            self.comma_due = false;
        }
        let is_taken = self.takes_width(gap.saturating_add(self.width(bytes, lexeme)));
        match lexeme.kind {
            Kind::Open => self.open(byte == b'{'),
            Kind::Close => self.depth = self.depth.saturating_sub(1),
            _ => {}
        }
        is_taken
    }

    #[inline(always)]
    fn width(&self, bytes: &[u8], lexeme: Lexeme) -> usize {
        if self.counts_columns {
            columns(lexeme.of(bytes))
        } else {
            lexeme.end.saturating_sub(lexeme.start)
        }
    }

    /// Takes so many columns, if there is room for them.
    #[inline(always)]
    fn takes_width(&mut self, width: usize) -> bool {
        if width > self.room {
            return false;
        }
        self.room = self.room.saturating_sub(width);
        self.is_opened = false;
        true
    }

    #[inline(always)]
    fn open(&mut self, is_brace: bool) {
        self.depth = self.depth.saturating_add(1);
        self.is_opened = true;
        self.is_in_brace = is_brace;
        self.is_first = true;
    }
}
