//! Writing the parts of a text to a writer.

ghost use Rattle.std.specs.Prelude.{◌≡◌, ◌≤◌, ◌-◌};
ghost use Rattle.std.specs.Str.{chars};
ghost use Rattle.json5_grammar.specs.Language.Documents.{max_depth};
ghost use Rattle.json5_grammar.specs.Faults.Fronts.{closing};
ghost use Rattle.json5_write.specs.Brackets.{bracket_of};
ghost use Rattle.json5_write.specs.Commas.{comma_before, closed_after};
ghost use Rattle.json5_write.specs.Out.{piece, stopped, line, closed_by, too_deep, key_out};
ghost use Rattle.json5_write.specs.ShortWrites.{OpensBrackets, Puts};
ghost use Rattle.json5_write.specs.WrittenTrees.{named};
ghost use Rattle.json5_write.specs.Writes.{SerializerState, fresh_within, after_closing};

mod joined;
mod numbers;
mod strings;

use crate::brackets::Brackets;
use crate::identifiers::is_identifier;
use crate::line_starts::line;
use crate::refusal::{Put, Refused};
use crate::write_whole::write_whole;
use json5_types::nesting::Limit;
use std::io::Write;
use std::marker::Model;

/// Writes the parts of a text to `W`, one after another. It counts the brackets that are open, and knows whether a call was
/// refused. Each call writes its text whole, in one or more pieces, and takes no memory itself. `flush` is never called.
///
/// A refusal is one byte (`Refused`), so that no frame of a call that writes values holds an `Error`. After one, each call
/// writes nothing and returns `Refused::Before`.
#[derive(Drop)]
pub struct Printer<W: Write + Drop> {
    writer: W,
    depth: u8,
    limit: Limit,
    failed: bool,
}

impl<W: Write + Drop> Model for Printer<W> {
    ghost Value = { SerializerState };

    ghost view = { λ s. record { known = W.contents s.writer; depth = s.depth; limit = s.limit; failed = s.failed } };

    ghost invariant = { λ s. s.depth ≤ max_depth };
}

impl<W: Write + Drop> Printer<W> {
    /// Makes a printer that opens no more brackets at once than the limit. Nothing is written yet.
    pub fn within(writer: W, limit: Limit) -> Self
        ensures { result ≡ fresh_within limit (W.contents writer) }
    {
        Printer {
            writer,
            depth: 0,
            limit,
            failed: false,
        }
    }

    /// Returns the writer, with what was written.
    pub fn into_inner(self) -> W
        ensures { W.contents result ≡ self.known }
    {
        let Printer {
            writer,
            depth: _,
            limit: _,
            failed: _,
        } = self;
        writer
    }

    /// Says whether a call was refused before.
    pub fn has_failed(&self) -> bool
        ensures { result ≡ self.now.failed }
    {
        self.failed
    }

    /// Sets whether a call was refused before.
    pub fn set_failed(&mut self, failed: bool)
        ensures { self.new ≡ record self.old { failed = failed } }
    {
        self.failed = failed;
    }

    /// Writes a piece, unless a call was refused before.
    #[inline(always)]
    pub fn put_piece(&mut self, text: &str) -> Put
        ensures { Puts (piece (chars text.now)) self.old result self.new }
    {
        if self.failed {
            return Err(Refused::Before);
        }
        if write_whole(&mut self.writer, text.as_bytes()).is_ok() {
            return Ok(());
        }
        self.failed = true;
        Err(Refused::ByWriter)
    }

    /// Writes a key's text, between quotes if it is no identifier.
    pub fn put_key(&mut self, text: &str) -> Put
        ensures { Puts (key_out (named (chars text.now))) self.old result self.new }
    {
        if is_identifier(text) {
            self.put_piece(text)
        } else {
            self.put_str(text)
        }
    }

    /// Starts the line of an element, of a member, or of the bracket that closes, after a comma where one is due.
    pub fn start_line(&mut self, comma_due: bool) -> Put
        ensures { Puts (comma_before comma_due (piece (line self.old.depth))) self.old result self.new }
    {
        self.put_piece(line(comma_due, self.depth))
    }

    /// Refuses a bracket past the limit.
    #[cold]
    #[inline(never)]
    fn refuse_bracket(&mut self) -> Put
        ensures { Puts (stopped too_deep) self.old result self.new }
    {
        if !self.failed {
            self.failed = true;
            return Err(Refused::TooDeep);
        }
        Err(Refused::Before)
    }

    /// Opens a collection.
    pub fn open_brackets(&mut self, brackets: Brackets) -> Put
        ensures { OpensBrackets brackets self.old result self.new }
    {
        if self.depth >= self.limit.get() {
            return self.refuse_bracket();
        }
        self.put_piece(brackets.opening())?;
        self.depth += 1;
        Ok(())
    }

    /// Closes a collection whose last member has its comma. The bracket is on its own line if there is a member.
    pub fn close(&mut self, has_member: bool, brackets: Brackets) -> Put
        ensures { Puts (closed_by (self.old.depth - 1) has_member (closing (bracket_of brackets))) (after_closing self.old) result self.new }
    {
        self.depth = self.depth.saturating_sub(1);
        if !has_member {
            return self.put_piece(brackets.closing());
        }
        self.start_line(false)?;
        self.put_piece(brackets.closing())
    }

    /// Closes a collection whose last member lacks its comma, if it has one.
    pub fn close_brackets(&mut self, comma_due: bool, brackets: Brackets) -> Put
        ensures { Puts (closed_after comma_due (self.old.depth - 1) (closing (bracket_of brackets))) (after_closing self.old) result self.new }
    {
        self.depth = self.depth.saturating_sub(1);
        if !comma_due {
            return self.put_piece(brackets.closing());
        }
        self.start_line(true)?;
        self.put_piece(brackets.closing())
    }
}
