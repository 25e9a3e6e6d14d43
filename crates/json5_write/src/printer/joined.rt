//! Pieces that stand together, which are written at once.

ghost use Rattle.std.specs.Prelude.{◌∷◌};
ghost use Rattle.std.specs.Fmt.{decimal};
ghost use Rattle.std.specs.Str.{chars};
ghost use Rattle.json5_write.specs.Brackets.{sign_of};
ghost use Rattle.json5_write.specs.Out.{piece};
ghost use Rattle.json5_write.specs.Pieces.{between_quotes};
ghost use Rattle.json5_write.specs.ShortWrites.{Puts};

use crate::Printer;
use crate::brackets::BeforeElement;
use crate::joined_write::JoinedWrite;
use crate::refusal::{Put, Refused};

impl<W: JoinedWrite + Drop> Printer<W> {
    /// Writes the text between double quotes.
    #[inline(always)]
    pub fn put_between_quotes(&mut self, text: &str) -> Put
        ensures { Puts (piece (between_quotes (chars text.now))) self.old result self.new }
    {
        if self.failed {
            return Err(Refused::Before);
        }
        if self.writer.write_between_quotes(text.as_bytes()).is_ok() {
            return Ok(());
        }
        self.failed = true;
        Err(Refused::ByWriter)
    }

    /// Writes what stands before an element, and after it the text between double quotes.
    #[inline(always)]
    pub fn put_quoted_after(&mut self, before: BeforeElement, text: &str) -> Put
        ensures { Puts (piece (sign_of before ∷ between_quotes (chars text.now))) self.old result self.new }
    {
        if self.failed {
            return Err(Refused::Before);
        }
        if self
            .writer
            .write_quoted_after(before.byte(), text.as_bytes())
            .is_ok()
        {
            return Ok(());
        }
        self.failed = true;
        Err(Refused::ByWriter)
    }

    /// Writes what stands before an element, and after it the decimal digits of the number.
    #[inline(always)]
    pub fn put_number_after(&mut self, before: BeforeElement, number: u64) -> Put
        ensures { Puts (piece (sign_of before ∷ decimal number)) self.old result self.new }
    {
        if self.failed {
            return Err(Refused::Before);
        }
        if self
            .writer
            .write_number_after(before.byte(), number)
            .is_ok()
        {
            return Ok(());
        }
        self.failed = true;
        Err(Refused::ByWriter)
    }
}
