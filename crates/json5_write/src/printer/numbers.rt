//! Numbers (JSON5 section 6).

ghost use Rattle.json5_grammar.specs.Language.Numbers as numbers;
ghost use Rattle.json5_write.specs.ShortWrites.{PutsTree};
ghost use Rattle.json5_write.specs.WrittenTrees.{integer, natural, number};

use crate::Printer;
use crate::refusal::Put;
use itoa::Buffer;
use json5_types::decimal::Decimal;
use std::io::Write;

impl<W: Write + Drop> Printer<W> {
    /// Writes the decimal digits of a number that isn't negative, by 64 bits where it has no more.
    #[inline(always)]
    pub fn put_unsigned(&mut self, value: u128) -> Put
        ensures { PutsTree (natural value) self.old result self.new }
    {
        let mut buffer = Buffer::new();
        match u64::try_from(value) {
            Ok(narrow) => self.put_piece(buffer.format(narrow)),
            Err(_) => self.put_piece(buffer.format(value)),
        }
    }

    /// Writes the decimal digits of a number, after a minus where it is negative, by 64 bits where it has no more.
    #[inline(always)]
    pub fn put_signed(&mut self, value: i128) -> Put
        ensures { PutsTree (integer value) self.old result self.new }
    {
        let mut buffer = Buffer::new();
        match i64::try_from(value) {
            Ok(narrow) => self.put_piece(buffer.format(narrow)),
            Err(_) => self.put_piece(buffer.format(value)),
        }
    }

    /// Writes a decimal in plain notation, always with a point; else `Infinity` or `NaN`. A minus is before what is negative,
    /// zero too. A few digits with a large exponent have a long text.
    pub fn put_decimal(&mut self, value: &Decimal) -> Put
        ensures { PutsTree (number (numbers.decimal value.now)) self.old result self.new }
    {
        let mut pieces = value.pieces();
        while let Some(piece) = pieces.next_piece() {
            self.put_piece(piece)?;
        }
        Ok(())
    }
}
