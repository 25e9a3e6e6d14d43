//! Writers that take pieces which stand together at once.

ghost use Rattle.std.specs.Prelude.{◌∷◌};
ghost use Rattle.std.specs.Fmt.{decimal};
ghost use Rattle.json5_write.specs.Pieces.{Pushes, between_quotes};

use std::io::{self, Write};

/// A writer that takes pieces which stand together at once, so that a writer in memory tests once for their room.
pub trait JoinedWrite: Write {
    /// Writes the text between double quotes.
    fn write_between_quotes(&mut self, text: &[u8]) -> io::Result<()>
        ensures { Pushes (Self.contents self.old) (Self.contents self.new) (between_quotes text.now) result };

    /// Writes a byte, and after it the text between double quotes.
    fn write_quoted_after(&mut self, mark: u8, text: &[u8]) -> io::Result<()>
        ensures { Pushes (Self.contents self.old) (Self.contents self.new) (mark ∷ between_quotes text.now) result };

    /// Writes a byte, and after it the decimal digits of the number.
    fn write_number_after(&mut self, mark: u8, number: u64) -> io::Result<()>
        ensures { Pushes (Self.contents self.old) (Self.contents self.new) (mark ∷ decimal number) result };
}
