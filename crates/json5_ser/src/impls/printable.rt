//! The types that are written by one call, which makes no `Error`.

ghost use Rattle.json5_write.specs.ShortWrites.{PutsTree};
ghost use Rattle.json5_write.specs.WrittenTrees.{Written};

use crate::{Serialize, Serializer};
use json5_types::error::Result;
use json5_write::refusal::Put;
use std::io::Write;

/// A type whose `serialize` and `put` are both this one call. No other crate can name it, so a user's type has its own
/// `Serialize`. References are among these types, since an impl for `&T` can't stand beside the one for every `T` below.
pub trait Printable {
    ghost tree: { Self → Written };

    /// Writes the text of the value's tree, within the brackets that are open.
    fn print<W: Write + Drop>(&self, ser: &mut Serializer<W>) -> Put
        ensures { PutsTree (tree self.now) ser.old result ser.new };
}

/// Writes what `print` writes; a refusal becomes an `Error` out of line.
impl<T: Printable> Serialize for T {
    ghost tree = { T.tree };

    fn serialize<W: Write + Drop>(&self, ser: &mut Serializer<W>) -> Result<()> {
        Ok(self.print(ser)?)
    }

    fn put<W: Write + Drop>(&self, ser: &mut Serializer<W>) -> Put {
        self.print(ser)
    }
}
