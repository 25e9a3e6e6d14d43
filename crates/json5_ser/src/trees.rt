//! Types that hold themselves, as a tree does. An access can't write one, as its own impl isn't proved yet where it is called.

ghost use Rattle.json5_write.specs.ShortWrites.{PutsTree};
ghost use Rattle.json5_write.specs.WrittenTrees.{Written};

use crate::Serializer;
use json5_write::Printer;
use json5_write::refusal::Put;
use std::io::Write;

/// A type that holds itself and writes itself to a [`Printer`].
pub trait PutTree {
    ghost tree: { Self → Written };

    /// Writes the text of the value's tree, within the brackets that are open.
    fn put_tree<W: Write + Drop>(&self, printer: &mut Printer<W>) -> Put
        ensures { PutsTree (tree self.now) printer.old result printer.new };
}

/// Writes the text of the value's tree, within the brackets that are open: the `put` of such a type's `Serialize`.
pub fn put_tree<T: PutTree, W: Write + Drop>(value: &T, ser: &mut Serializer<W>) -> Put
    ensures { PutsTree (T.tree value.now) ser.old result ser.new }
{
    value.put_tree(&mut ser.printer)
}
