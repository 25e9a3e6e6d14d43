//! Lists, and tuples, written as arrays (JSON5 section 4).

ghost use Rattle.json5_write.specs.WrittenTrees.{array, elements_of};
ghost use Rattle.json5_write.specs.Commas.{comma_before, element_line};
ghost use Rattle.json5_write.specs.ShortWrites.{Puts, PutsTree};

use crate::impls::printable::Printable;
use crate::{Serialize, Serializer};
use json5_write::brackets::Brackets;
use json5_write::refusal::Put;
use std::io::Write;

/// Writes the line of an element, without the comma after it.
#[inline(always)]
fn put_item<T: Serialize, W: Write + Drop>(
    comma_due: bool,
    item: &T,
    ser: &mut Serializer<W>,
) -> Put
    ensures { Puts (comma_before comma_due (element_line ser.old.limit ser.old.depth (T.tree item.now))) ser.old result ser.new }
{
    ser.printer.start_line(comma_due)?;
    item.put(ser)
}

/// Writes an array of these elements.
fn put_items<T: Serialize, W: Write + Drop>(items: &[T], ser: &mut Serializer<W>) -> Put
    ensures { PutsTree (array (elements_of T.tree items.now)) ser.old result ser.new }
{
    ser.printer.open_brackets(Brackets::Square)?;
    let mut comma_due = false;
    for item in items {
        put_item(comma_due, item, ser)?;
        comma_due = true;
    }
    ser.printer.close_brackets(comma_due, Brackets::Square)
}

/// Writes an array of the elements.
impl<T: Serialize> Printable for Vec<T> {
    ghost tree = { λ v. array (elements_of T.tree v.items) };

    fn print<W: Write + Drop>(&self, ser: &mut Serializer<W>) -> Put {
        put_items(self, ser)
    }
}

/// Writes an array of the elements.
impl<T: Serialize, const N: usize> Printable for [T; N] {
    ghost tree = { λ v. array (elements_of T.tree v) };

    fn print<W: Write + Drop>(&self, ser: &mut Serializer<W>) -> Put {
        put_items(self, ser)
    }
}

/// Writes an array of one element.
impl<A: Serialize> Printable for (A,) {
    ghost use Rattle.json5_write.specs.WrittenTrees.{array, element, no_element};

    ghost tree = { λ t. array (element (A.tree t.0) no_element) };

    fn print<W: Write + Drop>(&self, ser: &mut Serializer<W>) -> Put {
        ser.printer.open_brackets(Brackets::Square)?;
        put_item(false, &self.0, ser)?;
        ser.printer.close_brackets(true, Brackets::Square)
    }
}

/// Writes an array of two elements.
impl<A: Serialize, B: Serialize> Printable for (A, B) {
    ghost use Rattle.json5_write.specs.WrittenTrees.{array, element, no_element};

    ghost tree = { λ t. array (element (A.tree t.0) (element (B.tree t.1) no_element)) };

    fn print<W: Write + Drop>(&self, ser: &mut Serializer<W>) -> Put {
        ser.printer.open_brackets(Brackets::Square)?;
        put_item(false, &self.0, ser)?;
        put_item(true, &self.1, ser)?;
        ser.printer.close_brackets(true, Brackets::Square)
    }
}

/// Writes an array of three elements.
impl<A: Serialize, B: Serialize, C: Serialize> Printable for (A, B, C) {
    ghost use Rattle.json5_write.specs.WrittenTrees.{array, element, no_element};

    ghost tree = { λ t. array (element (A.tree t.0) (element (B.tree t.1) (element (C.tree t.2) no_element))) };

    fn print<W: Write + Drop>(&self, ser: &mut Serializer<W>) -> Put {
        ser.printer.open_brackets(Brackets::Square)?;
        put_item(false, &self.0, ser)?;
        put_item(true, &self.1, ser)?;
        put_item(true, &self.2, ser)?;
        ser.printer.close_brackets(true, Brackets::Square)
    }
}

/// Writes an array of four elements.
impl<A: Serialize, B: Serialize, C: Serialize, D: Serialize> Printable for (A, B, C, D) {
    ghost use Rattle.json5_write.specs.WrittenTrees.{array, element, no_element};

    ghost tree = { λ t. array (element (A.tree t.0) (element (B.tree t.1) (element (C.tree t.2) (element (D.tree t.3) no_element)))) };

    fn print<W: Write + Drop>(&self, ser: &mut Serializer<W>) -> Put {
        ser.printer.open_brackets(Brackets::Square)?;
        put_item(false, &self.0, ser)?;
        put_item(true, &self.1, ser)?;
        put_item(true, &self.2, ser)?;
        put_item(true, &self.3, ser)?;
        ser.printer.close_brackets(true, Brackets::Square)
    }
}
