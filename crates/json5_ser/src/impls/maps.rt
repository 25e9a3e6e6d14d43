//! Maps, written as objects (JSON5 section 3).

use crate::impls::printable::Printable;
use crate::{Serialize, SerializeKey, Serializer};
use indexmap::IndexMap;
use json5_write::brackets::Brackets;
use json5_write::refusal::Put;
use std::collections::BTreeMap;
use std::hash::Hash;
use std::io::Write;

/// Writes an object of the entries, in the order of the keys.
impl<K: SerializeKey + Ord, V: Serialize> Printable for BTreeMap<K, V> {
    ghost use Rattle.json5_write.specs.WrittenTrees.{object, fields_of};

    ghost tree = { λ m. object (fields_of K.as_key V.tree m.entries) };

    fn print<W: Write + Drop>(&self, ser: &mut Serializer<W>) -> Put {
        ser.printer.open_brackets(Brackets::Curly)?;
        let mut comma_due = false;
        for (key, value) in self {
            ser.put_member(comma_due, key, value)?;
            comma_due = true;
        }
        ser.printer.close_brackets(comma_due, Brackets::Curly)
    }
}

/// Writes an object of the entries, in their order.
impl<K: SerializeKey + Eq + Hash, V: Serialize> Printable for IndexMap<K, V> {
    ghost use Rattle.json5_write.specs.WrittenTrees.{object, fields_of};

    ghost tree = { λ m. object (fields_of K.as_key V.tree m.entries) };

    fn print<W: Write + Drop>(&self, ser: &mut Serializer<W>) -> Put {
        ser.printer.open_brackets(Brackets::Curly)?;
        let mut comma_due = false;
        for (key, value) in self {
            ser.put_member(comma_due, key, value)?;
            comma_due = true;
        }
        ser.printer.close_brackets(comma_due, Brackets::Curly)
    }
}
