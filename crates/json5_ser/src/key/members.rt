//! The members of an object: keys with their values, each on a line of its own.

ghost use Rattle.std.specs.Prelude.{◌≡◌, ◌+◌, OnOk};
ghost use Rattle.std.specs.Str.{chars};
ghost use Rattle.json5_write.specs.Out.{out, key_out, key_part, value_part, entry_out};
ghost use Rattle.json5_ser.specs.Brackets.{variant_of};
ghost use Rattle.json5_write.specs.Commas.{comma_before, member_line};
ghost use Rattle.json5_write.specs.ShortWrites.{Puts};
ghost use Rattle.json5_write.specs.WrittenTrees.{named};
ghost use Rattle.json5_write.specs.Writes.{Writes, at_depth};

use crate::{MapKey, Serialize, SerializeKey, Serializer};
use json5_types::error::Result;
use json5_write::brackets::Brackets;
use json5_write::refusal::{Put, Refused};
use std::io::Write;

impl<W: Write + Drop> Serializer<W> {
    /// A key on a line of its own.
    pub(crate) fn write_key<K: SerializeKey>(&mut self, key: &K) -> Result<()>
        ensures { Writes (key_part self.old.depth (K.as_key key.now)) self.old result self.new }
    {
        self.printer.start_line(false)?;
        key.serialize_key(MapKey { ser: self })
    }

    /// A key, and its value.
    pub(crate) fn write_entry<K: SerializeKey, T: Serialize>(
        &mut self,
        key: &K,
        value: &T,
    ) -> Result<()>
        ensures { Writes (entry_out self.old.limit self.old.depth (K.as_key key.now) (T.tree value.now)) self.old result self.new }
    {
        let written = self.write_key(key);
        if written.is_err() {
            return written;
        }
        self.write_value(value)
    }

    /// The name of a field on a line of its own.
    fn put_field_key(&mut self, name: &str) -> Put
        ensures { Puts (key_part self.old.depth (named (chars name.now))) self.old result self.new }
    {
        self.printer.start_line(false)?;
        self.printer.put_key(name)
    }

    /// The name of a field, and its value.
    pub(crate) fn write_field<T: Serialize>(&mut self, name: &str, value: &T) -> Result<()>
        ensures { Writes (entry_out self.old.limit self.old.depth (named (chars name.now)) (T.tree value.now)) self.old result self.new }
    {
        self.put_field_key(name)?;
        self.write_value(value)
    }

    /// Opens the object of a variant, and what the variant holds.
    pub(crate) fn open_variant(&mut self, variant: &'static str, brackets: Brackets) -> Result<()>
        ensures opens { Writes (variant_of self.old (chars variant.now) brackets) self.old result (at_depth self.old.depth self.new) }
        ensures deeper { OnOk result (self.new.depth ≡ self.old.depth + 1 + 1) }
    {
        self.printer.open_brackets(Brackets::Curly)?;
        self.write_key(&variant)?;
        self.put(": ")?;
        self.printer.open_brackets(brackets)?;
        Ok(())
    }

    /// A key, whose refusal is returned as one byte.
    fn put_map_key<K: SerializeKey>(&mut self, key: &K) -> Put
        ensures { Puts (key_out (K.as_key key.now)) self.old result self.new }
    {
        match key.serialize_key(MapKey { ser: self }) {
            Ok(()) => Ok(()),
            Err(error) => Err(Refused::of(&error)),
        }
    }

    /// The line of a member, without the comma after it.
    pub(crate) fn put_member<K: SerializeKey, T: Serialize>(
        &mut self,
        comma_due: bool,
        key: &K,
        value: &T,
    ) -> Put
        ensures { Puts (comma_before comma_due (member_line self.old.limit self.old.depth (K.as_key key.now) (T.tree value.now))) self.old result self.new }
    {
        self.printer.start_line(comma_due)?;
        self.put_map_key(key)?;
        self.printer.put_piece(": ")?;
        value.put(self)
    }

    /// The value after a key.
    pub(crate) fn write_value<T: Serialize>(&mut self, value: &T) -> Result<()>
        ensures { Writes (value_part (out self.old.limit (T.tree value.now) self.old.depth)) self.old result self.new }
    {
        self.printer.put_piece(": ")?;
        value.put(self)?;
        Ok(self.printer.put_piece(",")?)
    }
}
