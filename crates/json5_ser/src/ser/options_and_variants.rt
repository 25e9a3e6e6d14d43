//! What users' types write that are no arrays and no objects: options, structs of one value or none, variants.

ghost use Rattle.std.specs.Prelude.{Some};
ghost use Rattle.std.specs.Str.{chars};
ghost use Rattle.json5_write.specs.WrittenTrees.{null, text, option_tree, newtype_variant};
ghost use Rattle.json5_write.specs.Writes.{WritesTree};

use crate::{Serialize, Serializer};
use json5_types::error::Result;
use std::io::Write;

impl<W: Write + Drop> Serializer<W> {
    /// Writes `null`.
    ///
    /// ```text
    /// ser.serialize_none()?    // null
    /// ```
    ///
    /// # Errors
    ///
    /// As every call: see [`Serializer`].
    pub fn serialize_none(&mut self) -> Result<()>
        ensures { WritesTree null self.old result self.new }
    {
        self.serialize_unit()
    }

    /// Writes the value itself.
    ///
    /// ```text
    /// ser.serialize_some(&80u16)?    // 80
    /// ```
    ///
    /// # Errors
    ///
    /// As every call: see [`Serializer`].
    pub fn serialize_some<T: Serialize>(&mut self, value: &T) -> Result<()>
        ensures { WritesTree (option_tree T.tree (Some value.now)) self.old result self.new }
    {
        value.serialize(self)
    }

    /// Writes `null`, for a struct without fields. The name changes nothing.
    ///
    /// ```text
    /// ser.serialize_unit_struct("Nothing")?    // null
    /// ```
    ///
    /// # Errors
    ///
    /// As every call: see [`Serializer`].
    pub fn serialize_unit_struct(&mut self, _name: &'static str) -> Result<()>
        ensures { WritesTree null self.old result self.new }
    {
        self.serialize_unit()
    }

    /// Writes the variant's name as a string. The type's name and the index change nothing.
    ///
    /// ```text
    /// ser.serialize_unit_variant("Reminder", 0, "off")?    // "off"
    /// ```
    ///
    /// # Errors
    ///
    /// As every call: see [`Serializer`].
    pub fn serialize_unit_variant(
        &mut self,
        _name: &'static str,
        _index: u32,
        variant: &'static str,
    ) -> Result<()>
        ensures { WritesTree (text (chars variant.now)) self.old result self.new }
    {
        self.serialize_str(variant)
    }

    /// Writes the value that a struct of one field holds. The name changes nothing.
    ///
    /// ```text
    /// ser.serialize_newtype_struct("Id", &7u32)?    // 7
    /// ```
    ///
    /// # Errors
    ///
    /// As every call: see [`Serializer`].
    pub fn serialize_newtype_struct<T: Serialize>(
        &mut self,
        _name: &'static str,
        value: &T,
    ) -> Result<()>
        ensures { WritesTree (T.tree value.now) self.old result self.new }
    {
        value.serialize(self)
    }

    /// Writes an object of one member: the variant's name, and the value. The type's name and the index change nothing.
    ///
    /// ```text
    /// ser.serialize_newtype_variant("Reminder", 1, "daily", &7u8)?    // three lines: `{`, `  daily: 7,` and `}`
    /// ```
    ///
    /// # Errors
    ///
    /// As every call: see [`Serializer`].
    pub fn serialize_newtype_variant<T: Serialize>(
        &mut self,
        _name: &'static str,
        _index: u32,
        variant: &'static str,
        value: &T,
    ) -> Result<()>
        ensures { WritesTree (newtype_variant (chars variant.now) (T.tree value.now)) self.old result self.new }
    {
        let mut fields = self.serialize_map(Some(1))?;
        fields.serialize_field(variant, value)?;
        fields.end()
    }
}
