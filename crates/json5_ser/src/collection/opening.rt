//! The calls that open an array or an object.

ghost use Rattle.std.specs.Prelude.{IfOk};
ghost use Rattle.std.specs.Borrow.{sem};
ghost use Rattle.std.specs.Str.{chars};
ghost use Rattle.json5_grammar.specs.Language.Characters.{left_bracket, left_brace};

use crate::collection::CollectionStage;
use crate::{SerializeCollection, Serializer};
use json5_types::error::Result;
use json5_write::brackets::Brackets;
use std::io::Write;

impl<W: Write + Drop> Serializer<W> {
    ghost use Rattle.json5_ser.specs.WrittenCollections.{lends_list, lends_object, lends_variant, ListBegun, ObjectBegun, VariantListBegun, VariantObjectBegun};

    /// Opens an array, and lends the serializer to the collection that writes its elements. The length changes nothing.
    ///
    /// ```text
    /// let mut list = ser.serialize_seq(Some(ports.len()))?;
    /// for port in &ports {
    ///     list.serialize_element(port)?;
    /// }
    /// list.end()?;
    /// ```
    ///
    /// # Errors
    ///
    /// As every call: see [`Serializer`]. At `TooDeep` nothing was written.
    pub fn serialize_seq(&mut self, _len: Option<usize>) -> Result<SerializeCollection<'_, W>>
        ensures* lends { sem 𝓛 (lends_list W.row W.Write self.entry result) }
        ensures begun { IfOk result (ListBegun self.entry) }
    {
        self.printer.open_brackets(Brackets::Square)?;
        self.set_failed(true);
        Ok(SerializeCollection {
            ser: self,
            brackets: Brackets::Square,
            stage: CollectionStage::Empty,
            in_variant: false,
            failed: false,
        })
    }

    /// Opens an array as [`serialize_seq`](Serializer::serialize_seq) does. The length changes nothing.
    ///
    /// ```text
    /// let mut pair = ser.serialize_tuple(2)?;
    /// pair.serialize_element(&"http")?;
    /// pair.serialize_element(&80u16)?;
    /// pair.end()?;    // four lines: `[`, `  "http",`, `  80,` and `]`
    /// ```
    ///
    /// # Errors
    ///
    /// As `serialize_seq`.
    pub fn serialize_tuple(&mut self, _len: usize) -> Result<SerializeCollection<'_, W>>
        ensures* lends { sem 𝓛 (lends_list W.row W.Write self.entry result) }
        ensures begun { IfOk result (ListBegun self.entry) }
    {
        self.serialize_seq(None)
    }

    /// Opens an array as [`serialize_seq`](Serializer::serialize_seq) does. The name and the length change nothing.
    ///
    /// ```text
    /// let mut point = ser.serialize_tuple_struct("Point", 2)?;    // as `serialize_tuple(2)`
    /// ```
    ///
    /// # Errors
    ///
    /// As `serialize_seq`.
    pub fn serialize_tuple_struct(
        &mut self,
        _name: &'static str,
        _len: usize,
    ) -> Result<SerializeCollection<'_, W>>
        ensures* lends { sem 𝓛 (lends_list W.row W.Write self.entry result) }
        ensures begun { IfOk result (ListBegun self.entry) }
    {
        self.serialize_seq(None)
    }

    /// Opens an object, and lends the serializer to the collection that writes its keys and values. The length changes nothing.
    ///
    /// ```text
    /// let mut map = ser.serialize_map(None)?;
    /// map.serialize_entry(&"http", &80u16)?;
    /// map.end()?;    // three lines: `{`, `  http: 80,` and `}`
    /// ```
    ///
    /// # Errors
    ///
    /// As every call: see [`Serializer`]. At `TooDeep` nothing was written.
    pub fn serialize_map(&mut self, _len: Option<usize>) -> Result<SerializeCollection<'_, W>>
        ensures* lends { sem 𝓛 (lends_object W.row W.Write self.entry result) }
        ensures begun { IfOk result (ObjectBegun self.entry) }
    {
        self.printer.open_brackets(Brackets::Curly)?;
        self.set_failed(true);
        Ok(SerializeCollection {
            ser: self,
            brackets: Brackets::Curly,
            stage: CollectionStage::Empty,
            in_variant: false,
            failed: false,
        })
    }

    /// Opens an object as [`serialize_map`](Serializer::serialize_map) does. The name and the length change nothing.
    ///
    /// ```text
    /// let mut fields = ser.serialize_struct("Settings", 2)?;
    /// fields.serialize_field("host", &self.host)?;
    /// fields.serialize_field("port", &self.port)?;
    /// fields.end()
    /// ```
    ///
    /// # Errors
    ///
    /// As `serialize_map`.
    pub fn serialize_struct(
        &mut self,
        _name: &'static str,
        _len: usize,
    ) -> Result<SerializeCollection<'_, W>>
        ensures* lends { sem 𝓛 (lends_object W.row W.Write self.entry result) }
        ensures begun { IfOk result (ObjectBegun self.entry) }
    {
        self.serialize_map(None)
    }

    /// Opens an object of one member, the variant's name, and the array that is its value. The `end` of the array closes the
    /// object too. The type's name, the index and the length change nothing.
    ///
    /// ```text
    /// let mut content = ser.serialize_tuple_variant("Reminder", 2, "weekly", 2)?;    // { weekly: [1, 7] }, line by line
    /// content.serialize_element(&1u8)?;
    /// content.serialize_element(&7u8)?;
    /// content.end()
    /// ```
    ///
    /// # Errors
    ///
    /// As every call: see [`Serializer`]. `TooDeep` may come at the array's bracket, after the brace and the key were written.
    pub fn serialize_tuple_variant(
        &mut self,
        _name: &'static str,
        _index: u32,
        variant: &'static str,
        _len: usize,
    ) -> Result<SerializeCollection<'_, W>>
        ensures* lends { sem 𝓛 (lends_variant W.row W.Write (chars variant.now) left_bracket self.entry result) }
        ensures begun { IfOk result (VariantListBegun (chars variant.now) self.entry) }
    {
        self.open_variant(variant, Brackets::Square)?;
        self.set_failed(true);
        Ok(SerializeCollection {
            ser: self,
            brackets: Brackets::Square,
            stage: CollectionStage::Empty,
            in_variant: true,
            failed: false,
        })
    }

    /// Opens an object of one member, the variant's name, and the object that is its value. The `end` of the inner object
    /// closes both. The type's name, the index and the length change nothing.
    ///
    /// ```text
    /// let mut content = ser.serialize_struct_variant("Reminder", 3, "once", 2)?;    // { once: { day: .., hour: 7 } }, line by line
    /// content.serialize_field("day", &day)?;
    /// content.serialize_field("hour", &7u8)?;
    /// content.end()
    /// ```
    ///
    /// # Errors
    ///
    /// As [`serialize_tuple_variant`](Serializer::serialize_tuple_variant).
    pub fn serialize_struct_variant(
        &mut self,
        _name: &'static str,
        _index: u32,
        variant: &'static str,
        _len: usize,
    ) -> Result<SerializeCollection<'_, W>>
        ensures* lends { sem 𝓛 (lends_variant W.row W.Write (chars variant.now) left_brace self.entry result) }
        ensures begun { IfOk result (VariantObjectBegun (chars variant.now) self.entry) }
    {
        self.open_variant(variant, Brackets::Curly)?;
        self.set_failed(true);
        Ok(SerializeCollection {
            ser: self,
            brackets: Brackets::Curly,
            stage: CollectionStage::Empty,
            in_variant: true,
            failed: false,
        })
    }
}
