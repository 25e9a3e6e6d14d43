//! What can't be a key is refused.

use crate::MapKey;
use json5_types::error::Result;
use std::io::Write;

impl<W: Write + Drop> MapKey<'_, W> {
    ghost use Rattle.json5_ser.specs.KeyLending.{RefusesKey};

    /// Refuses None, which is no key.
    ///
    /// ```text
    /// key.serialize_none()?    // `InvalidKey`; so a map with the key None can't be written
    /// ```
    ///
    /// # Errors
    ///
    /// `InvalidKey`, or `Failed`: see [`MapKey`].
    pub fn serialize_none(self) -> Result<()>
        ensures { RefusesKey self.entry result self.exit.0.now }
    {
        let MapKey { ser } = self;
        ser.refuse_key()
    }

    /// Refuses a list, which is no key. The length changes nothing.
    ///
    /// # Errors
    ///
    /// `InvalidKey`, or `Failed`: see [`MapKey`].
    pub fn serialize_seq(self, _len: Option<usize>) -> Result<()>
        ensures { RefusesKey self.entry result self.exit.0.now }
    {
        let MapKey { ser } = self;
        ser.refuse_key()
    }

    /// Refuses a tuple, which is no key. The length changes nothing.
    ///
    /// # Errors
    ///
    /// `InvalidKey`, or `Failed`: see [`MapKey`].
    pub fn serialize_tuple(self, _len: usize) -> Result<()>
        ensures { RefusesKey self.entry result self.exit.0.now }
    {
        let MapKey { ser } = self;
        ser.refuse_key()
    }

    /// Refuses a struct of several values, which is no key. The name and the length change nothing.
    ///
    /// # Errors
    ///
    /// `InvalidKey`, or `Failed`: see [`MapKey`].
    pub fn serialize_tuple_struct(self, _name: &'static str, _len: usize) -> Result<()>
        ensures { RefusesKey self.entry result self.exit.0.now }
    {
        let MapKey { ser } = self;
        ser.refuse_key()
    }

    /// Refuses a variant that holds a value, which is no key. The names and the index change nothing.
    ///
    /// # Errors
    ///
    /// `InvalidKey`, or `Failed`: see [`MapKey`].
    pub fn serialize_newtype_variant(
        self,
        _name: &'static str,
        _index: u32,
        _variant: &'static str,
    ) -> Result<()>
        ensures { RefusesKey self.entry result self.exit.0.now }
    {
        let MapKey { ser } = self;
        ser.refuse_key()
    }

    /// Refuses a variant that holds a list, which is no key. The names, the index and the length change nothing.
    ///
    /// # Errors
    ///
    /// `InvalidKey`, or `Failed`: see [`MapKey`].
    pub fn serialize_tuple_variant(
        self,
        _name: &'static str,
        _index: u32,
        _variant: &'static str,
        _len: usize,
    ) -> Result<()>
        ensures { RefusesKey self.entry result self.exit.0.now }
    {
        let MapKey { ser } = self;
        ser.refuse_key()
    }

    /// Refuses a map, which is no key. The length changes nothing.
    ///
    /// # Errors
    ///
    /// `InvalidKey`, or `Failed`: see [`MapKey`].
    pub fn serialize_map(self, _len: Option<usize>) -> Result<()>
        ensures { RefusesKey self.entry result self.exit.0.now }
    {
        let MapKey { ser } = self;
        ser.refuse_key()
    }

    /// Refuses a struct with fields, which is no key. The name and the length change nothing.
    ///
    /// # Errors
    ///
    /// `InvalidKey`, or `Failed`: see [`MapKey`].
    pub fn serialize_struct(self, _name: &'static str, _len: usize) -> Result<()>
        ensures { RefusesKey self.entry result self.exit.0.now }
    {
        let MapKey { ser } = self;
        ser.refuse_key()
    }

    /// Refuses a variant with fields, which is no key. The names, the index and the length change nothing.
    ///
    /// # Errors
    ///
    /// `InvalidKey`, or `Failed`: see [`MapKey`].
    pub fn serialize_struct_variant(
        self,
        _name: &'static str,
        _index: u32,
        _variant: &'static str,
        _len: usize,
    ) -> Result<()>
        ensures { RefusesKey self.entry result self.exit.0.now }
    {
        let MapKey { ser } = self;
        ser.refuse_key()
    }
}
