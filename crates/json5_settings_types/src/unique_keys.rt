//! Objects whose keys differ.

ghost use Rattle.std.specs.Prelude.{◌≡◌, ℕ, List, None, IfErr, OnOk, option_copied};
ghost use Rattle.std.specs.HashMap.{get_by_text};
ghost use Rattle.json5_de.specs.Convert.{every_text};
ghost use Rattle.json5_de.specs.Maps.{pairs_of};
ghost use Rattle.json5_de.specs.Refinement.{refined};
ghost use Rattle.json5_de.specs.StructFaults.{or_of};
ghost use Rattle.json5_fields.specs.FieldCalls.{of_type};
ghost use Rattle.json5_types.specs.Errors.{LacksMemory};
ghost use Rattle.json5_ser.specs.WrittenTrees.{object, fields_of};
ghost use Rattle.json5_settings_types.specs.Keys.{IsAdded, KeysReadBack, RefusesKeys, key_step, members_of, of_memory, same_key, written_key};
ghost use Rattle.json5_settings_types.specs.Twins.{if_no_twins};

use indexmap::IndexMap;
use indexmap::map::Iter;
use json5_de::{Deserialize, Deserializer, Fields, MapAccess};
use json5_ser::{Serialize, Serializer};
use json5_tokens::input::Input;
use json5_types::error::Result;
use std::alloc::Global;
use std::io::Write;

/// An object no two of whose keys are equal.
///
/// The hasher of its map has a fixed seed that everyone knows: keys that a stranger chose for it make reading slow.
#[derive(Drop)]
pub struct UniqueKeys<V> {
    /// By their keys, in the order of the object.
    pub values: IndexMap<String, V>,
}

impl<V> UniqueKeys<V> {
    /// The value of the key, if the object has it.
    ///
    /// ```text
    /// let port = ports.get("http").unwrap();
    /// ```
    pub fn get(&self, key: &str) -> Option<&V>
        ensures { option_copied result ≡ get_by_text self.now.values key.now }
    {
        self.values.get(key)
    }

    /// The keys and their values, in the order of the object.
    ///
    /// ```text
    /// for (name, port) in ports.iter() { .. }
    /// ```
    pub fn iter(&self) -> Iter<'_, String, V>
        ensures { result ≡ self.now.values.entries }
    {
        self.values.iter()
    }
}

/// The members of an object, as far as they were read.
#[derive(Drop)]
pub(crate) struct Members<V> {
    pub(crate) values: IndexMap<String, V>,
}

impl<V: Drop> Members<V> {
    /// Adds a member whose key is new.
    fn add(&mut self, alloc: Global, name: &str, value: V) -> Result<()>
        requires { get_by_text self.old.values name.now ≡ None }
        ensures added { OnOk result (IsAdded self.old.values.entries name.now value self.new.values.entries) }
        ensures refused { IfErr result LacksMemory }
    {
        let key = String::from_str(alloc, name)?;
        self.values.insert(key, value)?;
        Ok(())
    }
}

impl<I: Input, V: Deserialize<I>> Fields<I> for Members<V> {
    ghost Content = { List (List ℕ × V.Content) };

    ghost content = { λ m. members_of V.content m.values.entries };

    ghost step = { key_step V.convert };

    ghost refuses = { or_of (of_type V.convert V.refuses) of_memory };

    fn read(&mut self, map: &mut MapAccess<'_, I>, name: &str) -> Result<()> {
        if self.values.contains_key(name) {
            return Err(map.refuse_key(format_args!("duplicate key `{name}`")));
        }
        let value = match map.next_value::<V>() {
            Ok(value) => value,
            Err(e) => return Err(e),
        };
        match self.add(map.allocator(), name, value) {
            Ok(()) => Ok(()),
            Err(e) => {
                let _refused = map.refuse_key("out of memory");
                Err(e)
            }
        }
    }
}

/// An object; one with a key twice is refused at the second: ``duplicate key `http` ``.
impl<I: Input, V: Deserialize<I>> Deserialize<I> for UniqueKeys<V> {
    ghost Content = { List (List ℕ × V.Content) };

    ghost content = { λ u. members_of V.content u.values.entries };

    ghost convert = { refined (pairs_of every_text V.convert) (if_no_twins same_key) };

    ghost refuses = { RefusesKeys V.convert V.refuses };

    fn deserialize(de: &mut Deserializer<I>) -> Result<Self> {
        let values = IndexMap::new(de.allocator());
        let mut members = Members { values };
        let mut map = de.deserialize_map()?;
        map.read_fields(&mut members)?;
        map.end()?;
        let Members { values } = members;
        Ok(UniqueKeys { values })
    }
}

/// An object of the values, in their order.
impl<V: Serialize> Serialize for UniqueKeys<V> {
    ghost tree = { λ u. object (fields_of written_key V.tree u.values.entries) };

    fn serialize<W: Write + Drop>(&self, ser: &mut Serializer<W>) -> Result<()> {
        self.values.serialize(ser)
    }
}

/// The law of objects whose keys differ: what is written of one reads back if its values do. The call does nothing.
pub fn unique_keys_read_back<I: Input, V: Serialize + Deserialize<I>>()
    ensures { KeysReadBack V.tree V.convert V.content }
{}
