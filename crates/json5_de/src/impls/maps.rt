//! Maps: a `BTreeMap` in the order of its keys, an `IndexMap` in that in which keys first came, a `HashMap` in none.

ghost use Rattle.std.specs.Prelude.{◌≡◌, List, [], ◌∷◌, ◌++◌, OnOk, IfOk, IfErr};
ghost use Rattle.json5_types.specs.Errors.{LacksMemory};
ghost use Rattle.json5_de.specs.State.{SameText};
ghost use Rattle.json5_de.specs.DeserializeLaw.{Completes, Unprompted};
ghost use Rattle.json5_de.specs.Maps.{pairs_of, GivesMembers};
ghost use Rattle.json5_de.specs.MapFaults.{sides, RefusesMap};

use crate::de::{Deserialize, Deserializer};
use crate::key::DeserializeKey;
use indexmap::IndexMap;
use json5_read::brackets::BracketKind;
use json5_tokens::input::Input;
use json5_types::ErrorCode;
use json5_types::error::{Error, Result};
use std::collections::{BTreeMap, HashMap};
use std::hash::Hash;

/// A map that members are inserted into, one after another.
trait Gathers<K, V>: Sized + Drop {
    ghost use Rattle.std.specs.Prelude.{List};

    // The map is what an empty one becomes if these members are inserted in turn.
    ghost gathered: { Self → List (K × V) → Type 0 };

    /// Inserts a member. If an equal key is there, that key stays and takes the value.
    fn put(&mut self, key: K, value: V) -> Result<()>
        ensures put { OnOk result ((ps : List (K × V)) → gathered self.old ps → gathered self.new (ps ++ (key, value) ∷ [])) }
        ensures refused { IfErr result LacksMemory };
}

/// Reads an object's members into an empty map.
fn gather<I: Input, K: DeserializeKey<I>, V: Deserialize<I>, M: Gathers<K, V>>(
    de: &mut Deserializer<I>,
    mut items: M,
) -> Result<M>
    requires { M.gathered items [] }
    ensures sound { IfOk result (GivesMembers K.content V.content K.convert V.convert M.gathered de.old de.new) }
    ensures complete { Completes (pairs_of K.convert V.convert) de.old result }
    ensures refused { IfErr result (λ e. RefusesMap (sides K.convert V.convert K.refuses V.refuses) de.old e de.new) }
    ensures unprompted { Unprompted de.old result }
    ensures same_text { SameText de.old de.new }
{
    let mut fault = Error::new(ErrorCode::Failed);
    let start = de.open(BracketKind::Object)?;
    let mut key_start = start;
    let mut comma_due = false;
    loop {
        let Some(next) = de.take_member_key::<K>(comma_due, &mut key_start, &mut fault) else {
            de.set_failed(true);
            return Err(de.with_position_at(start, fault));
        };
        let Some(key) = next else { break };
        let Some(value) = de.take_member_value::<V>(&mut fault) else {
            de.set_failed(true);
            return Err(de.with_position_at(start, fault));
        };
        let Ok(()) = items.put(key, value) else {
            de.set_failed(true);
            return Err(Error::new(ErrorCode::OutOfMemory));
        };
        comma_due = true;
    }
    de.close_or_fail(BracketKind::Object, comma_due)?;
    Ok(items)
}

impl<K: Ord + Drop, V: Drop> Gathers<K, V> for BTreeMap<K, V> {
    ghost use Rattle.std.specs.Prelude.{◌≡◌};
    ghost use Rattle.json5_de.specs.Maps.{in_key_order};

    ghost gathered = { λ m ps. m.entries ≡ in_key_order K.cmp ps };

    fn put(&mut self, key: K, value: V) -> Result<()> {
        // Of equal keys a BTreeMap keeps the first.
        self.insert(key, value)?;
        Ok(())
    }
}

/// Reads an object (JSON5 section 3), in the order of its keys. Of members with equal keys the first gives the key and the last
/// the value. The faults are those of its braces, commas and colons, as a `MapAccess` lists them, those of the first key or
/// value that is refused, and `OutOfMemory`.
impl<I: Input, K: DeserializeKey<I> + Ord, V: Deserialize<I>> Deserialize<I> for BTreeMap<K, V> {
    ghost use Rattle.std.specs.Prelude.{List, map};
    ghost use Rattle.json5_de.specs.Maps.{Told, pair_content, map_of, in_key_order};
    ghost use Rattle.json5_de.specs.MapFaults.{sides, RefusesMap};

    ghost Content = { Told K.content K.cmp (List (K.Content × V.Content)) };

    ghost content = { λ m test tells. map (pair_content K.content V.content) m.entries };

    ghost convert = { map_of K.convert V.convert (λ ps test tells. in_key_order test ps) };

    ghost refuses = { RefusesMap (sides K.convert V.convert K.refuses V.refuses) };

    fn deserialize(de: &mut Deserializer<I>) -> Result<BTreeMap<K, V>> {
        let empty = BTreeMap::new(de.scanner.allocator());
        gather(de, empty)
    }
}

impl<K: Eq + Hash + Drop, V: Drop> Gathers<K, V> for HashMap<K, V> {
    ghost use Rattle.std.specs.Prelude.{◌≡◌};
    ghost use Rattle.std.specs.Map.{lookup_entry};
    ghost use Rattle.json5_de.specs.Maps.{found_in};

    ghost gathered = { λ m ps. (q : K) → lookup_entry (K.eq q) m.entries ≡ found_in (K.eq q) ps };

    fn put(&mut self, key: K, value: V) -> Result<()> {
        // Of equal keys a HashMap keeps the first.
        self.insert(key, value)?;
        Ok(())
    }
}

/// Reads an object (JSON5 section 3), in no order. Of members with equal keys the first gives the key and the last the value.
/// The faults are those of a `BTreeMap`.
///
/// The hasher has a fixed seed that everyone knows, so that keys chosen for it make reading slow. Read a text from strangers as
/// `BTreeMap` or `Value`.
impl<I: Input, K: DeserializeKey<I> + Eq + Hash, V: Deserialize<I>> Deserialize<I>
    for HashMap<K, V> {
    ghost use Rattle.std.specs.Prelude.{Option};
    ghost use Rattle.std.specs.Map.{lookup_entry};
    ghost use Rattle.json5_de.specs.ConvertLists.{if_some};
    ghost use Rattle.json5_de.specs.Maps.{Told, pair_content, map_of, found_in};
    ghost use Rattle.json5_de.specs.MapFaults.{sides, RefusesMap};

    ghost Content = { Told K.content K.eq (K → Option (K.Content × V.Content)) };

    ghost content = { λ m test tells q. if_some (pair_content K.content V.content) (lookup_entry (K.eq q) m.entries) };

    ghost convert = { map_of K.convert V.convert (λ ps test tells q. found_in (test (K.content q)) ps) };

    ghost refuses = { RefusesMap (sides K.convert V.convert K.refuses V.refuses) };

    fn deserialize(de: &mut Deserializer<I>) -> Result<HashMap<K, V>> {
        let empty = HashMap::new(de.scanner.allocator());
        gather(de, empty)
    }
}

impl<K: Eq + Hash + Drop, V: Drop> Gathers<K, V> for IndexMap<K, V> {
    ghost use Rattle.std.specs.Prelude.{◌≡◌};
    ghost use Rattle.json5_de.specs.Maps.{in_insertion_order};

    ghost gathered = { λ m ps. m.entries ≡ in_insertion_order K.eq ps };

    fn put(&mut self, key: K, value: V) -> Result<()> {
        // Of equal keys an IndexMap keeps the first, in its place.
        self.insert(key, value)?;
        Ok(())
    }
}

/// Reads an object (JSON5 section 3), in the order in which keys first came. Of members with equal keys the first gives the key
/// and the last the value. The faults are those of a `BTreeMap`.
///
/// The hasher has a fixed seed that everyone knows, so that keys chosen for it make reading slow. Read a text from strangers as
/// `BTreeMap` or `Value`.
impl<I: Input, K: DeserializeKey<I> + Eq + Hash, V: Deserialize<I>> Deserialize<I>
    for IndexMap<K, V> {
    ghost use Rattle.std.specs.Prelude.{List, map};
    ghost use Rattle.json5_de.specs.Maps.{Told, pair_content, map_of, in_insertion_order};
    ghost use Rattle.json5_de.specs.MapFaults.{sides, RefusesMap};

    ghost Content = { Told K.content K.eq (List (K.Content × V.Content)) };

    ghost content = { λ m test tells. map (pair_content K.content V.content) m.entries };

    ghost convert = { map_of K.convert V.convert (λ ps test tells. in_insertion_order test ps) };

    ghost refuses = { RefusesMap (sides K.convert V.convert K.refuses V.refuses) };

    fn deserialize(de: &mut Deserializer<I>) -> Result<IndexMap<K, V>> {
        let empty = IndexMap::new(de.scanner.allocator());
        gather(de, empty)
    }
}
