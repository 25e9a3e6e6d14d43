//! Lists that aren't empty.

ghost use Rattle.std.specs.Prelude.{◌≡◌, ◌<◌, List, Some, map, slice_get, vec_len};
ghost use Rattle.json5_grammar.specs.Model.Collections.{array_of, contents};
ghost use Rattle.json5_de.specs.ConvertLists.{if_some};
ghost use Rattle.json5_de.specs.Refinement.{refined, RefusesOwn};
ghost use Rattle.json5_ser.specs.WrittenTrees.{array, elements_of};
ghost use Rattle.json5_settings_types.specs.Bounds.{if_some_element, ListReadsBack};

use crate::faults::fault_at;
use json5_de::{Deserialize, Deserializer, Spanned};
use json5_ser::{Serialize, Serializer};
use json5_tokens::input::Input;
use json5_types::error::Result;
use std::io::Write;

/// What is said of an empty list.
pub(crate) const EMPTY: &str = "expected one element at least, found an empty list";

/// A list of one element at least.
#[derive(Drop)]
pub struct NotEmpty<T> {
    /// In the order of the list.
    pub values: Vec<T>,
    ghost some: { 0 < vec_len values },
}

impl<T> NotEmpty<T> {
    /// The list, if it has an element.
    ///
    /// ```text
    /// let hosts = NotEmpty::new(hosts).unwrap();
    /// ```
    pub fn new(values: Vec<T>) -> Option<Self>
    where
        T: Drop,
        ensures { if_some (λ n. n.values.items) result ≡ if_some_element values.items }
    {
        if values.is_empty() {
            return None;
        }
        Some(NotEmpty { values })
    }

    /// The first element.
    ///
    /// ```text
    /// let host = hosts.first();
    /// ```
    pub fn first(&self) -> &T
        ensures { slice_get self.now.values.items 0 ≡ Some result.now }
    {
        &self.values[0]
    }
}

/// A list; an empty one is refused at its bracket: `expected one element at least, found an empty list`.
impl<I: Input, T: Deserialize<I>> Deserialize<I> for NotEmpty<T> {
    ghost Content = { List T.Content };

    ghost content = { λ n. map T.content n.values.items };

    ghost convert = { refined (array_of (contents T.convert)) if_some_element };

    ghost refuses = { RefusesOwn (array_of (contents T.convert)) if_some_element ⟦<Spanned<Vec<T>> as Deserialize<I>>⟧.refuses };

    fn deserialize(de: &mut Deserializer<I>) -> Result<Self> {
        let list = match Spanned::<Vec<T>>::deserialize(de) {
            Ok(list) => list,
            Err(e) => return Err(e),
        };
        let Some(list_of_some) = NotEmpty::new(list.value) else {
            return Err(fault_at(de, list.start, EMPTY));
        };
        Ok(list_of_some)
    }
}

/// An array of the elements.
impl<T: Serialize> Serialize for NotEmpty<T> {
    ghost tree = { λ n. array (elements_of T.tree n.values.items) };

    fn serialize<W: Write + Drop>(&self, ser: &mut Serializer<W>) -> Result<()> {
        self.values.serialize(ser)
    }
}

/// The law of lists that aren't empty: what is written of one reads back if its elements do. The call does nothing.
pub fn lists_read_back<I: Input, T: Serialize + Deserialize<I>>()
    ensures { ListReadsBack T.tree T.convert T.content }
{}
