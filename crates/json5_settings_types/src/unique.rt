//! Lists without twins.

ghost use Rattle.std.specs.Prelude.{◌≡◌, List, MatchResult, map};
ghost use Rattle.json5_grammar.specs.Model.Collections.{array_of, contents};
ghost use Rattle.json5_de.specs.ConvertLists.{if_some};
ghost use Rattle.json5_de.specs.Refinement.{refined, RefusesOwn};
ghost use Rattle.json5_types.specs.Errors.{LacksMemory};
ghost use Rattle.json5_ser.specs.WrittenTrees.{array, elements_of};
ghost use Rattle.json5_settings_types.specs.Twins.{HasTwin, TextsReadBack, UniqueReadsBack, if_no_twins};

use crate::faults::fault_at;
use json5_de::{Deserialize, Deserializer, Spanned};
use json5_ser::{Serialize, Serializer};
use json5_tokens::input::Input;
use json5_types::error::Result;
use std::alloc::Global;
use std::collections::BTreeSet;
use std::io::Write;

/// A type whose values are told apart by what counts of them, so that a [`Unique`] list of them can be read.
///
/// ```text
/// impl<I: Input> TellsApart<I> for Port {
///     ghost Meaning = { ℕ };
///     ghost meaning = { λ p. p.number };
///     ghost means = { unsigned_below (2 ^ 16) };
///     ghost same = { nat_eq };
///     ghost tells = { λ p q. refl };
///     ghost reads = { λ t p is. is };
///     ghost is_read = { λ t n is. (n, is) };
///
///     fn expected() -> &'static str {
///         "ports that differ"
///     }
/// }
/// ```
pub trait TellsApart<I: Input>: Deserialize<I> + Ord {
    ghost use Rattle.std.specs.Prelude.{◌≡◌, Bool, Option, Some};
    ghost use Rattle.json5_grammar.specs.Language.Trees.{Tree};

    // What of a value counts, and what a tree means, as `content` and `convert` say it.
    ghost Meaning: { Type 0 };

    ghost meaning: { Self → Meaning };

    ghost means: { Tree → Option Meaning };

    // Whether the same counts of two values.
    ghost same: { Meaning → Meaning → Bool };

    /// What is expected where twins are: `texts that differ`.
    fn expected() -> &'static str;

    ghost tells: { (x y : Self) → same (meaning x) (meaning y) ≡ Self.eq x y };

    ghost reads: { (t : Tree) (v : Self) → Self.convert t ≡ Some (Self.content v) → means t ≡ Some (meaning v) };

    ghost is_read: { (t : Tree) (m : Meaning) → means t ≡ Some m → (c : Self.Content) × (Self.convert t ≡ Some c) };
}

/// A list no two of whose elements are equal.
#[derive(Drop)]
pub struct Unique<T> {
    /// In the order of the list. Those of a list that is read, or made by `new`, differ.
    pub values: Vec<T>,
}

/// A list of texts no two of which are equal.
pub type UniqueTexts = Unique<String>;

/// The index of the first element that is equal to one before it.
fn first_twin<T: Ord>(alloc: Global, values: &[T]) -> Result<Option<usize>>
    ensures { MatchResult result (HasTwin T.eq values.now) LacksMemory }
{
    let mut seen = BTreeSet::new(alloc);
    for index in 0..values.len() {
        if !seen.insert(&values[index])? {
            return Ok(Some(index));
        }
    }
    Ok(None)
}

impl<T> Unique<T> {
    /// The list, if no two of its elements are equal.
    ///
    /// ```text
    /// let hosts = Unique::new(hosts)?.unwrap();
    /// ```
    ///
    /// # Errors
    ///
    /// `OutOfMemory` where a request for memory was refused. It has no position.
    pub fn new(values: Vec<T>) -> Result<Option<Self>>
    where
        T: Ord + Drop,
        ensures { MatchResult result (λ made. if_some (λ u. u.values.items) made ≡ if_no_twins T.eq values.items) LacksMemory }
    {
        let alloc = *values.allocator();
        match first_twin(alloc, values.as_slice())? {
            Some(_) => Ok(None),
            None => Ok(Some(Unique { values })),
        }
    }
}

/// A list; one with twins is refused at its bracket: `expected texts that differ, found the one at index 2
/// twice`.
impl<I: Input, T: TellsApart<I>> Deserialize<I> for Unique<T> {
    ghost Content = { List T.Meaning };

    ghost content = { λ u. map T.meaning u.values.items };

    ghost convert = { refined (array_of (contents T.means)) (if_no_twins T.same) };

    ghost refuses = { RefusesOwn (array_of (contents T.means)) (if_no_twins T.same) ⟦<Spanned<Vec<T>> as Deserialize<I>>⟧.refuses };

    fn deserialize(de: &mut Deserializer<I>) -> Result<Self> {
        let list = match Spanned::<Vec<T>>::deserialize(de) {
            Ok(list) => list,
            Err(e) => return Err(e),
        };
        let twin = match first_twin(de.allocator(), list.value.as_slice()) {
            Ok(twin) => twin,
            Err(e) => return Err(e),
        };
        if let Some(index) = twin {
            let expected = T::expected();
            let message = format_args!("expected {expected}, found the one at index {index} twice");
            return Err(fault_at(de, list.start, message));
        }
        let values = list.value;
        Ok(Unique { values })
    }
}

/// An array of the elements.
impl<T: Serialize> Serialize for Unique<T> {
    ghost tree = { λ u. array (elements_of T.tree u.values.items) };

    fn serialize<W: Write + Drop>(&self, ser: &mut Serializer<W>) -> Result<()> {
        self.values.serialize(ser)
    }
}

/// The law of lists without twins: what is written of one reads back if its elements do. The call does nothing.
pub fn unique_read_back<I: Input, T: Serialize + TellsApart<I>>()
    ensures { UniqueReadsBack T.same T.tree T.means T.meaning }
{}

/// The law of texts that differ: what is written of them reads back. The call does nothing.
pub fn unique_texts_read_back()
    ensures { TextsReadBack ⟦<String as Serialize>⟧.tree }
{}
