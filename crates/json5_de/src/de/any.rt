//! Values of any kind: read, or passed over.

ghost use Rattle.json5_types.specs.ValueMeanings.{value_of};
ghost use Rattle.json5_de.specs.AnyTree.{ReadsTree, every_value, nothing};
ghost use Rattle.json5_de.specs.Convert.{every_datum};
ghost use Rattle.json5_de.specs.TokenKinds.{every_tree, no_tree};

use crate::de::{Deserialize, Deserializer};
use json5_tokens::input::Input;
use json5_types::error::Result;
use json5_types::value::Value;

impl<I: Input> Deserializer<I> {
    /// Reads a value of any kind, nested or not (JSON5 sections 2 to 6): null, a boolean, a number, a string, an array or an
    /// object. Members keep their order, and equal keys are kept.
    ///
    /// ```text
    /// de.deserialize_any()?    // of `[1, 'a']` an Array of a Whole and a String
    /// ```
    ///
    /// # Errors
    ///
    /// The codes of a [`Value`], and those of every call: see [`Deserializer`].
    pub fn deserialize_any(&mut self) -> Result<Value>
        ensures { ReadsTree value_of every_datum no_tree self.old self.new result }
    {
        self.skip_blank()?;
        self.read_value()
    }

    /// Passes over a value of any kind, nested or not (JSON5 sections 2 to 6), and keeps nothing of it. Takes no memory where
    /// it succeeds.
    ///
    /// ```text
    /// de.deserialize_ignored_any()?;    // passes over the array of `[1, {a: 2}] 3`; ` 3` is left
    /// ```
    ///
    /// # Errors
    ///
    /// As [`deserialize_any`](Deserializer::deserialize_any), with the same positions.
    pub fn deserialize_ignored_any(&mut self) -> Result<()>
        ensures { ReadsTree nothing every_value every_tree self.old self.new result }
    {
        self.skip_blank()?;
        self.skip_value()
    }
}

/// A value of any kind, or a key, that is passed over and not kept.
///
/// ```text
/// let mut map = de.deserialize_map()?;
/// while map.next_key::<IgnoredAny>()?.is_some() {
///     map.next_value::<IgnoredAny>()?;
/// }
/// map.end()?;
/// ```
#[derive(Clone, Copy, Debug, PartialEq, Eq, Drop)]
pub struct IgnoredAny;

/// Passes over every value, without memory.
impl<I: Input> Deserialize<I> for IgnoredAny {
    ghost use Rattle.json5_de.specs.AnyTree.{RefusesTree, every_value, nothing};
    ghost use Rattle.json5_de.specs.TokenKinds.{every_tree};

    ghost Content = { Unit {0} };

    ghost content = { nothing };

    ghost convert = { every_value };

    ghost allocation_free = { every_tree };

    ghost refuses = { λ s e t. RefusesTree s e };

    fn deserialize(de: &mut Deserializer<I>) -> Result<IgnoredAny>
        ensures { ReadsTree nothing every_value every_tree de.old de.new result }
    {
        de.deserialize_ignored_any()?;
        Ok(IgnoredAny)
    }
}
