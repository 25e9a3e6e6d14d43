//! An enum whose variants are names alone: a string, one of a list.

ghost use Rattle.std.specs.Prelude.{◌≡◌, length};
ghost use Rattle.json5_de.specs.Convert.{names_bytes};
ghost use Rattle.json5_fields.specs.Named.{ReadsOneOf};

use json5_de::Deserializer;
use json5_tokens::input::Input;
use json5_types::error::Result;

/// Reads a string that is one of these names, and returns the value at the same index; of equal names it is the first's. A
/// string without an escape takes no memory.
///
/// ```text
/// one_of_names(de, &["low", "high"], &[Level::Low, Level::High])    // Level::High of `'high'`
/// ```
///
/// # Errors
///
/// Those of [`Deserializer::deserialize_variant`]: a custom fault that lists the names, at the opening quote of any other string.
pub fn one_of_names<I: Input, T: Copy>(
    de: &mut Deserializer<I>,
    names: &[&str],
    values: &[T],
) -> Result<T>
    requires { length values.now ≡ length names.now }
    ensures { ReadsOneOf (names_bytes names.now) values.now de.old de.new result }
{
    match de.deserialize_variant(names) {
        Ok(place) => Ok(values[place]),
        Err(e) => Err(e),
    }
}
