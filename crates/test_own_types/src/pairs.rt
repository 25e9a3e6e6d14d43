//! Two numbers by their names, read by a loop over the keys.

ghost use Rattle.std.specs.Prelude.{◌≡◌, true};
ghost use Rattle.json5.specs.Layouts.{all_differ};
ghost use Rattle.json5.specs.Structs.{codes, struct_only, RefusesOnly};
ghost use Rattle.test_own_types.specs.Accepted.{ReadsKnown};

use json5::fields::StructFields;
use json5::{Deserialize, Deserializer, Input, Required, Result};

/// Reads an object of these fields alone. Any other key is refused where it stands, with a message that says what has no such
/// field.
fn read_known<I: Input, V: Drop, F: StructFields<I, V>>(
    de: &mut Deserializer<I>,
    what: &str,
    fields: F,
) -> Result<V>
    requires { all_differ (F.layout (F.shape fields)).names ≡ true }
    ensures { ReadsKnown F.content (F.layout (F.shape fields)) F.faults de.old de.new result }
{
    let mut reading = fields.start();
    let mut map = de.deserialize_map()?;
    while let Some(name) = map.next_key::<String>()? {
        if !F::read(&mut reading, &mut map, name.as_str())? {
            return Err(map.refuse_key(format_args!("{what} has no field `{name}`")));
        }
    }
    let values = F::finish(reading, &mut map)?;
    map.end()?;
    Ok(values)
}

/// Two numbers by their names: `{a: 1, b: 2}`.
#[derive(Drop)]
pub struct Pair {
    /// `a`
    pub a: u8,
    /// `b`
    pub b: u8,
}

type Parts = (Required, Required);

type Values = (u8, u8);

/// An object of both and of no other field. A field that is unknown, or that comes twice, is refused at its key.
impl<I: Input> Deserialize<I> for Pair {
    ghost Content = { ⟦<Parts as StructFields<I, Values>>⟧.Content };

    ghost content = { λ p. ⟦<Parts as StructFields<I, Values>>⟧.content (p.a, p.b) };

    ghost convert = { struct_only (⟦<Parts as StructFields<I, Values>>⟧.layout (codes "a", codes "b")) };

    ghost refuses = { RefusesOnly (⟦<Parts as StructFields<I, Values>>⟧.layout (codes "a", codes "b")) ⟦<Parts as StructFields<I, Values>>⟧.faults };

    fn deserialize(de: &mut Deserializer<I>) -> Result<Pair> {
        match read_known(de, "a pair", (Required("a"), Required("b"))) {
            Ok((a, b)) => Ok(Pair { a, b }),
            Err(e) => Err(e),
        }
    }
}
