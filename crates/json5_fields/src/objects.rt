//! A struct is read by the description of its fields.

ghost use Rattle.std.specs.Prelude.{◌≡◌, true};
ghost use Rattle.json5_fields.specs.Layouts.{all_differ};
ghost use Rattle.json5_fields.specs.Described.{ReadsDescribed};

use crate::fields::StructFields;
use json5_de::{Deserializer, Fields, MapAccess};
use json5_tokens::input::Input;
use json5_types::error::Result;
use std::marker::PhantomData;

/// The fields of a description while they are read.
#[derive(Drop)]
struct Members<F, R, V> {
    reading: R,
    of: PhantomData<(F, V)>,
}

impl<I: Input, V: Drop, F: StructFields<I, V>> Fields<I> for Members<F, F::Reading, V> {
    ghost use Rattle.json5_de.specs.StructFaults.{or_of, of_any};
    ghost use Rattle.json5_fields.specs.Layouts.{Held, held_step};

    ghost Content = { Held F.State F.Content };

    ghost content = { λ m. (F.layout (F.kept m.reading), F.state m.reading) };

    ghost step = { held_step };

    ghost allocation_free = { F.allocation_free.values };

    ghost refuses = { or_of F.faults of_any };

    #[inline(always)]
    fn read(&mut self, map: &mut MapAccess<'_, I>, name: &str) -> Result<()> {
        match F::read(&mut self.reading, map, name) {
            Ok(true) => Ok(()),
            Ok(false) => map.skip_value(),
            Err(e) => Err(e),
        }
    }
}

/// Reads an object into the values of these fields. An unknown field is passed over, a repeated one is refused.
///
/// ```text
/// let (host, port, label) = read_struct(de, (Required("host"), WithDefault("port", 80), Optional("label")))?;
/// Ok(Server { host, port, label })
/// ```
///
/// # Errors
///
/// - Those of [`Deserializer::deserialize_map`], [`MapAccess::read_fields`] and [`MapAccess::end`].
/// - ``missing field `name` `` at the opening brace, and ``duplicate field `name` `` at the second key.
/// - The faults of the fields' types.
pub fn read_struct<I: Input, V: Drop, F: StructFields<I, V>>(
    de: &mut Deserializer<I>,
    fields: F,
) -> Result<V>
    requires { all_differ (F.layout (F.shape fields)).names ≡ true }
    ensures { ReadsDescribed F.content (F.layout (F.shape fields)) F.allocation_free F.faults de.old de.new result }
{
    let reading = fields.start();
    let mut members = Members::<F, F::Reading, V> {
        reading,
        of: PhantomData,
    };
    let mut map = de.deserialize_map()?;
    map.read_fields(&mut members)?;
    let Members { reading, of: _ } = members;
    let output = F::finish(reading, &mut map)?;
    map.end()?;
    Ok(output)
}
