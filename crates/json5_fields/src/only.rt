//! A struct that has no other fields than those of its description.

ghost use Rattle.std.specs.Prelude.{◌≡◌, true};
ghost use Rattle.json5_fields.specs.Layouts.{all_differ};
ghost use Rattle.json5_fields.specs.Described.{ReadsOnly};

use crate::field_names::UnknownField;
use crate::fields::StructFields;
use json5_de::{Deserializer, Fields, MapAccess};
use json5_tokens::input::Input;
use json5_types::error::Result;
use std::marker::PhantomData;

/// The fields of a description that allows no others, while they are read.
#[derive(Drop)]
struct OnlyMembers<F, R, V> {
    reading: R,
    of: PhantomData<(F, V)>,
}

impl<I: Input, V: Drop, F: StructFields<I, V>> Fields<I> for OnlyMembers<F, F::Reading, V> {
    ghost use Rattle.json5_de.specs.StructFaults.{or_of};
    ghost use Rattle.json5_fields.specs.Layouts.{Held};
    ghost use Rattle.json5_fields.specs.Only.{only_step, of_unknown};

    ghost Content = { Held F.State F.Content };

    ghost content = { λ m. (F.layout (F.kept m.reading), F.state m.reading) };

    ghost step = { only_step };

    ghost allocation_free = { F.allocation_free.values };

    ghost refuses = { or_of F.faults of_unknown };

    #[inline(always)]
    fn read(&mut self, map: &mut MapAccess<'_, I>, name: &str) -> Result<()> {
        match F::read(&mut self.reading, map, name) {
            Ok(true) => Ok(()),
            Ok(false) => {
                let fields = &self.reading;
                Err(map.refuse_key(UnknownField { name, fields }))
            }
            Err(e) => Err(e),
        }
    }
}

/// Reads an object into the values of these fields, as [`read_struct`](crate::read_struct) does, and refuses any other field.
///
/// ```text
/// // `{host: 'a', prot: 1}` is refused
/// let (host, port) = read_struct_only(de, (Required("host"), WithDefault("port", 80)))?;
/// Ok(Server { host, port })
/// ```
///
/// # Errors
///
/// - ``unknown field `prot`, expected one of `host`, `port` `` at its key; the value stays unread.
/// - Those of [`read_struct`](crate::read_struct).
pub fn read_struct_only<I: Input, V: Drop, F: StructFields<I, V>>(
    de: &mut Deserializer<I>,
    fields: F,
) -> Result<V>
    requires { all_differ (F.layout (F.shape fields)).names ≡ true }
    ensures { ReadsOnly F.content (F.layout (F.shape fields)) F.allocation_free F.faults de.old de.new result }
{
    let reading = fields.start();
    let mut members = OnlyMembers::<F, F::Reading, V> {
        reading,
        of: PhantomData,
    };
    let mut map = de.deserialize_map()?;
    map.read_fields(&mut members)?;
    let OnlyMembers { reading, of: _ } = members;
    let output = F::finish(reading, &mut map)?;
    map.end()?;
    Ok(output)
}
