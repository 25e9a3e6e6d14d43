//! A struct that keeps the members which none of its fields has.

ghost use Rattle.std.specs.Prelude.{◌≡◌, true};
ghost use Rattle.json5_fields.specs.Layouts.{all_differ};
ghost use Rattle.json5_settings_types.specs.Keys.{members_of};
ghost use Rattle.json5_settings_types.specs.Rest.{ReadsRest};

use crate::unique_keys::{Members, UniqueKeys};
use indexmap::IndexMap;
use json5_de::{Deserialize, Deserializer, Fields, MapAccess};
use json5_fields::StructFields;
use json5_tokens::input::Input;
use json5_types::error::Result;
use std::marker::PhantomData;

/// The fields of a description and the other members, while they are read.
#[derive(Drop)]
struct WithRest<F, R, V, T> {
    reading: R,
    rest: Members<T>,
    of: PhantomData<(F, V)>,
}

impl<I: Input, V: Drop, F: StructFields<I, V>, T: Deserialize<I>> Fields<I>
    for WithRest<F, F::Reading, V, T> {
    ghost use Rattle.json5_de.specs.StructFaults.{or_of};
    ghost use Rattle.json5_fields.specs.Layouts.{Held};
    ghost use Rattle.json5_settings_types.specs.Keys.{members_of};
    ghost use Rattle.json5_settings_types.specs.Rest.{Kept, of_others, rest_step};

    ghost Content = { Held F.State F.Content × Kept T.Content };

    ghost content = { λ m. ((F.layout (F.kept m.reading), F.state m.reading), members_of T.content m.rest.values.entries) };

    ghost step = { rest_step T.convert };

    ghost refuses = { or_of F.faults (of_others T.convert T.refuses) };

    fn read(&mut self, map: &mut MapAccess<'_, I>, name: &str) -> Result<()> {
        match F::read(&mut self.reading, map, name) {
            Ok(true) => Ok(()),
            Ok(false) => self.rest.read(map, name),
            Err(e) => Err(e),
        }
    }
}

/// Reads an object into the values of these fields, as `json5::read_struct` does, and its other members into the map.
///
/// ```text
/// // `{host: 'a', max_age: 1}`
/// let (host, rest): (String, UniqueKeys<Value>) = read_struct_rest(de, Required("host"))?;
/// let max_age = rest.get("max_age");
/// ```
///
/// # Errors
///
/// - Those of `json5::read_struct`.
/// - The faults of `T`, and ``duplicate key `max_age` `` at the second of equal keys.
pub fn read_struct_rest<I: Input, V: Drop, F: StructFields<I, V>, T: Deserialize<I>>(
    de: &mut Deserializer<I>,
    fields: F,
) -> Result<(V, UniqueKeys<T>)>
    requires { all_differ (F.layout (F.shape fields)).names ≡ true }
    ensures { ReadsRest (λ p. (F.content p.0, members_of T.content p.1.values.entries)) (F.layout (F.shape fields)) F.faults T.convert T.refuses de.old de.new result }
{
    let values = IndexMap::new(de.allocator());
    let mut members = WithRest::<F, F::Reading, V, T> {
        reading: fields.start(),
        rest: Members { values },
        of: PhantomData,
    };
    let mut map = de.deserialize_map()?;
    map.read_fields(&mut members)?;
    let WithRest {
        reading,
        rest,
        of: _,
    } = members;
    let output = F::finish(reading, &mut map)?;
    map.end()?;
    let Members { values } = rest;
    Ok((output, UniqueKeys { values }))
}
