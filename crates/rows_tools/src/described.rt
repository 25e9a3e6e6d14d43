//! Described structs whose fields are those of json5_settings_types.

ghost use Rattle.std.specs.Prelude.{◌^◌, List, pos, string_bytes, ℕ};
ghost use Rattle.json5.specs.Convert.{text_of, unsigned_below};
ghost use Rattle.json5.specs.Layouts.{required_field};
ghost use Rattle.json5.specs.Numbers.{whole};
ghost use Rattle.json5.specs.Structs.{codes, object_of, struct_of};
ghost use Rattle.json5.specs.Trees.{array, more, no_more, number};
ghost use Rattle.json5_settings_types.specs.Keys.{members_of};
ghost use Rattle.json5_settings_types.specs.Rest.{Kept, with_rest};

use json5::fields::StructFields;
use json5::{Deserialize, Deserializer, Input, Required, Result, read_struct};
use json5_settings_types::{
    MakesDefault, Renamed, RenamedOr, UniqueKeys, WithDefaultFrom, read_struct_rest,
};
use std::alloc::{AllocError, Global};
use std::result;

/// The port of the web.
#[derive(Drop)]
pub(crate) struct WebPort;

impl<I: Input> MakesDefault<I, Vec<u16>> for WebPort {
    ghost default = { λ _. array (more (number (whole (pos 80))) no_more) };

    fn make(&self, alloc: Global) -> result::Result<Vec<u16>, AllocError> {
        Ok(Vec::from_array(alloc, [80])?)
    }
}

/// What a service is started with: `{ host: 'a', workers: 4, ports: [80] }`.
#[derive(Drop)]
pub(crate) struct Service {
    /// Once called `listen`.
    pub(crate) host: String,
    /// Once called `threads`; 4 where it is missing.
    pub(crate) workers: u16,
    /// That of the web where it is missing.
    pub(crate) ports: Vec<u16>,
}

type Parts = (Renamed, RenamedOr<u16>, WithDefaultFrom<WebPort>);

type Values = (String, u16, Vec<u16>);

impl<I: Input> Deserialize<I> for Service {
    ghost Content = { ⟦<Parts as StructFields<I, Values>>⟧.Content };

    ghost content = { λ s. ⟦<Parts as StructFields<I, Values>>⟧.content (s.host, s.workers, s.ports) };

    ghost convert = { struct_of (⟦<Parts as StructFields<I, Values>>⟧.layout ((codes "host", codes "listen"), ((codes "workers", codes "threads", 4), (codes "ports", array (more (number (whole (pos 80))) no_more))))) };

    fn deserialize(de: &mut Deserializer<I>) -> Result<Service> {
        let workers = RenamedOr("workers", "threads", 4);
        let ports = WithDefaultFrom("ports", WebPort);
        match read_struct(de, (Renamed("host", "listen"), workers, ports)) {
            Ok((host, workers, ports)) => Ok(Service {
                host,
                workers,
                ports,
            }),
            Err(e) => Err(e),
        }
    }
}

/// A plugin and its settings: `{ name: 'a', size: 1 }`.
#[derive(Drop)]
pub(crate) struct Plugin {
    /// Which one.
    pub(crate) name: String,
    /// Each other member.
    pub(crate) rest: UniqueKeys<u16>,
}

impl<I: Input> Deserialize<I> for Plugin {
    ghost Content = { List ℕ × Kept ℕ };

    ghost content = { λ p. (string_bytes p.name, members_of (λ n. n) p.rest.values.entries) };

    ghost convert = { object_of (with_rest (required_field (codes "name") text_of) (unsigned_below (2 ^ 16))) };

    fn deserialize(de: &mut Deserializer<I>) -> Result<Plugin> {
        match read_struct_rest::<I, String, Required, u16>(de, Required("name")) {
            Ok((name, rest)) => Ok(Plugin { name, rest }),
            Err(e) => Err(e),
        }
    }
}
