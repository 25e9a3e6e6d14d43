//! A struct with a default that is made.

use json5::fields::StructFields;
use json5::{
    Deserialize, Deserializer, Field, Input, Result, Serialize, Serializer, WithDefault,
    WithDefaultText, read_struct, write_struct,
};
use std::io::Write;

/// `host` is `'localhost'` where it is missing, and `tags` are none.
#[derive(Drop)]
pub struct Defaults {
    pub host: String,
    pub tags: Vec<u8>,
}

type DefaultParts = (WithDefaultText, WithDefault<Vec<u8>>);

type DefaultValues = (String, Vec<u8>);

impl<I: Input> Deserialize<I> for Defaults {
    ghost use Rattle.json5.specs.Structs.{codes, struct_of, RefusesDescribed};
    ghost use Rattle.std.specs.Prelude.{[]};

    ghost Content = { ⟦<DefaultParts as StructFields<I, DefaultValues>>⟧.Content };

    ghost content = { λ d. ⟦<DefaultParts as StructFields<I, DefaultValues>>⟧.content (d.host, d.tags) };

    ghost convert = { struct_of (⟦<DefaultParts as StructFields<I, DefaultValues>>⟧.layout ((codes "host", codes "localhost"), (codes "tags", []))) };

    ghost refuses = { RefusesDescribed (⟦<DefaultParts as StructFields<I, DefaultValues>>⟧.layout ((codes "host", codes "localhost"), (codes "tags", []))) ⟦<DefaultParts as StructFields<I, DefaultValues>>⟧.faults };

    fn deserialize(de: &mut Deserializer<I>) -> Result<Defaults> {
        let tags = WithDefault("tags", Vec::new(de.allocator()));
        match read_struct(de, (WithDefaultText("host", "localhost"), tags)) {
            Ok((host, tags)) => Ok(Defaults { host, tags }),
            Err(e) => Err(e),
        }
    }
}

impl Serialize for Defaults {
    ghost use Rattle.std.specs.Prelude.{codes, string_bytes};
    ghost use Rattle.std.specs.Str.{chars};
    ghost use Rattle.json5.specs.WrittenFields.{field_named};
    ghost use Rattle.json5.specs.WrittenTrees.{object, no_field, text};

    ghost tree = { λ d. object (field_named (codes "host") (text (chars (string_bytes d.host))) (field_named (codes "tags") (⟦<Vec<u8> as Serialize>⟧.tree d.tags) no_field)) };

    fn serialize<W: Write + Drop>(&self, ser: &mut Serializer<W>) -> Result<()> {
        write_struct(ser, &(Field("host", &self.host), Field("tags", &self.tags)))
    }
}
