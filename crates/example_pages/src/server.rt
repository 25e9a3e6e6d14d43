//! A struct by a description.

use json5::fields::StructFields;
use json5::{
    Deserialize, Deserializer, Input, Optional, Required, Result, WithDefault, read_struct,
};

/// `{ host: 'localhost', port: 8080 }`
#[derive(Drop)]
pub struct Server {
    pub host: String,
    pub port: u16,
    pub label: Option<String>,
}

type Parts = (Required, WithDefault<u16>, Optional);

type Values = (String, u16, Option<String>);

impl<I: Input> Deserialize<I> for Server {
    ghost use Rattle.json5.specs.Structs.{codes, struct_of};

    ghost Content = { ⟦<Parts as StructFields<I, Values>>⟧.Content };

    ghost content = { λ s. ⟦<Parts as StructFields<I, Values>>⟧.content (s.host, s.port, s.label) };

    ghost convert = { struct_of (⟦<Parts as StructFields<I, Values>>⟧.layout (codes "host", ((codes "port", 80), codes "label"))) };

    fn deserialize(de: &mut Deserializer<I>) -> Result<Server> {
        let fields = (Required("host"), WithDefault("port", 80), Optional("label"));
        let (host, port, label) = read_struct(de, fields)?;
        Ok(Server { host, port, label })
    }
}
