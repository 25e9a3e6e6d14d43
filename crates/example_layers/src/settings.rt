//! The settings of a shop.

ghost use Rattle.std.specs.Prelude.{[], ◌∷◌, None};
ghost use Rattle.json5.specs.Structs.{codes, struct_only};

use json5::fields::StructFields;
use json5::{Deserialize, Deserializer, Input, Required, Result, WithDefault, read_struct_only};

/// `{ host: 'shop.example', port: 8443, label: 'Our shop', workers: { .. } }`; the port is 80 where it is missing, and
/// the label may be missing or null.
#[derive(Drop)]
pub struct Settings {
    pub host: String,
    pub port: u16,
    pub label: Option<String>,
    pub workers: Workers,
}

type Parts = (
    Required,
    WithDefault<u16>,
    WithDefault<Option<String>>,
    Required,
);

type Values = (String, u16, Option<String>, Workers);

impl<I: Input> Deserialize<I> for Settings {
    ghost Content = { ⟦<Parts as StructFields<I, Values>>⟧.Content };

    ghost content = { λ s. ⟦<Parts as StructFields<I, Values>>⟧.content (s.host, s.port, s.label, s.workers) };

    ghost convert = { struct_only (⟦<Parts as StructFields<I, Values>>⟧.layout
        (codes "host", ((codes "port", 80), ((codes "label", None), codes "workers")))) };

    fn deserialize(de: &mut Deserializer<I>) -> Result<Settings> {
        let (host, port) = (Required("host"), WithDefault("port", 80));
        let (label, workers) = (WithDefault("label", None), Required("workers"));
        let (host, port, label, workers) = read_struct_only(de, (host, port, label, workers))?;
        Ok(Settings {
            host,
            port,
            label,
            workers,
        })
    }
}

/// `{ least: 1, most: 4 }`
#[derive(Drop)]
pub struct Workers {
    pub least: u8,
    pub most: u8,
}

impl<I: Input> Deserialize<I> for Workers {
    ghost Content = { ⟦<(Required, Required) as StructFields<I, (u8, u8)>>⟧.Content };

    ghost content = { λ w. ⟦<(Required, Required) as StructFields<I, (u8, u8)>>⟧.content (w.least, w.most) };

    ghost convert = { struct_only (⟦<(Required, Required) as StructFields<I, (u8, u8)>>⟧.layout
        (codes "least", codes "most")) };

    fn deserialize(de: &mut Deserializer<I>) -> Result<Workers> {
        let (least, most) = read_struct_only(de, (Required("least"), Required("most")))?;
        Ok(Workers { least, most })
    }
}
