//! A struct that refuses unknown fields, read without them.

ghost use Rattle.json5.specs.Structs.{codes, struct_only};

use crate::kinds::each_shown;
use json5::fields::StructFields;
use json5::{Deserialize, Deserializer, Input, Optional, read_struct_only};
use json5_settings::read_known;
use json5_types::error::Result;
use std::alloc::Global;

/// `{ port: 80, door: { port: 8080 } }`
#[derive(Drop)]
struct Shop {
    port: Option<u16>,
    door: Option<Door>,
}

type Parts = (Optional, Optional);

type Values = (Option<u16>, Option<Door>);

impl<I: Input> Deserialize<I> for Shop {
    ghost Content = { ⟦<Parts as StructFields<I, Values>>⟧.Content };

    ghost content = { λ s. ⟦<Parts as StructFields<I, Values>>⟧.content (s.port, s.door) };

    ghost convert = { struct_only (⟦<Parts as StructFields<I, Values>>⟧.layout (codes "port", codes "door")) };

    fn deserialize(de: &mut Deserializer<I>) -> Result<Shop> {
        let (port, door) = read_struct_only(de, (Optional("port"), Optional("door")))?;
        Ok(Shop { port, door })
    }
}

/// `{ port: 8080 }`
#[derive(Drop)]
struct Door {
    port: Option<u16>,
}

impl<I: Input> Deserialize<I> for Door {
    ghost Content = { ⟦<Optional as StructFields<I, Option<u16>>>⟧.Content };

    ghost content = { λ d. ⟦<Optional as StructFields<I, Option<u16>>>⟧.content d.port };

    ghost convert = { struct_only (⟦<Optional as StructFields<I, Option<u16>>>⟧.layout (codes "port")) };

    fn deserialize(de: &mut Deserializer<I>) -> Result<Door> {
        let port = read_struct_only(de, Optional("port"))?;
        Ok(Door { port })
    }
}

/// The ports of the text, and the reports of its unknown fields; or the report of why it is refused.
pub(crate) fn known_shown(alloc: Global, text: &str) -> Result<String> {
    match read_known(alloc, text, |text| json5::from_str::<Shop>(alloc, text)) {
        Ok((shop, warnings)) => {
            let door = match shop.door {
                Some(door) => door.port,
                None => None,
            };
            let (port, door) = (shop.port.unwrap_or(0), door.unwrap_or(0));
            let shown = each_shown(alloc, text, &warnings)?;
            Ok(format!(in alloc; "{port}, {door}\n{shown}")?)
        }
        Err(fault) => each_shown(alloc, text, &[fault]),
    }
}
