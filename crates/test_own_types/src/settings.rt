//! What a server is started with, read and written by a description of its fields.

ghost use Rattle.std.specs.Prelude.{◌≡◌, ◌<◌, MatchResult};
ghost use Rattle.json5.specs.Cursor.{IsOutOfMemory};
ghost use Rattle.json5.specs.Structs.{codes, struct_of, RefusesDescribed};
ghost use Rattle.test_own_types.specs.Accepted.{settings_content};
ghost use Rattle.test_own_types.specs.Written.{settings_tree};

use crate::ports::OpenPort;
use json5::fields::StructFields;
use json5::{
    Deserialize, Deserializer, Field, Given, Input, Optional, Required, Result, Serialize,
    Serializer, WithDefault, from_str, read_struct, to_string, write_struct,
};
use std::alloc::Global;
use std::io::Write;

/// What a server is started with, written as an object: `{ host: 'localhost', port: 8080 }`.
#[derive(Drop)]
pub struct Settings {
    /// `host`, which has to be there.
    pub host: String,
    /// `port`; 80 where it is missing.
    pub port: OpenPort,
    /// `label`, which may be missing.
    pub label: Option<String>,
}

/// How each field is described, and what its value is.
type Parts = (Required, WithDefault<OpenPort>, Optional);

type Values = (String, OpenPort, Option<String>);

/// An object; an unknown field is passed over, and a field that comes twice is refused.
impl<I: Input> Deserialize<I> for Settings {
    ghost Content = { ⟦<Parts as StructFields<I, Values>>⟧.Content };

    ghost content = { λ s. ⟦<Parts as StructFields<I, Values>>⟧.content (s.host, s.port, s.label) };

    ghost convert = { struct_of (⟦<Parts as StructFields<I, Values>>⟧.layout (codes "host", ((codes "port", 80), codes "label"))) };

    ghost refuses = { RefusesDescribed (⟦<Parts as StructFields<I, Values>>⟧.layout (codes "host", ((codes "port", 80), codes "label"))) ⟦<Parts as StructFields<I, Values>>⟧.faults };

    fn deserialize(de: &mut Deserializer<I>) -> Result<Settings> {
        let port = WithDefault("port", OpenPort { number: 80 });
        match read_struct(de, (Required("host"), port, Optional("label"))) {
            Ok((host, port, label)) => Ok(Settings { host, port, label }),
            Err(e) => Err(e),
        }
    }
}

/// An object of the host, the port, and the label if there is one.
impl Serialize for Settings {
    ghost tree = { settings_tree };

    fn serialize<W: Write + Drop>(&self, ser: &mut Serializer<W>) -> Result<()> {
        let fields = (
            Field("host", &self.host),
            Field("port", &self.port),
            Given("label", &self.label),
        );
        write_struct(ser, &fields)
    }
}

/// The settings that are read from their own text. They are the same, unless memory runs out.
pub fn settings_again(alloc: Global, settings: &Settings) -> Result<Settings>
    requires open { 0 < settings.now.port.number }
    ensures { MatchResult result (λ s. settings_content s ≡ settings_content settings.now) IsOutOfMemory }
{
    // What is read here is known to be in range.
    let _number = settings.port.number;
    let text = to_string(alloc, settings)?;
    from_str(alloc, text.as_str())
}
