//! Ports, and endpoints of a host and a port.

ghost use Rattle.std.specs.Prelude.{ℕ, List, string_bytes};
ghost use Rattle.std.specs.Str.{chars};
ghost use Rattle.json5.specs.Collections.{array_of};
ghost use Rattle.json5.specs.Convert.{text_of};
ghost use Rattle.json5.specs.ConvertLists.{first_of, last_of};
ghost use Rattle.json5.specs.WrittenTrees.{array, element, no_element, natural, text};
ghost use Rattle.test_own_types.specs.Accepted.{port_of};

use json5::{
    Deserialize, Deserializer, Error, Input, Result, Serialize, Serializer, Spanned, read,
};
use std::io::Write;

/// A port that isn't 0.
#[derive(Drop)]
pub struct OpenPort {
    /// From 1 to 65535.
    pub number: u16,
}

/// A number; 0 is refused at its position.
impl<I: Input> Deserialize<I> for OpenPort {
    ghost use Rattle.std.specs.Prelude.{ℕ, ◌^◌};
    ghost use Rattle.json5.specs.Convert.{unsigned_below};
    ghost use Rattle.json5.specs.Refinement.{refined, RefusesOwn};
    ghost use Rattle.test_own_types.specs.Accepted.{above_zero};

    ghost Content = { ℕ };

    ghost content = { λ p. p.number };

    ghost convert = { refined (unsigned_below (2 ^ 16)) above_zero };

    ghost refuses = { RefusesOwn (unsigned_below (2 ^ 16)) above_zero ⟦<Spanned<u16> as Deserialize<I>>⟧.refuses };

    fn deserialize(de: &mut Deserializer<I>) -> Result<OpenPort> {
        let port = Spanned::<u16>::deserialize(de)?;
        if port.value == 0 {
            let place = de.position_of(port.start);
            return Err(Error::custom_at(de.allocator(), place, "port 0 can't be opened")?);
        }
        Ok(OpenPort { number: port.value })
    }
}

/// Its decimal digits.
impl Serialize for OpenPort {
    ghost tree = { λ p. natural p.number };

    fn serialize<W: Write + Drop>(&self, ser: &mut Serializer<W>) -> Result<()> {
        ser.serialize_u16(self.number)
    }
}

/// Where something listens, written as a list: `['localhost', 80]`.
#[derive(Drop)]
pub struct Endpoint {
    /// The first of the list.
    pub host: String,
    /// The second.
    pub port: OpenPort,
}

/// A list of a string and a port, with the faults of both.
impl<I: Input> Deserialize<I> for Endpoint {
    ghost Content = { List ℕ × ℕ };

    ghost content = { λ e. (string_bytes e.host, e.port.number) };

    ghost convert = { array_of (first_of text_of (last_of port_of)) };

    ghost refuses = { ⟦<(String, OpenPort) as Deserialize<I>>⟧.refuses };

    fn deserialize(de: &mut Deserializer<I>) -> Result<Endpoint> {
        let (host, port) = read::<I, (String, OpenPort)>(de)?;
        Ok(Endpoint { host, port })
    }
}

/// A list of the host and the port.
impl Serialize for Endpoint {
    ghost tree = { λ e. array (element (text (chars (string_bytes e.host))) (element (natural e.port.number) no_element)) };

    fn serialize<W: Write + Drop>(&self, ser: &mut Serializer<W>) -> Result<()> {
        (&self.host, &self.port).serialize(ser)
    }
}
