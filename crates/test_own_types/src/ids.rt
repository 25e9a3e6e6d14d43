//! Numbers that identify things.

ghost use Rattle.std.specs.Prelude.{ℕ, ◌^◌};
ghost use Rattle.json5.specs.Convert.{unsigned_below};
ghost use Rattle.json5.specs.WrittenTrees.{natural_key};

use json5::de::MapKey;
use json5::{Deserialize, DeserializeKey, Deserializer, Input, Result, SerializeKey, ser};
use std::io::Write;

/// The number of a thing, which may be the key of its entry.
#[derive(Clone, Copy, Debug, PartialEq, Eq, Hash)]
pub struct Id {
    /// From 0 to 4294967295.
    pub number: u32,
}

/// A number.
impl<I: Input> Deserialize<I> for Id {
    ghost Content = { ℕ };

    ghost content = { λ i. i.number };

    ghost convert = { unsigned_below (2 ^ 32) };

    fn deserialize(de: &mut Deserializer<I>) -> Result<Id> {
        let number = de.deserialize_u32()?;
        Ok(Id { number })
    }
}

/// A key whose text is a number: `'7'`.
impl<I: Input> DeserializeKey<I> for Id {
    ghost use Rattle.std.specs.Prelude.{ℕ, ◌^◌};
    ghost use Rattle.json5.specs.TokenKinds.{natural_kind};
    ghost use Rattle.json5.specs.KeyKinds.{document_key};

    ghost Content = { ℕ };

    ghost content = { λ i. i.number };

    ghost convert = { (document_key (natural_kind (2 ^ 32))).convert };

    fn deserialize_key(key: &mut MapKey<'_, I>) -> Result<Id> {
        let number = key.deserialize_u32()?;
        Ok(Id { number })
    }
}

/// Its decimal digits: `"7"`.
impl SerializeKey for Id {
    ghost as_key = { λ i. natural_key i.number };

    fn serialize_key<W: Write + Drop>(&self, key: ser::MapKey<'_, W>) -> Result<()> {
        key.serialize_u32(self.number)
    }
}
