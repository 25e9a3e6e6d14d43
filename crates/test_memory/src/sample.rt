//! A struct of a list, a string and a map.

use json5::de::Fields;
use json5::{Decimal, Deserialize, Deserializer, Input, MapAccess, Result};
use std::collections::BTreeMap;

/// A list, a text and a map: `{a: [1], s: 'x', b: {c: 1.5}}`.
#[derive(Drop)]
pub struct Sample {
    pub a: Vec<u8>,
    pub s: String,
    pub b: BTreeMap<String, Decimal>,
}

/// The fields, as far as they were read.
#[derive(Drop)]
struct Found {
    a: Option<Vec<u8>>,
    s: Option<String>,
    b: Option<BTreeMap<String, Decimal>>,
}

impl<I: Input> Fields<I> for Found {
    ghost use Rattle.std.specs.Prelude.{Option};
    ghost use Rattle.json5.specs.ConvertLists.{if_some};
    ghost use Rattle.test_memory.specs.Sample.{sample};

    ghost Content = { Option ⟦<Vec<u8> as Deserialize<I>>⟧.Content × (Option ⟦<String as Deserialize<I>>⟧.Content × Option ⟦<BTreeMap<String, Decimal> as Deserialize<I>>⟧.Content) };

    ghost content = { λ f. (if_some ⟦<Vec<u8> as Deserialize<I>>⟧.content f.a, (if_some ⟦<String as Deserialize<I>>⟧.content f.s, if_some ⟦<BTreeMap<String, Decimal> as Deserialize<I>>⟧.content f.b)) };

    ghost step = { (sample ⟦<Vec<u8> as Deserialize<I>>⟧.convert ⟦<String as Deserialize<I>>⟧.convert ⟦<BTreeMap<String, Decimal> as Deserialize<I>>⟧.convert).step };

    fn read(&mut self, map: &mut MapAccess<'_, I>, name: &str) -> Result<()> {
        match name {
            "a" => map.next_field(name, &mut self.a),
            "s" => map.next_field(name, &mut self.s),
            "b" => map.next_field(name, &mut self.b),
            _ => map.skip_value(),
        }
    }
}

/// An object of the three fields; an unknown field is passed over, and a field that comes twice is refused.
impl<I: Input> Deserialize<I> for Sample {
    ghost use Rattle.json5.specs.Collections.{object_of};
    ghost use Rattle.test_memory.specs.Sample.{sample};

    ghost Content = { ⟦<Vec<u8> as Deserialize<I>>⟧.Content × (⟦<String as Deserialize<I>>⟧.Content × ⟦<BTreeMap<String, Decimal> as Deserialize<I>>⟧.Content) };

    ghost content = { λ s. (⟦<Vec<u8> as Deserialize<I>>⟧.content s.a, (⟦<String as Deserialize<I>>⟧.content s.s, ⟦<BTreeMap<String, Decimal> as Deserialize<I>>⟧.content s.b)) };

    ghost convert = { object_of (sample ⟦<Vec<u8> as Deserialize<I>>⟧.convert ⟦<String as Deserialize<I>>⟧.convert ⟦<BTreeMap<String, Decimal> as Deserialize<I>>⟧.convert).convert };

    fn deserialize(de: &mut Deserializer<I>) -> Result<Sample> {
        let mut found = Found {
            a: None,
            s: None,
            b: None,
        };
        let mut map = de.deserialize_struct("Sample", &["a", "s", "b"])?;
        map.read_fields(&mut found)?;
        let a = map.required_field("a", found.a)?;
        let s = map.required_field("s", found.s)?;
        let b = map.required_field("b", found.b)?;
        map.end()?;
        Ok(Sample { a, s, b })
    }
}
