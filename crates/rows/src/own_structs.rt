//! Structs of one's own, read by the names of their fields.

use json5::de::Fields;
use json5::{Borrows, Deserialize, Deserializer, Input, MapAccess, Result, Serialize, Serializer};
use std::io::Write;

/// A person: `{ name: 'Joe', age: 27 }`.
#[derive(Debug, Drop)]
pub struct Person {
    name: String,
    age: u32,
}

/// A person's fields, as far as they were read.
#[derive(Drop)]
struct PersonFound {
    name: Option<String>,
    age: Option<u32>,
}

impl<I: Input> Fields<I> for PersonFound {
    ghost use Rattle.std.specs.Prelude.{ℕ, List, Option, string_bytes};
    ghost use Rattle.json5.specs.ConvertLists.{if_some};
    ghost use Rattle.rows.specs.OwnStructs.{person};

    ghost Content = { Option (List ℕ) × Option ℕ };

    ghost content = { λ f. (if_some string_bytes f.name, if_some (λ n. n) f.age) };

    ghost step = { person.step };

    fn read(&mut self, map: &mut MapAccess<'_, I>, name: &str) -> Result<()> {
        match name {
            "name" => map.next_field(name, &mut self.name),
            "age" => map.next_field(name, &mut self.age),
            _ => map.skip_value(),
        }
    }
}

/// An object with both fields; one that isn't known is passed over, and one that is there twice is refused.
impl<I: Input> Deserialize<I> for Person {
    ghost use Rattle.std.specs.Prelude.{ℕ, List, string_bytes};
    ghost use Rattle.json5.specs.Collections.{object_of};
    ghost use Rattle.rows.specs.OwnStructs.{person};

    ghost Content = { List ℕ × ℕ };

    ghost content = { λ p. (string_bytes p.name, p.age) };

    ghost convert = { object_of person.convert };

    fn deserialize(de: &mut Deserializer<I>) -> Result<Person> {
        let mut found = PersonFound {
            name: None,
            age: None,
        };
        let mut map = de.deserialize_struct("Person", &["name", "age"])?;
        map.read_fields(&mut found)?;
        let name = map.required_field("name", found.name)?;
        let age = map.required_field("age", found.age)?;
        map.end()?;
        Ok(Person { name, age })
    }
}

/// Two small numbers: `{a: 0, b: 1}`.
#[derive(Debug, Drop)]
pub struct Letters {
    a: u8,
    b: u8,
}

/// The fields of two numbers, as far as they were read.
#[derive(Drop)]
struct LettersFound {
    a: Option<u8>,
    b: Option<u8>,
}

impl<I: Input> Fields<I> for LettersFound {
    ghost use Rattle.std.specs.Prelude.{ℕ, Option};
    ghost use Rattle.json5.specs.ConvertLists.{if_some};
    ghost use Rattle.rows.specs.OwnStructs.{letters};

    ghost Content = { Option ℕ × Option ℕ };

    ghost content = { λ f. (if_some (λ n. n) f.a, if_some (λ n. n) f.b) };

    ghost step = { letters.step };

    fn read(&mut self, map: &mut MapAccess<'_, I>, name: &str) -> Result<()> {
        match name {
            "a" => map.next_field(name, &mut self.a),
            "b" => map.next_field(name, &mut self.b),
            _ => map.skip_value(),
        }
    }
}

/// An object with both fields; one that isn't known is passed over, and one that is there twice is refused.
impl<I: Input> Deserialize<I> for Letters {
    ghost use Rattle.std.specs.Prelude.{ℕ};
    ghost use Rattle.json5.specs.Collections.{object_of};
    ghost use Rattle.rows.specs.OwnStructs.{letters};

    ghost Content = { ℕ × ℕ };

    ghost content = { λ l. (l.a, l.b) };

    ghost convert = { object_of letters.convert };

    fn deserialize(de: &mut Deserializer<I>) -> Result<Letters> {
        let mut found = LettersFound { a: None, b: None };
        let mut map = de.deserialize_struct("Letters", &["a", "b"])?;
        map.read_fields(&mut found)?;
        let a = map.required_field("a", found.a)?;
        let b = map.required_field("b", found.b)?;
        map.end()?;
        Ok(Letters { a, b })
    }
}

/// A configuration, whose text is a slice of what it is read from: `{ foo: 42, bar: 'baz' }`.
#[derive(Debug, Drop)]
pub struct Config<'de> {
    foo: u32,
    bar: &'de str,
}

/// A configuration's fields, as far as they were read.
#[derive(Drop)]
struct ConfigFound<'de> {
    foo: Option<u32>,
    bar: Option<&'de str>,
}

impl<'de, I: Borrows<'de>> Fields<I> for ConfigFound<'de> {
    ghost use Rattle.std.specs.Prelude.{ℕ, List, Option};
    ghost use Rattle.json5.specs.ConvertLists.{if_some};
    ghost use Rattle.rows.specs.OwnStructs.{config};

    ghost Content = { Option ℕ × Option (List ℕ) };

    ghost content = { λ f. (if_some (λ n. n) f.foo, if_some (λ t. t.now) f.bar) };

    ghost step = { config.step };

    fn read(&mut self, map: &mut MapAccess<'_, I>, name: &str) -> Result<()> {
        match name {
            "foo" => map.next_field(name, &mut self.foo),
            "bar" => map.next_field(name, &mut self.bar),
            _ => map.skip_value(),
        }
    }
}

/// An object with both fields; one that isn't known is passed over, and one that is there twice is refused.
impl<'de, I: Borrows<'de>> Deserialize<I> for Config<'de> {
    ghost use Rattle.std.specs.Prelude.{ℕ, List};
    ghost use Rattle.json5.specs.Collections.{object_of};
    ghost use Rattle.rows.specs.OwnStructs.{config};

    ghost Content = { ℕ × List ℕ };

    ghost content = { λ c. (c.foo, c.bar.now) };

    ghost convert = { object_of config.convert };

    fn deserialize(de: &mut Deserializer<I>) -> Result<Config<'de>> {
        let mut found = ConfigFound {
            foo: None,
            bar: None,
        };
        let mut map = de.deserialize_struct("Config", &["foo", "bar"])?;
        map.read_fields(&mut found)?;
        let foo = map.required_field("foo", found.foo)?;
        let bar = map.required_field("bar", found.bar)?;
        map.end()?;
        Ok(Config { foo, bar })
    }
}

/// An object of both fields.
impl Serialize for Config<'_> {
    ghost use Rattle.json5.specs.WrittenTrees.{object};
    ghost use Rattle.rows.specs.OwnStructs.{config_fields};

    ghost tree = { λ c. object (config_fields c) };

    fn serialize<W: Write + Drop>(&self, ser: &mut Serializer<W>) -> Result<()> {
        let mut fields = ser.serialize_struct("Config", 2)?;
        fields.serialize_field("foo", &self.foo)?;
        fields.serialize_field("bar", &self.bar)?;
        fields.end()
    }
}
