//! Structs that are read by descriptions.

use json5::fields::StructFields;
use json5::{
    Deserialize, Deserializer, Field, Given, Input, Optional, Required, Result, Serialize,
    Serializer, WithDefault, read_struct, read_struct_only, write_struct,
};
use std::io::Write;

/// `a` has to be there, `ab` is 7 where it is missing, and `abc` may be missing: each name begins the next.
#[derive(Drop)]
pub struct Prefixes {
    pub a: u8,
    pub ab: u8,
    pub abc: Option<bool>,
}

type PrefixParts = (Required, WithDefault<u8>, Optional);

type PrefixValues = (u8, u8, Option<bool>);

impl<I: Input> Deserialize<I> for Prefixes {
    ghost use Rattle.json5.specs.Structs.{codes, struct_of};

    ghost Content = { ⟦<PrefixParts as StructFields<I, PrefixValues>>⟧.Content };

    ghost content = { λ p. ⟦<PrefixParts as StructFields<I, PrefixValues>>⟧.content (p.a, p.ab, p.abc) };

    ghost convert = { struct_of (⟦<PrefixParts as StructFields<I, PrefixValues>>⟧.layout (codes "a", ((codes "ab", 7), codes "abc"))) };

    fn deserialize(de: &mut Deserializer<I>) -> Result<Prefixes> {
        match read_struct(de, (Required("a"), WithDefault("ab", 7), Optional("abc"))) {
            Ok((a, ab, abc)) => Ok(Prefixes { a, ab, abc }),
            Err(e) => Err(e),
        }
    }
}

impl Serialize for Prefixes {
    ghost use Rattle.std.specs.Prelude.{codes};
    ghost use Rattle.json5.specs.WrittenFields.{field_named, field_given};
    ghost use Rattle.json5.specs.WrittenTrees.{object, no_field, natural, boolean};

    ghost tree = { λ p. object (field_named (codes "a") (natural p.a) (field_named (codes "ab") (natural p.ab) (field_given boolean (codes "abc") p.abc no_field))) };

    fn serialize<W: Write + Drop>(&self, ser: &mut Serializer<W>) -> Result<()> {
        write_struct(
            ser,
            &(
                Field("a", &self.a),
                Field("ab", &self.ab),
                Given("abc", &self.abc),
            ),
        )
    }
}

/// The same, with no other field.
#[derive(Drop)]
pub struct Only {
    pub prefixes: Prefixes,
}

impl<I: Input> Deserialize<I> for Only {
    ghost use Rattle.json5.specs.Structs.{codes, struct_only, RefusesOnly};

    ghost Content = { ⟦<PrefixParts as StructFields<I, PrefixValues>>⟧.Content };

    ghost content = { λ o. ⟦<PrefixParts as StructFields<I, PrefixValues>>⟧.content (o.prefixes.a, o.prefixes.ab, o.prefixes.abc) };

    ghost convert = { struct_only (⟦<PrefixParts as StructFields<I, PrefixValues>>⟧.layout (codes "a", ((codes "ab", 7), codes "abc"))) };

    ghost refuses = { RefusesOnly (⟦<PrefixParts as StructFields<I, PrefixValues>>⟧.layout (codes "a", ((codes "ab", 7), codes "abc"))) ⟦<PrefixParts as StructFields<I, PrefixValues>>⟧.faults };

    fn deserialize(de: &mut Deserializer<I>) -> Result<Only> {
        match read_struct_only(de, (Required("a"), WithDefault("ab", 7), Optional("abc"))) {
            Ok((a, ab, abc)) => Ok(Only {
                prefixes: Prefixes { a, ab, abc },
            }),
            Err(e) => Err(e),
        }
    }
}

impl Serialize for Only {
    ghost tree = { λ o. ⟦<Prefixes as Serialize>⟧.tree o.prefixes };

    fn serialize<W: Write + Drop>(&self, ser: &mut Serializer<W>) -> Result<()> {
        self.prefixes.serialize(ser)
    }
}

/// Names of 32 and of 33 bytes, of which one begins the other, and a nested struct, which may be missing.
#[derive(Drop)]
pub struct Long {
    pub short: u8,
    pub long: u8,
    pub nested: Option<Prefixes>,
}

type LongParts = (Required, Required, Optional);

type LongValues = (u8, u8, Option<Prefixes>);

impl<I: Input> Deserialize<I> for Long {
    ghost use Rattle.json5.specs.Structs.{codes, struct_of};

    ghost Content = { ⟦<LongParts as StructFields<I, LongValues>>⟧.Content };

    ghost content = { λ l. ⟦<LongParts as StructFields<I, LongValues>>⟧.content (l.short, l.long, l.nested) };

    ghost convert = { struct_of (⟦<LongParts as StructFields<I, LongValues>>⟧.layout (codes "a2345678901234567890123456789012", (codes "a23456789012345678901234567890123", codes "nested"))) };

    fn deserialize(de: &mut Deserializer<I>) -> Result<Long> {
        let short = Required("a2345678901234567890123456789012");
        let long = Required("a23456789012345678901234567890123");
        match read_struct(de, (short, long, Optional("nested"))) {
            Ok((short, long, nested)) => Ok(Long {
                short,
                long,
                nested,
            }),
            Err(e) => Err(e),
        }
    }
}

impl Serialize for Long {
    ghost use Rattle.std.specs.Prelude.{codes};
    ghost use Rattle.json5.specs.WrittenFields.{field_named, field_given};
    ghost use Rattle.json5.specs.WrittenTrees.{object, no_field, natural};

    ghost tree = { λ l. object (field_named (codes "a2345678901234567890123456789012") (natural l.short) (field_named (codes "a23456789012345678901234567890123") (natural l.long) (field_given ⟦<Prefixes as Serialize>⟧.tree (codes "nested") l.nested no_field))) };

    fn serialize<W: Write + Drop>(&self, ser: &mut Serializer<W>) -> Result<()> {
        let short = Field("a2345678901234567890123456789012", &self.short);
        let long = Field("a23456789012345678901234567890123", &self.long);
        write_struct(ser, &(short, long, Given("nested", &self.nested)))
    }
}
