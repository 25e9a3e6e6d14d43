//! Colors, each by its name: as a value, and as the key of an entry.

ghost use Rattle.json5.specs.KeyKinds.{variant_key, RefusedAsKey};
ghost use Rattle.json5.specs.Named.{one_named};
ghost use Rattle.json5.specs.ReadsBack.{KeyReadsBack};
ghost use Rattle.json5.specs.TokenKinds.{RefusedAs, variant_kind, escape_free_text};
ghost use Rattle.test_own_types.specs.Accepted.{color_names, colors, color_named};
ghost use Rattle.test_own_types.specs.Written.{color_tree, color_key};
ghost use Rattle.test_own_types.specs.declared.colors.Color.{Color};

use json5::de::MapKey;
use json5::{
    Deserialize, DeserializeKey, Deserializer, Input, Result, Serialize, SerializeKey, Serializer,
    one_of_names, ser,
};
use std::io::Write;

/// A color.
#[derive(Clone, Copy, Debug, PartialEq, Eq, PartialOrd, Ord, Hash)]
pub enum Color {
    /// `'red'`
    Red,
    /// `'green'`
    Green,
    /// `'blue'`
    Blue,
}

/// A string that names a color; another one is refused at its position.
impl<I: Input> Deserialize<I> for Color {
    ghost Content = { Self };

    ghost content = { λ c. c };

    ghost convert = { one_named color_names colors };

    ghost allocation_free = { escape_free_text };

    ghost refuses = { RefusedAs (variant_kind color_names) };

    fn deserialize(de: &mut Deserializer<I>) -> Result<Color> {
        let colors = [Color::Red, Color::Green, Color::Blue];
        one_of_names(de, &["red", "green", "blue"], &colors)
    }
}

/// Its name: `'red'`.
impl Serialize for Color {
    ghost tree = { color_tree };

    fn serialize<W: Write + Drop>(&self, ser: &mut Serializer<W>) -> Result<()> {
        match self {
            Color::Red => ser.serialize_unit_variant("Color", 0, "red"),
            Color::Green => ser.serialize_unit_variant("Color", 1, "green"),
            Color::Blue => ser.serialize_unit_variant("Color", 2, "blue"),
        }
    }
}

/// A key that names a color; another one is a custom fault at the key, which lists the names.
impl<I: Input> DeserializeKey<I> for Color {
    ghost Content = { Self };

    ghost content = { λ c. c };

    ghost convert = { color_named };

    ghost refuses = { RefusedAsKey (variant_key color_names) };

    fn deserialize_key(key: &mut MapKey<'_, I>) -> Result<Color> {
        let place = key.deserialize_enum("Color", &["red", "green", "blue"])?;
        match place {
            0 => Ok(Color::Red),
            1 => Ok(Color::Green),
            _ => Ok(Color::Blue),
        }
    }
}

/// Its name: `red`.
impl SerializeKey for Color {
    ghost as_key = { color_key };

    fn serialize_key<W: Write + Drop>(&self, key: ser::MapKey<'_, W>) -> Result<()> {
        match self {
            Color::Red => key.serialize_unit_variant("Color", 0, "red"),
            Color::Green => key.serialize_unit_variant("Color", 1, "green"),
            Color::Blue => key.serialize_unit_variant("Color", 2, "blue"),
        }
    }
}

/// The law of keys that are colors: what is written of one reads back as the same. The call does nothing.
pub fn colors_read_back()
    ensures { (c : Color) → KeyReadsBack color_key color_named (λ c. c) c }
{}
