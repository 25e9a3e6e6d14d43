//! Keys that are read and written by calls that no key type of the library makes.

use crate::call_spelling::by_name;
use json5::de::MapKey;
use json5::{Borrows, ByteBuf, CowStr, DeserializeKey, Input, Result, SerializeKey, ser};
use std::io::Write;

/// A text, by `deserialize_any`.
#[derive(Debug, Drop)]
pub struct ByAny<'de>(CowStr<'de>);

impl<'de, I: Borrows<'de>> DeserializeKey<I> for ByAny<'de> {
    ghost use Rattle.std.specs.Prelude.{ℕ, List, Bool};
    ghost use Rattle.json5.specs.Cows.{cow_bytes, is_borrowed};
    ghost use Rattle.json5.specs.Convert.{every_cow};

    ghost Content = { List ℕ × Bool };

    ghost content = { λ k. (cow_bytes k.0, is_borrowed k.0) };

    ghost convert = { every_cow };

    fn deserialize_key(key: &mut MapKey<'_, I>) -> Result<ByAny<'de>> {
        let text = key.deserialize_any()?;
        Ok(ByAny(text))
    }
}

/// Null, by `deserialize_unit_struct`.
#[derive(Debug, Drop)]
pub struct ByUnitStruct;

impl<I: Input> DeserializeKey<I> for ByUnitStruct {
    ghost use Rattle.json5.specs.TokenKinds.{null_kind};
    ghost use Rattle.json5.specs.KeyKinds.{document_key};

    ghost Content = { Unit {0} };

    ghost content = { λ _. tt };

    ghost convert = { (document_key null_kind).convert };

    fn deserialize_key(key: &mut MapKey<'_, I>) -> Result<ByUnitStruct> {
        key.deserialize_unit_struct("ByUnitStruct")?;
        Ok(ByUnitStruct)
    }
}

/// A number, by `deserialize_newtype_struct`.
#[derive(Debug, Drop)]
pub struct ByNewtypeStruct(u8);

impl<I: Input> DeserializeKey<I> for ByNewtypeStruct {
    ghost use Rattle.std.specs.Prelude.{ℕ, ◌^◌};
    ghost use Rattle.json5.specs.TokenKinds.{natural_kind};
    ghost use Rattle.json5.specs.KeyKinds.{document_key};

    ghost Content = { ℕ };

    ghost content = { λ k. k.0 };

    ghost convert = { (document_key (natural_kind (2 ^ 8))).convert };

    fn deserialize_key(key: &mut MapKey<'_, I>) -> Result<ByNewtypeStruct> {
        let number = key.deserialize_newtype_struct::<u8>("ByNewtypeStruct")?;
        Ok(ByNewtypeStruct(number))
    }
}

/// Bytes, by `deserialize_bytes`.
#[derive(Debug, Drop)]
pub struct ByBytes(ByteBuf);

impl<I: Input> DeserializeKey<I> for ByBytes {
    ghost use Rattle.std.specs.Prelude.{ℕ, List};
    ghost use Rattle.json5_types.specs.ByteBufs.{bytes_of};
    ghost use Rattle.json5.specs.Convert.{digits_bytes};

    ghost Content = { List ℕ };

    ghost content = { λ k. bytes_of k.0 };

    ghost convert = { digits_bytes };

    fn deserialize_key(key: &mut MapKey<'_, I>) -> Result<ByBytes> {
        let bytes = key.deserialize_bytes()?;
        Ok(ByBytes(bytes))
    }
}

/// A key that is written by a call for what is no key, the one of this name.
#[derive(Drop)]
pub struct NoKey<'a> {
    /// `key:none`, `key:seq`, `key:struct_variant`
    pub call: &'a str,
}

impl SerializeKey for NoKey<'_> {
    ghost use Rattle.json5.specs.WrittenTrees.{bad};

    ghost as_key = { λ _. bad };

    fn serialize_key<W: Write + Drop>(&self, key: ser::MapKey<'_, W>) -> Result<()> {
        by_name!(self.call;
            0 "key:seq" => key.serialize_seq(None),
            1 "key:tuple" => key.serialize_tuple(2),
            2 "key:tuple_struct" => key.serialize_tuple_struct("Name", 2),
            3 "key:newtype_variant" => key.serialize_newtype_variant("Name", 0, "Variant"),
            4 "key:tuple_variant" => key.serialize_tuple_variant("Name", 0, "Variant", 2),
            5 "key:map" => key.serialize_map(None),
            6 "key:struct" => key.serialize_struct("Name", 2),
            7 "key:struct_variant" => key.serialize_struct_variant("Name", 0, "Variant", 2);
            key.serialize_none()
        )
    }
}

/// `null`, by `serialize_unit_struct`.
#[derive(Drop)]
pub struct UnitStructKey;

impl SerializeKey for UnitStructKey {
    ghost use Rattle.json5.specs.Values.{null_text};
    ghost use Rattle.json5.specs.WrittenTrees.{named};

    ghost as_key = { λ _. named null_text };

    fn serialize_key<W: Write + Drop>(&self, key: ser::MapKey<'_, W>) -> Result<()> {
        key.serialize_unit_struct("UnitStructKey")
    }
}

/// The name `a`, by `serialize_newtype_struct`.
#[derive(Drop)]
pub struct NewtypeStructKey;

impl SerializeKey for NewtypeStructKey {
    ghost use Rattle.std.specs.Prelude.{codes};
    ghost use Rattle.std.specs.Str.{chars};
    ghost use Rattle.json5.specs.WrittenTrees.{named};

    ghost as_key = { λ _. named (chars (codes "a")) };

    fn serialize_key<W: Write + Drop>(&self, key: ser::MapKey<'_, W>) -> Result<()> {
        key.serialize_newtype_struct("NewtypeStructKey", &"a")
    }
}
