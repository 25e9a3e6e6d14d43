//! Enums whose impls are written by hand.

ghost use Rattle.json5.specs.DeserializeLaw.{IsUnprompted};
ghost use Rattle.json5.specs.Lending.{enum_state_of};
ghost use Rattle.json5.specs.Variants.{FinishesVariant};
ghost use Rattle.json5.specs.Writes.{WritesTree};
ghost use Rattle.rows.specs.OwnEnums.{f_content, f_a, f_b, f_c};
ghost use Rattle.rows.specs.OwnEnums.{e_content, e_y, e_z, x_tree, w_tree};

use json5::de::{Fields, MapKey};
use json5::{
    Deserialize, DeserializeKey, Deserializer, EnumAccess, Error, Input, MapAccess, Result,
    SeqAccess, Serialize, SerializeKey, Serializer, ser,
};
use std::alloc::Global;
use std::io::Write;

/// Two variants that hold nothing, and one that holds null.
#[derive(Clone, Copy, Debug, PartialEq, Eq, PartialOrd, Ord, Hash)]
pub enum F {
    /// `'A'`
    A,
    /// `'B'`
    B,
    /// `{ C: null }`
    C(()),
}

impl<I: Input> Deserialize<I> for F {
    ghost use Rattle.json5.specs.Variants.{one_of};
    ghost use Rattle.rows.specs.OwnEnums.{OfF, f_variants};

    ghost Content = { OfF };

    ghost content = { f_content };

    ghost convert = { one_of f_variants };

    fn deserialize(de: &mut Deserializer<I>) -> Result<F> {
        let access = de.deserialize_enum("F", &["A", "B", "C"])?;
        match access.variant() {
            0 => read_a(access),
            1 => read_b(access),
            _ => read_c(access),
        }
    }
}

fn read_a<I: Input>(access: EnumAccess<'_, I>) -> Result<F>
    ensures { FinishesVariant f_content f_a.convert (enum_state_of access.entry) access.exit.0.now result }
{
    access.unit_variant()?;
    Ok(F::A)
}

fn read_b<I: Input>(access: EnumAccess<'_, I>) -> Result<F>
    ensures { FinishesVariant f_content f_b.convert (enum_state_of access.entry) access.exit.0.now result }
{
    access.unit_variant()?;
    Ok(F::B)
}

fn read_c<I: Input>(access: EnumAccess<'_, I>) -> Result<F>
    ensures { FinishesVariant f_content f_c.convert (enum_state_of access.entry) access.exit.0.now result }
{
    let unit = access.newtype_variant::<()>()?;
    Ok(F::C(unit))
}

impl Serialize for F {
    ghost use Rattle.rows.specs.OwnEnums.{f_tree};

    ghost tree = { f_tree };

    fn serialize<W: Write + Drop>(&self, ser: &mut Serializer<W>) -> Result<()> {
        match self {
            F::A => ser.serialize_unit_variant("F", 0, "A"),
            F::B => ser.serialize_unit_variant("F", 1, "B"),
            F::C(unit) => ser.serialize_newtype_variant("F", 2, "C", unit),
        }
    }
}

/// A variant that holds nothing, by its name; `C` is refused, as a key has no content.
impl<I: Input> DeserializeKey<I> for F {
    ghost use Rattle.rows.specs.OwnEnums.{OfF, f_named};

    ghost Content = { OfF };

    ghost content = { f_content };

    ghost convert = { f_named };

    fn deserialize_key(key: &mut MapKey<'_, I>) -> Result<F> {
        let place = key.deserialize_enum("F", &["A", "B", "C"])?;
        match place {
            0 => Ok(F::A),
            1 => Ok(F::B),
            _ => Err(Error::custom(
                key.allocator(),
                "invalid type: unit variant, expected newtype variant",
            )?),
        }
    }
}

/// The name of a variant that holds nothing; `C` is no key.
impl SerializeKey for F {
    ghost use Rattle.rows.specs.OwnEnums.{f_key};

    ghost as_key = { f_key };

    fn serialize_key<W: Write + Drop>(&self, key: ser::MapKey<'_, W>) -> Result<()> {
        match self {
            F::A => key.serialize_unit_variant("F", 0, "A"),
            F::B => key.serialize_unit_variant("F", 1, "B"),
            F::C(()) => key.serialize_newtype_variant("F", 2, "C"),
        }
    }
}

/// A variant of each kind.
#[derive(Debug, Drop)]
pub enum E {
    /// `{ W: { a: 0, b: 0 } }`
    W {
        /// The field `a`.
        a: i32,
        /// The field `b`.
        b: i32,
    },
    /// `{ X: [0, 0] }`
    X(i32, i32),
    /// `{ Y: 0 }`
    Y(i32),
    /// `'Z'`
    Z,
}

impl<I: Input> Deserialize<I> for E {
    ghost use Rattle.json5.specs.Variants.{one_of};
    ghost use Rattle.rows.specs.OwnEnums.{OfE, e_variants};

    ghost Content = { OfE };

    ghost content = { e_content };

    ghost convert = { one_of e_variants };

    fn deserialize(de: &mut Deserializer<I>) -> Result<E> {
        let alloc = de.allocator();
        let access = de.deserialize_enum("E", &["W", "X", "Y", "Z"])?;
        match access.variant() {
            0 => {
                let mut found = WFound { a: None, b: None };
                let mut map = access.struct_variant(&["a", "b"])?;
                map.read_fields(&mut found)?;
                let a = map.required_field("a", found.a)?;
                let b = map.required_field("b", found.b)?;
                map.end()?;
                Ok(E::W { a, b })
            }
            1 => {
                let mut seq = access.tuple_variant(2)?;
                let Some(first) = seq.next_element::<i32>()? else {
                    return Err(too_short(&seq, alloc, 0));
                };
                let Some(second) = seq.next_element::<i32>()? else {
                    return Err(too_short(&seq, alloc, 1));
                };
                seq.end()?;
                Ok(E::X(first, second))
            }
            2 => read_y(access),
            _ => read_z(access),
        }
    }
}

/// The fields of `W`, as far as they were read.
#[derive(Drop)]
struct WFound {
    a: Option<i32>,
    b: Option<i32>,
}

impl<I: Input> Fields<I> for WFound {
    ghost use Rattle.std.specs.Prelude.{ℤ, Option};
    ghost use Rattle.json5.specs.ConvertLists.{if_some};
    ghost use Rattle.rows.specs.OwnEnums.{w_read};

    ghost Content = { Option ℤ × Option ℤ };

    ghost content = { λ f. (if_some (λ n. n) f.a, if_some (λ n. n) f.b) };

    ghost step = { w_read.step };

    fn read(&mut self, map: &mut MapAccess<'_, I>, name: &str) -> Result<()> {
        match name {
            "a" => map.next_field(name, &mut self.a),
            "b" => map.next_field(name, &mut self.b),
            _ => map.skip_value(),
        }
    }
}

/// The fault of an `X` that has only this many elements, at its bracket.
fn too_short<I: Input>(seq: &SeqAccess<'_, I>, alloc: Global, length: usize) -> Error
    ensures { IsUnprompted result }
{
    let expected = "tuple variant E::X with 2 elements";
    match Error::custom(
        alloc,
        format_args!("invalid length {length}, expected {expected}"),
    ) {
        Ok(error) => seq.place(error),
        Err(error) => seq.place(error),
    }
}

fn read_y<I: Input>(access: EnumAccess<'_, I>) -> Result<E>
    ensures { FinishesVariant e_content e_y.convert (enum_state_of access.entry) access.exit.0.now result }
{
    let number = access.newtype_variant::<i32>()?;
    Ok(E::Y(number))
}

fn read_z<I: Input>(access: EnumAccess<'_, I>) -> Result<E>
    ensures { FinishesVariant e_content e_z.convert (enum_state_of access.entry) access.exit.0.now result }
{
    access.unit_variant()?;
    Ok(E::Z)
}

impl Serialize for E {
    ghost use Rattle.rows.specs.OwnEnums.{e_tree};

    ghost tree = { e_tree };

    fn serialize<W: Write + Drop>(&self, ser: &mut Serializer<W>) -> Result<()> {
        match self {
            E::W { a, b } => write_w(a, b, ser),
            E::X(first, second) => write_x(first, second, ser),
            E::Y(number) => ser.serialize_newtype_variant("E", 2, "Y", number),
            E::Z => ser.serialize_unit_variant("E", 3, "Z"),
        }
    }
}

fn write_w<W: Write + Drop>(a: &i32, b: &i32, ser: &mut Serializer<W>) -> Result<()>
    ensures { WritesTree (w_tree a.now b.now) ser.old result ser.new }
{
    let mut fields = ser.serialize_struct_variant("E", 0, "W", 2)?;
    fields.serialize_field("a", a)?;
    fields.serialize_field("b", b)?;
    fields.end()
}

fn write_x<W: Write + Drop>(first: &i32, second: &i32, ser: &mut Serializer<W>) -> Result<()>
    ensures { WritesTree (x_tree first.now second.now) ser.old result ser.new }
{
    let mut list = ser.serialize_tuple_variant("E", 1, "X", 2)?;
    list.serialize_element(first)?;
    list.serialize_element(second)?;
    list.end()
}
