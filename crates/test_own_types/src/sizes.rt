//! A size, which is read without memory.

ghost use Rattle.std.specs.Prelude.{◌<◌, ◌^◌, ℕ, IsOkAnd};
ghost use Rattle.std.specs.Str.{chars};
ghost use Rattle.json5.specs.Documents.{Doc, max_depth};
ghost use Rattle.json5.specs.EscapeFreeMarks.{marks};
ghost use Rattle.json5.specs.Structs.{codes, struct_of, struct_free};
ghost use Rattle.test_own_types.specs.Written.{IsSize, size_tree};

use json5::fields::StructFields;
use json5::{
    Deserialize, Deserializer, Field, Input, Required, Result, Serialize, Serializer, from_str,
    read_struct, write_struct,
};
use std::alloc::Global;
use std::io::Write;

/// A size in pixels: `{ width: 640, height: 480 }`.
#[derive(Drop)]
pub struct Size {
    /// `width`
    pub width: u32,
    /// `height`
    pub height: u32,
}

type Parts = (Required, Required);

type Values = (u32, u32);

/// An object of two numbers. If its keys have no escape, it is read without memory.
impl<I: Input> Deserialize<I> for Size {
    ghost Content = { ⟦<Parts as StructFields<I, Values>>⟧.Content };

    ghost content = { λ s. ⟦<Parts as StructFields<I, Values>>⟧.content (s.width, s.height) };

    ghost convert = { struct_of (⟦<Parts as StructFields<I, Values>>⟧.layout (codes "width", codes "height")) };

    ghost allocation_free = { struct_free ⟦<Parts as StructFields<I, Values>>⟧.allocation_free };

    fn deserialize(de: &mut Deserializer<I>) -> Result<Size> {
        match read_struct(de, (Required("width"), Required("height"))) {
            Ok((width, height)) => Ok(Size { width, height }),
            Err(e) => Err(e),
        }
    }
}

/// An object of both.
impl Serialize for Size {
    ghost tree = { λ s. size_tree s.width s.height };

    fn serialize<W: Write + Drop>(&self, ser: &mut Serializer<W>) -> Result<()> {
        let fields = (Field("width", &self.width), Field("height", &self.height));
        write_struct(ser, &fields)
    }
}

/// Reads a size. What was written of one is read as the same, and no request for memory can refuse it.
pub fn size_of_text(alloc: Global, text: &str) -> Result<Size>
    ensures { (w h : ℕ) → w < 2 ^ 32 → h < 2 ^ 32 → Doc max_depth (chars text.now) (marks (size_tree w h)) → IsOkAnd result (IsSize w h) }
{
    from_str(alloc, text)
}
