//! Bytes that are read and written as a string.

ghost use Rattle.std.specs.Prelude.{◌≡◌, ◌↔◌, Some, IsTrue, refl};
ghost use Rattle.std.specs.Ordering.{nat_cmp};
ghost use Rattle.std.specs.Hash as fed;
ghost use Rattle.std.specs.Cmp.Lexicographic.{pointwise, slice_cmp, nat_list_eq_equiv, nat_list_cmp_total, texts_ties, texts_po};
ghost use Rattle.std.specs.Cmp.{on_equiv, on_total, on_per, on_po, partial_equiv_from_equiv};
ghost use Rattle.std.specs.Cmp.Rules.{hashing};
ghost use Rattle.std.proofs.Common.{rules};

use std::cmp::Ordering;
use std::hash::{Hash, Hasher};

/// Bytes that are read and written as a string of hexadecimal digits, two a byte. Equality, order and hash are those of the
/// bytes.
///
/// ```text
/// let name: ByteBuf = json5::from_str(alloc, "'4A534F4E35'")?;    // the bytes of JSON5
/// ```
#[derive(Debug, Drop)]
pub struct ByteBuf {
    bytes: Vec<u8>,
}

impl ByteBuf {
    ghost use Rattle.json5_types.specs.ByteBufs.{bytes_of};

    /// Makes a `ByteBuf` of these bytes. Takes no memory.
    ///
    /// ```text
    /// json5::to_string(alloc, &ByteBuf::from_vec(bytes))?    // "ab0c" of the bytes 0xAB and 0x0C
    /// ```
    pub fn from_vec(bytes: Vec<u8>) -> ByteBuf
        ensures { bytes_of result ≡ bytes.items }
    {
        ByteBuf { bytes }
    }

    /// Returns the bytes.
    ///
    /// ```text
    /// let name: ByteBuf = json5::from_str(alloc, "'4A534F4E35'")?;
    /// name.as_slice() == b"JSON5"
    /// ```
    pub fn as_slice(&self) -> &[u8]
        ensures { result.now ≡ bytes_of self.now }
    {
        self.bytes.as_slice()
    }

    /// Returns the bytes, in the memory that they have.
    pub fn into_vec(self) -> Vec<u8>
        ensures { result.items ≡ bytes_of self }
    {
        let ByteBuf { bytes } = self;
        bytes
    }
}

impl PartialEq for ByteBuf {
    ghost use Rattle.json5_types.specs.ByteBufs.{bytes_of};
    ghost use Rattle.std.specs.Prelude.{nat_eq};

    ghost eq = { λ x y. pointwise nat_eq (bytes_of x) (bytes_of y) };

    ghost laws = { on_per bytes_of (partial_equiv_from_equiv nat_list_eq_equiv) };

    #[tactic(auto, using(crate::proofs::TextsCompared::texts_same))]
    fn eq(&self, other: &Self) -> bool
        ensures gives { result ≡ pointwise nat_eq (bytes_of self.now) (bytes_of other.now) }
        ensures same { IsTrue result ↔ (bytes_of self.now ≡ bytes_of other.now) }
    {
        self.as_slice() == other.as_slice()
    }
}

impl Eq for ByteBuf {
    ghost use Rattle.json5_types.specs.ByteBufs.{bytes_of};

    ghost laws = { on_equiv bytes_of nat_list_eq_equiv };
}

impl PartialOrd for ByteBuf {
    ghost use Rattle.json5_types.specs.ByteBufs.{bytes_of};

    ghost partial_cmp = { λ x y. Some (slice_cmp nat_cmp (bytes_of x) (bytes_of y)) };

    ghost laws = { on_po bytes_of texts_po };

    fn partial_cmp(&self, other: &Self) -> Option<Ordering> {
        Some(self.cmp(other))
    }
}

impl Ord for ByteBuf {
    ghost use Rattle.json5_types.specs.ByteBufs.{bytes_of};

    ghost cmp = { λ x y. slice_cmp nat_cmp (bytes_of x) (bytes_of y) };

    ghost total = { on_total bytes_of nat_list_cmp_total };

    ghost matches_partial_cmp = { λ x y. refl };

    ghost matches_eq = { λ x y. texts_ties (bytes_of x) (bytes_of y) };

    fn cmp(&self, other: &Self) -> Ordering {
        self.as_slice().cmp(other.as_slice())
    }
}

impl Hash for ByteBuf {
    ghost use Rattle.json5_types.specs.ByteBufs.{bytes_of};

    ghost hash_input = { λ b. fed.slice fed.u8 (bytes_of b) };

    ghost respects_eq = { Prim.search (hashing, rules) };

    fn hash<H: Hasher>(&self, state: &mut H) {
        self.as_slice().hash(state);
    }
}
