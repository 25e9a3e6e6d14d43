//! Runs of bytes, seen 16 at a time: those that two texts have in common, and blanks and commas.

ghost use Rattle.std.specs.Prelude.{◌≡◌, ◌≤◌, map};
ghost use Rattle.std.specs.List.{prefix_len};
ghost use Rattle.std.specs.Simd.Lanes.{mask_l};
ghost use Rattle.json5_lexemes.specs.Runs.{IsRun, codes, ends_separators, is_common_separator, is_set};

use std::simd::prelude::*;

/// A run of bytes within a lexeme.
///
/// ```text
/// Run::Text.shared_len(left, right)    // how many bytes of strings are the same in both
/// ```
#[derive(Clone, Copy, Drop)]
pub enum Run {
    /// Parts of a number, a literal or a name.
    Word,
    /// What comes before a quote or a backslash.
    Text,
    /// What surely ends no line.
    Line,
    /// What comes before a star.
    Block,
}

impl Run {
    /// Which of the bytes of the first text end the run, or differ from those of the second.
    #[inline(always)]
    fn ends(self, left: u8x16, right: u8x16) -> u64
        ensures { result ≡ mask_l (map is_set (codes self left right)) }
    {
        let differs = left.simd_ne(right);
        match self {
            Run::Word => (differs
                | (left.simd_lt(u8x16::splat(b'('))
                    | left.simd_gt(u8x16::splat(b'z'))
                    | left.simd_eq(u8x16::splat(b','))
                    | left.simd_eq(u8x16::splat(b'/'))
                    | left.simd_eq(u8x16::splat(b':'))
                    | left.simd_eq(u8x16::splat(b'['))
                    | left.simd_eq(u8x16::splat(b']')))).to_bitmask(),
            Run::Text => (differs
                | (left.simd_eq(u8x16::splat(b'"'))
                    | left.simd_eq(u8x16::splat(b'\''))
                    | left.simd_eq(u8x16::splat(b'\\')))).to_bitmask(),
            Run::Line => (differs
                | (left.simd_eq(u8x16::splat(b'\n'))
                    | left.simd_eq(u8x16::splat(b'\r'))
                    | left.simd_eq(u8x16::splat(0xE2)))).to_bitmask(),
            Run::Block => (differs | left.simd_eq(u8x16::splat(b'*'))).to_bitmask(),
        }
    }

    /// How many bytes of the run are in front of both texts, but for some of the last sixteen of a text.
    ///
    /// ```text
    /// Run::Word.shared_len(b"12, 1234567890123", b"12 , 1234567890123")    // 2
    /// ```
    #[inline(always)]
    pub fn shared_len(self, left: &[u8], right: &[u8]) -> usize
        ensures { IsRun self left.now right.now result }
    {
        let mut i = 0;
        while left.len() - i >= 16 && right.len() - i >= 16 {
            let found = self.ends(
                u8x16::from_slice(&left[i..]),
                u8x16::from_slice(&right[i..]),
            );
            if found != 0 {
                return i + found.trailing_zeros() as usize;
            }
            i += 16;
        }
        i
    }
}

/// Which of the bytes are no blank of JSON and no comma.
#[inline(always)]
fn solids(bytes: u8x16) -> u64
    ensures { result ≡ mask_l (map ends_separators bytes) }
{
    (bytes.simd_ne(u8x16::splat(b' '))
        & bytes.simd_ne(u8x16::splat(b'\t'))
        & bytes.simd_ne(u8x16::splat(b'\n'))
        & bytes.simd_ne(u8x16::splat(b'\r'))
        & bytes.simd_ne(u8x16::splat(b','))).to_bitmask()
}

/// Whether a byte that surely begins a lexeme is at this index.
#[inline(always)]
pub(crate) fn is_solid(bytes: &[u8], place: usize) -> bool {
    place < bytes.len() && (bytes[place] > b',' && bytes[place] < 128 || bytes[place] == b'"')
}

/// How many blanks of JSON and commas are in front, but for some at the end of the text.
#[tactic(auto, using(crate::proofs::SharedRuns::one_space))]
#[inline(always)]
pub(crate) fn separators_len(bytes: &[u8]) -> usize
    ensures { result ≤ prefix_len is_common_separator bytes.now }
{
    if is_solid(bytes, 0) {
        return 0;
    }
    if !bytes.is_empty() && bytes[0] == b' ' && is_solid(bytes, 1) {
        return 1;
    }
    let mut i = 0;
    while bytes.len() - i >= 16 {
        let found = solids(u8x16::from_slice(&bytes[i..]));
        if found != 0 {
            return i + found.trailing_zeros() as usize;
        }
        i += 16;
    }
    i
}
