//! Runs of bytes, seen 16 at a time.

ghost use Rattle.std.specs.Prelude.{◌≤◌, length};

use std::simd::prelude::*;

/// A run of bytes in front of a text.
#[derive(Clone, Copy, Drop)]
pub(crate) enum Run {
    /// Spaces.
    Spaces,
    /// What comes before this quote or a backslash.
    Quoted(u8),
    /// Bytes that surely end no word.
    Word,
    /// Bytes that surely end no line.
    Line,
}

impl Run {
    /// Which of the bytes may end the run.
    #[inline(always)]
    fn ends(self, bytes: u8x16) -> u64 {
        match self {
            Run::Spaces => solids(bytes),
            Run::Quoted(quote) => string_stops(quote, bytes),
            Run::Word => word_stops(bytes),
            Run::Line => line_stops(bytes),
        }
    }

    /// How many bytes of the run are in front.
    #[inline(always)]
    pub(crate) fn len(self, bytes: &[u8]) -> usize
        ensures { result ≤ length bytes.now }
    {
        let mut at = 0;
        while bytes.len() - at >= 16 {
            let found = self.ends(u8x16::from_slice(&bytes[at..]));
            if found != 0 {
                return at + first(found, 16);
            }
            at += 16;
        }
        let found = self.ends(u8x16::load_or_default(&bytes[at..]));
        at + first(found, bytes.len() - at)
    }
}

/// Which of the bytes are no spaces.
#[inline(always)]
fn solids(bytes: u8x16) -> u64 {
    bytes.simd_ne(u8x16::splat(b' ')).to_bitmask()
}

/// Which of the bytes are the quote or a backslash.
#[inline(always)]
fn string_stops(quote: u8, bytes: u8x16) -> u64 {
    (bytes.simd_eq(u8x16::splat(quote)) | bytes.simd_eq(u8x16::splat(b'\\'))).to_bitmask()
}

/// Which of the bytes may end a word of a document: a blank, a quote, a sign of punctuation, a slash, or a byte past
/// ASCII.
#[inline(always)]
fn word_stops(bytes: u8x16) -> u64 {
    let folded = bytes | u8x16::splat(0x20);
    (bytes.simd_lt(u8x16::splat(b'$'))
        | bytes.simd_gt(u8x16::splat(127))
        | bytes.simd_eq(u8x16::splat(b','))
        | bytes.simd_eq(u8x16::splat(b':'))
        | bytes.simd_eq(u8x16::splat(b'/'))
        | bytes.simd_eq(u8x16::splat(b'\''))
        | folded.simd_eq(u8x16::splat(b'{'))
        | folded.simd_eq(u8x16::splat(b'}'))).to_bitmask()
}

/// Which of the bytes may begin a line end: LF, CR, or the first byte of U+2028.
#[inline(always)]
fn line_stops(bytes: u8x16) -> u64 {
    (bytes.simd_eq(u8x16::splat(b'\n'))
        | bytes.simd_eq(u8x16::splat(b'\r'))
        | bytes.simd_eq(u8x16::splat(0xE2))).to_bitmask()
}

/// The place of the first byte that was found, and this length where none was, or it is further.
#[inline(always)]
fn first(found: u64, len: usize) -> usize
    ensures { result ≤ len }
{
    let place = found.trailing_zeros() as usize;
    if place < len { place } else { len }
}
