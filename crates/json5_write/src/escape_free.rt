//! Runs of a string that are written as they are.

ghost use Rattle.std.specs.Prelude.{◌≡◌, map, IsTrue};
ghost use Rattle.std.specs.List.{prefix_len};
ghost use Rattle.std.specs.Str.{chars};
ghost use Rattle.json5_grammar.specs.Language.Characters.{Each};
ghost use Rattle.std.specs.Simd.Lanes.{mask_l};
ghost use Rattle.json5_write.specs.EscapeFree.{ends_escape_free, is_escape_free_byte, is_escape_free, SkipsEscapeFree};

use std::simd::prelude::*;

/// Which of the bytes end a run.
#[inline(always)]
fn stops(bytes: u8x16) -> u64
    ensures { result ≡ mask_l (map ends_escape_free bytes) }
{
    (bytes.simd_eq(u8x16::splat(b'\n'))
        | bytes.simd_eq(u8x16::splat(b'\r'))
        | bytes.simd_eq(u8x16::splat(0xE2))
        | bytes.simd_eq(u8x16::splat(b'"'))
        | bytes.simd_eq(u8x16::splat(b'\''))
        | bytes.simd_eq(u8x16::splat(b'\\'))).to_bitmask()
}

/// Whether the byte continues a run.
#[inline(always)]
fn is_escape_free_byte(byte: u8) -> bool
    ensures { result ≡ is_escape_free_byte byte }
{
    !matches!(byte, b'\n' | b'\r' | 0xE2 | b'"' | b'\'' | b'\\')
}

/// How long the run in front is.
fn escape_free_len(bytes: &[u8]) -> usize
    ensures { result ≡ prefix_len is_escape_free_byte bytes.now }
{
    let mut i = 0;
    while bytes.len() - i >= 16 {
        let found = stops(u8x16::from_slice(&bytes[i..]));
        if found != 0 {
            return i + found.trailing_zeros() as usize;
        }
        i += 16;
    }
    while i < bytes.len() && is_escape_free_byte(bytes[i]) {
        i += 1;
    }
    i
}

/// What follows the characters in front that are written as they are between any quotes, and are no quotes themselves.
pub(crate) fn skip_escape_free(text: &str) -> &str
    ensures { SkipsEscapeFree text.now result.now }
{
    let end = escape_free_len(text.as_bytes());
    text.split_at(end).1
}

/// Whether all characters are written as they are between any quotes, and no character is a quote.
pub fn is_escape_free(text: &str) -> bool
    ensures { IsTrue result → Each is_escape_free (chars text.now) }
{
    skip_escape_free(text).is_empty()
}
