//! Runs of bytes in front of a text: how far lines and strings go, and where a star is.

ghost use Rattle.std.specs.Prelude.{◌≡◌, ◌≤◌, ◌+◌, length, drop, map};
ghost use Rattle.std.specs.List.{prefix_len};
ghost use Rattle.std.specs.Simd.Lanes.{mask_l};
ghost use Rattle.memchr.specs.Find.{is_byte, is_byte3};
ghost use Rattle.json5_grammar.specs.Language.Strings.{is_raw};
ghost use Rattle.json5_tokens.specs.ByteRuns.{ends_raw, is_in_line, is_no_star};

use memchr::{memchr, memchr3};
use std::simd::prelude::*;

/// Which of the bytes are LF or CR or begin a character from U+2000 to U+2FFF.
#[inline(always)]
fn line_ends(bytes: u8x16) -> u64
    ensures { result ≡ mask_l (map (is_byte3 10 13 226) bytes) }
{
    (bytes.simd_eq(u8x16::splat(b'\n'))
        | bytes.simd_eq(u8x16::splat(b'\r'))
        | bytes.simd_eq(u8x16::splat(0xE2))).to_bitmask()
}

/// How many bytes come before the first that is LF or CR or begins a character from U+2000 to U+2FFF, as U+2028 and U+2029.
/// Most comments end within 16 bytes, and then the call of `memchr3` would take longer than the search.
pub fn line_len(bytes: &[u8]) -> usize
    ensures { result ≡ prefix_len is_in_line bytes.now }
{
    if bytes.len() >= 16 {
        let found = line_ends(u8x16::from_slice(bytes));
        if found != 0 {
            return found.trailing_zeros() as usize;
        }
    }
    memchr3(b'\n', b'\r', 0xE2, bytes).unwrap_or(bytes.len())
}

/// Which of the bytes are a star.
#[inline(always)]
fn stars(bytes: u8x16) -> u64
    ensures { result ≡ mask_l (map (is_byte 42) bytes) }
{
    bytes.simd_eq(u8x16::splat(b'*')).to_bitmask()
}

/// How many bytes come before the first star. The first 16 bytes are tested as in `line_len`.
pub fn star_offset(bytes: &[u8]) -> usize
    ensures { result ≡ prefix_len is_no_star bytes.now }
{
    if bytes.len() >= 16 {
        let found = stars(u8x16::from_slice(bytes));
        if found != 0 {
            return found.trailing_zeros() as usize;
        }
    }
    memchr(b'*', bytes).unwrap_or(bytes.len())
}

/// Which of the bytes end a run of a string between these quotes.
#[inline(always)]
fn stops(quote: u8, bytes: u8x16) -> u64
    ensures { result ≡ mask_l (map (ends_raw quote) bytes) }
{
    (bytes.simd_eq(u8x16::splat(quote))
        | bytes.simd_eq(u8x16::splat(b'\\'))
        | bytes.simd_eq(u8x16::splat(b'\n'))
        | bytes.simd_eq(u8x16::splat(b'\r'))).to_bitmask()
}

/// The same as `raw_end` from this index on, byte by byte.
#[inline(never)]
fn raw_end_slowly(quote: u8, bytes: &[u8], from: usize) -> usize
    requires { from ≤ length bytes.now }
    ensures { result ≡ from + prefix_len (is_raw quote) (drop from bytes.now) }
{
    let mut i = from;
    while i < bytes.len()
        && bytes[i] != quote
        && bytes[i] != b'\\'
        && bytes[i] != b'\n'
        && bytes[i] != b'\r'
    {
        i += 1;
    }
    i
}

/// How many bytes in front spell themselves between these quotes.
#[inline(always)]
pub(crate) fn raw_end(quote: u8, bytes: &[u8]) -> usize
    ensures value { result ≡ prefix_len (is_raw quote) bytes.now }
    ensures bound { result ≤ length bytes.now }
{
    let mut i = 0;
    while bytes.len() - i >= 16 {
        let found = stops(quote, u8x16::from_slice(&bytes[i..]));
        if found != 0 {
            return i + found.trailing_zeros() as usize;
        }
        i += 16;
    }
    raw_end_slowly(quote, bytes, i)
}
