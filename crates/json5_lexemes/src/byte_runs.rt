//! How far JSON's blanks go, 16 bytes at a time.

ghost use Rattle.std.specs.Prelude.{◌≡◌, ◌+◌, ◌≤◌, length, drop, map};
ghost use Rattle.std.specs.List.{prefix_len};
ghost use Rattle.std.specs.Simd.Lanes.{mask_l};
ghost use Rattle.json5_styles.specs.Json.{is_json_blank};
ghost use Rattle.json5_lexemes.specs.PlainSteps.{ends_blanks};

use std::simd::prelude::*;

/// Whether the byte is a blank of JSON.
#[inline(always)]
pub(crate) fn is_json_blank(byte: u8) -> bool
    ensures { result ≡ is_json_blank byte }
{
    byte == b' ' || byte == b'\n' || byte == b'\r' || byte == b'\t'
}

/// Which of the bytes are no blanks of JSON.
#[inline(always)]
fn solids(bytes: u8x16) -> u64
    ensures { result ≡ mask_l (map ends_blanks bytes) }
{
    (bytes.simd_ne(u8x16::splat(b' '))
        & bytes.simd_ne(u8x16::splat(b'\t'))
        & bytes.simd_ne(u8x16::splat(b'\n'))
        & bytes.simd_ne(u8x16::splat(b'\r'))).to_bitmask()
}

/// The same as `blanks_len` from this index on, byte by byte.
#[inline(never)]
fn blanks_end(bytes: &[u8], from: usize) -> usize
    requires { from ≤ length bytes.now }
    ensures { result ≡ from + prefix_len is_json_blank (drop from bytes.now) }
{
    let mut i = from;
    while i < bytes.len() && is_json_blank(bytes[i]) {
        i += 1;
    }
    i
}

/// How many bytes of JSON's blanks are in front: spaces, tabs, LF and CR.
///
/// ```text
/// blanks_len(b"\t\n 80")    // 3
/// ```
#[inline(always)]
pub fn blanks_len(bytes: &[u8]) -> usize
    ensures { result ≡ prefix_len is_json_blank bytes.now }
{
    let mut i = 0;
    while bytes.len() - i >= 16 {
        let found = solids(u8x16::from_slice(&bytes[i..]));
        if found != 0 {
            return i + found.trailing_zeros() as usize;
        }
        i += 16;
    }
    blanks_end(bytes, i)
}
