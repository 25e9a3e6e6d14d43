//! Runs of a string that JSON has as they are.

ghost use Rattle.std.specs.Prelude.{◌≡◌, ◌+◌, ◌≤◌, length, map};
ghost use Rattle.std.specs.List.{prefix_len};
ghost use Rattle.std.specs.Simd.Lanes.{mask_l};
ghost use Rattle.json5_styles.specs.Json.{is_unescaped};
ghost use Rattle.json5_styles.specs.JsonEscapes.{ends_unescaped, IsPastRun};

use std::simd::prelude::*;

/// Which of the bytes end a run.
#[inline(always)]
fn stops<const N: usize>(bytes: Simd<u8, N>) -> u64
    requires { N ≤ 64 }
    ensures { result ≡ mask_l (map ends_unescaped bytes.entry) }
{
    (bytes.simd_lt(Simd::splat(b' '))
        | bytes.simd_eq(Simd::splat(b'"'))
        | bytes.simd_eq(Simd::splat(b'\\'))).to_bitmask()
}

/// Whether the byte continues a run.
#[inline(always)]
fn is_unescaped(byte: u8) -> bool
    ensures { result ≡ is_unescaped byte }
{
    byte >= b' ' && byte != b'"' && byte != b'\\'
}

/// How long the run in front of a few bytes is.
#[inline(always)]
fn few_len(bytes: &[u8]) -> usize
    ensures { result ≡ prefix_len is_unescaped bytes.now }
{
    let mut i = 0;
    while i < bytes.len() && is_unescaped(bytes[i]) {
        i += 1;
    }
    i
}

/// How long the run in front is, by the first N bytes and the last N, which overlap.
#[inline(always)]
fn ends_len<const N: usize>(bytes: &[u8]) -> usize
    requires lanes { N ≤ 64 }
    requires covers { (N ≤ length bytes.now) × (length bytes.now ≤ N + N) }
    ensures { result ≡ prefix_len is_unescaped bytes.now }
{
    let found = stops(Simd::<u8, N>::from_slice(bytes));
    if found != 0 {
        return found.trailing_zeros() as usize;
    }
    let last = bytes.len() - N;
    let found = stops(Simd::<u8, N>::from_slice(&bytes[last..]));
    if found != 0 {
        return last + found.trailing_zeros() as usize;
    }
    bytes.len()
}

/// How long the run in front of at least 16 bytes is.
fn many_len(bytes: &[u8]) -> usize
    requires { 16 ≤ length bytes.now }
    ensures { result ≡ prefix_len is_unescaped bytes.now }
{
    let mut i = 0;
    while bytes.len() - i > 32 {
        let found = stops(u8x16::from_slice(&bytes[i..]));
        if found != 0 {
            return i + found.trailing_zeros() as usize;
        }
        i += 16;
    }
    i + ends_len::<16>(&bytes[i..])
}

/// How long the run in front is.
#[inline(always)]
fn unescaped_len(bytes: &[u8]) -> usize
    ensures { result ≡ prefix_len is_unescaped bytes.now }
{
    match bytes.len() {
        0..=3 => few_len(bytes),
        4..=7 => ends_len::<4>(bytes),
        8..=15 => ends_len::<8>(bytes),
        _ => many_len(bytes),
    }
}

/// The same, faster where the run is short and a longer text follows.
#[inline(always)]
fn len_within(bytes: &[u8]) -> usize
    ensures { result ≡ prefix_len is_unescaped bytes.now }
{
    if bytes.len() >= 16 {
        let found = stops(u8x16::from_slice(bytes));
        if found != 0 {
            return found.trailing_zeros() as usize;
        }
    }
    unescaped_len(bytes)
}

/// What follows the run in front, which is this long.
#[inline(always)]
fn past_run(text: &str, len: usize) -> &str
    requires { len ≡ prefix_len is_unescaped text.now }
    ensures { IsPastRun text.now result.now }
{
    text.split_at(len).1
}

/// Returns what follows the characters in front that JSON has as they are in a string (RFC 8259 section 7).
///
/// ```text
/// skip_unescaped("a\\n")    // what follows the `a`
/// ```
#[inline(always)]
pub fn skip_unescaped(text: &str) -> &str
    ensures { IsPastRun text.now result.now }
{
    past_run(text, unescaped_len(text.as_bytes()))
}

/// The same, faster where the run is short and a longer text follows.
///
/// ```text
/// skip_unescaped_within("a\", \"b\"]")    // what follows the `a`
/// ```
#[inline(always)]
pub fn skip_unescaped_within(text: &str) -> &str
    ensures { IsPastRun text.now result.now }
{
    past_run(text, len_within(text.as_bytes()))
}
