//! Decimal digits: those in front of a text, and digits without their outer zeros.

ghost use Rattle.std.specs.Prelude.{◌≡◌, ◌≤◌, ◌+◌, length, drop, map, reverse};
ghost use Rattle.std.specs.List.{prefix_len};
ghost use Rattle.std.specs.Simd.Lanes.{mask_l};
ghost use Rattle.json5_grammar.specs.Language.Characters.{is_digit};
ghost use Rattle.json5_grammar.specs.Language.Numbers as numbers;
ghost use Rattle.json5_types.specs.DigitRuns.{SplitsDigits, is_no_digit};

use std::simd::prelude::*;

/// Whether the byte is a digit.
#[inline(always)]
pub fn is_digit(byte: u8) -> bool
    ensures { result ≡ is_digit byte }
{
    byte >= b'0' && byte <= b'9'
}

/// Which of the bytes are no digit.
#[inline(always)]
pub(crate) fn no_digits(bytes: u8x16) -> u64
    ensures { result ≡ mask_l (map is_no_digit bytes) }
{
    (bytes.simd_lt(u8x16::splat(b'0')) | bytes.simd_gt(u8x16::splat(b'9'))).to_bitmask()
}

/// The same as `digits_len` from this index on, byte by byte.
#[inline(never)]
fn digits_len_slowly(bytes: &[u8], from: usize) -> usize
    requires { from ≤ length bytes.now }
    ensures { result ≡ from + prefix_len is_digit (drop from bytes.now) }
{
    let mut i = from;
    while i < bytes.len() && is_digit(bytes[i]) {
        i += 1;
    }
    i
}

/// How many digits are in front, seen 16 at a time.
#[inline(always)]
pub fn digits_len(bytes: &[u8]) -> usize
    ensures { result ≡ prefix_len is_digit bytes.now }
{
    let mut i = 0;
    while bytes.len() - i >= 16 {
        let found = no_digits(u8x16::from_slice(&bytes[i..]));
        if found != 0 {
            return i + found.trailing_zeros() as usize;
        }
        i += 16;
    }
    digits_len_slowly(bytes, i)
}

/// The digits in front, and what follows them.
#[inline(always)]
pub fn split_digits(text: &str) -> (&str, &str)
    ensures { SplitsDigits text.now result.0.now result.1.now }
{
    text.split_at(digits_len(text.as_bytes()))
}

/// The digits without the zeros in front.
pub(crate) fn without_front_zeros(text: &str) -> &str
    ensures { result.now ≡ numbers.without_front_zeros text.now }
{
    let bytes = text.as_bytes();
    let mut start = 0;
    while start < bytes.len() && bytes[start] == b'0' {
        start += 1;
    }
    text.split_at(start).1
}

/// The digits without the zeros at the end.
pub(crate) fn without_back_zeros(text: &str) -> &str
    ensures { result.now ≡ reverse (numbers.without_front_zeros (reverse text.now)) }
{
    let bytes = text.as_bytes();
    let mut end = bytes.len();
    while end > 0 && bytes[end - 1] == b'0' {
        end -= 1;
    }
    text.split_at(end).0
}
