//! Copies into a row of bytes.

ghost use Rattle.std.specs.Prelude.{◌≡◌, ◌+◌, ◌<◌, ◌≤◌, [], ◌∷◌, length};
ghost use Rattle.std.specs.Fmt.{decimal};
ghost use Rattle.json5_write.specs.Copies.{Copied};
ghost use Rattle.json5_write.specs.Pieces.{between_quotes};

use itoa::{Buffer, write_digits};
use std::simd::Simd;

/// Copies the first N bytes and the last N, which overlap.
#[inline(always)]
fn copy_ends<const N: usize>(row: &mut [u8], at: usize, text: &[u8])
    requires fits { at + length text.now ≤ length row.old }
    requires covers { (N ≤ length text.now) × (length text.now ≤ N + N) }
    ensures { Copied row.old row.new at text.now (at + length text.now) }
{
    let last = text.len() - N;
    Simd::<u8, N>::from_slice(text).copy_to_slice(&mut row[at..]);
    Simd::<u8, N>::from_slice(&text[last..]).copy_to_slice(&mut row[at + last..]);
}

/// Copies the bytes to this place.
#[inline(always)]
pub(crate) fn copy_to(row: &mut [u8], at: usize, text: &[u8])
    requires { at + length text.now ≤ length row.old }
    ensures { Copied row.old row.new at text.now (at + length text.now) }
{
    match text.len() {
        0 => {}
        1 => row[at] = text[0],
        2..=3 => copy_ends::<2>(row, at, text),
        4..=7 => copy_ends::<4>(row, at, text),
        8..=15 => copy_ends::<8>(row, at, text),
        16..=32 => copy_ends::<16>(row, at, text),
        len => row[at..at + len].copy_from_slice(text),
    }
}

/// Stores a byte.
#[inline(always)]
fn copy_byte(row: &mut [u8], at: usize, byte: u8)
    requires { at < length row.old }
    ensures { Copied row.old row.new at (byte ∷ []) (at + 1) }
{
    row[at] = byte;
}

/// Copies the text between double quotes to this place.
#[inline(always)]
pub(crate) fn copy_between_quotes(row: &mut [u8], at: usize, text: &[u8])
    requires { at + (length text.now + 2) ≤ length row.old }
    ensures { Copied row.old row.new at (between_quotes text.now) (at + (length text.now + 2)) }
{
    copy_byte(row, at, b'"');
    copy_to(row, at + 1, text);
    copy_byte(row, at + 1 + text.len(), b'"');
}

/// Copies a byte to this place, and after it the text between double quotes.
#[inline(always)]
pub(crate) fn copy_quoted_after(row: &mut [u8], at: usize, mark: u8, text: &[u8])
    requires { at + (length text.now + 3) ≤ length row.old }
    ensures { Copied row.old row.new at (mark ∷ between_quotes text.now) (at + (length text.now + 3)) }
{
    copy_byte(row, at, mark);
    copy_between_quotes(row, at + 1, text);
}

/// How many decimal digits a number below 1,000 has.
#[inline(always)]
fn digit_count(number: u64) -> usize
    requires { number < 1000 }
    ensures { result ≡ length (decimal number) }
{
    match number {
        0..=9 => 1,
        10..=99 => 2,
        _ => 3,
    }
}

/// Copies the decimal digits of the number to this place, and returns where they end. Those of a number below 1,000 are made there.
#[inline(always)]
fn copy_digits(row: &mut [u8], at: usize, number: u64) -> usize
    requires { at + 20 ≤ length row.old }
    ensures { Copied row.old row.new at (decimal number) result }
{
    if number >= 1000 {
        let mut buffer = Buffer::new();
        let digits = buffer.format(number).as_bytes();
        copy_to(row, at, digits);
        return at + digits.len();
    }
    let end = at + digit_count(number);
    write_digits(number, row, end);
    end
}

/// Copies a byte to this place, and after it the decimal digits of the number. Returns where they end.
#[inline(always)]
pub(crate) fn copy_number_after(row: &mut [u8], at: usize, mark: u8, number: u64) -> usize
    requires { at + 21 ≤ length row.old }
    ensures { Copied row.old row.new at (mark ∷ decimal number) result }
{
    copy_byte(row, at, mark);
    copy_digits(row, at + 1, number)
}
