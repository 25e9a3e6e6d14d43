//! Decimal digits that are kept in the value itself.

ghost use Rattle.std.specs.Prelude.{◌≡◌, ◌<◌, ◌+◌, ◌++◌, ◌∷◌, [], length, take, reverse, true, MatchOption, IfSome};
ghost use Rattle.std.specs.List.{prefix_len};
ghost use Rattle.json5_grammar.specs.Language.Characters.{is_digit, Each};
ghost use Rattle.json5_grammar.specs.Language.Numbers as numbers;
ghost use Rattle.json5_types.specs.DigitRuns.{SplitsDigits, Gathers, Pushed};

use crate::digit_runs::{is_digit, no_digits, without_back_zeros};
use std::marker::Model;
use std::simd::prelude::*;
use std::str;

/// How many digits fit.
const CAPACITY: usize = 19;

/// At most 19 ASCII digits, which take no heap memory.
#[derive(Drop)]
pub struct InlineDigits {
    len: u8,
    bytes: [u8; CAPACITY],
}

impl Model for InlineDigits {
    ghost use Rattle.std.specs.Prelude.{ℕ, List, ◌≤◌, take, length};
    ghost use Rattle.json5_grammar.specs.Language.Characters.{is_digit, Each};

    ghost Value = { List ℕ };

    ghost view = { λ d. take d.len d.bytes };

    ghost invariant = { λ d. (d.len ≤ 19) × Each is_digit (take d.len d.bytes) };
}

impl InlineDigits {
    /// The digits of both strings, one after the other; None if there are more than 19.
    pub(crate) fn new(first: &str, last: &str) -> Option<InlineDigits>
        requires first { Each is_digit first.now }
        requires last { Each is_digit last.now }
        ensures { MatchOption result (19 < length first.now + length last.now) (λ d. d ≡ first.now ++ last.now) }
    {
        let len = first.len() + last.len();
        if len > CAPACITY {
            return None;
        }
        let mut bytes = [0; CAPACITY];
        bytes[..first.len()].copy_from_slice(first.as_bytes());
        bytes[first.len()..len].copy_from_slice(last.as_bytes());
        Some(InlineDigits {
            len: len as u8,
            bytes,
        })
    }

    /// No digits.
    #[inline(always)]
    pub fn empty() -> InlineDigits
        ensures none { result ≡ [] }
    {
        InlineDigits {
            len: 0,
            bytes: [0; CAPACITY],
        }
    }

    /// Adds the digits in front of the bytes, and returns how many they are; None if there is no room.
    #[inline(never)]
    fn push_digits(&mut self, bytes: &[u8]) -> Option<usize>
        ensures count { IfSome result (λ count. count ≡ prefix_len is_digit bytes.now) }
        ensures gathered { IfSome result (λ count. Gathers self.old self.new (take count bytes.now)) }
    {
        let mut len = usize::from(self.len);
        let mut i = 0;
        while i < bytes.len() && is_digit(bytes[i]) {
            if len > 0 || bytes[i] != b'0' {
                if len == CAPACITY {
                    return None;
                }
                self.bytes[len] = bytes[i];
                len += 1;
            }
            i += 1;
        }
        self.len = len as u8;
        Some(i)
    }

    /// The same where fewer than 16 digits are in front and no zero in front of all: 16 bytes are copied, and so many of them count.
    #[inline(always)]
    fn push_few_digits(&mut self, bytes: &[u8]) -> Option<usize>
        ensures { MatchOption result (self.new ≡ self.old) (Pushed self.old self.new bytes.now) }
    {
        let len = usize::from(self.len);
        if len > 3 || bytes.len() < 16 || len == 0 && bytes[0] == b'0' {
            return None;
        }
        let found = no_digits(u8x16::from_slice(bytes));
        if found == 0 {
            return None;
        }
        let count = found.trailing_zeros() as usize;
        self.bytes[len..len + 16].copy_from_slice(&bytes[..16]);
        self.len = (len + count) as u8;
        Some(count)
    }

    /// The same, however many there are.
    #[inline(always)]
    fn push_front(&mut self, bytes: &[u8]) -> Option<usize>
        ensures { IfSome result (Pushed self.old self.new bytes.now) }
    {
        if let Some(count) = self.push_few_digits(bytes) {
            return Some(count);
        }
        self.push_digits(bytes)
    }

    /// Adds the digits in front of the text, without zeros in front of all; returns them and what follows them, or None if there
    /// is no room.
    #[inline(always)]
    pub fn take_digits<'t>(&mut self, text: &'t str) -> Option<(&'t str, &'t str)>
        ensures split { IfSome result (λ parts. SplitsDigits text.now parts.0.now parts.1.now) }
        ensures gathered { IfSome result (λ parts. Gathers self.old self.new parts.0.now) }
    {
        let count = self.push_front(text.as_bytes())?;
        Some(text.split_at(count))
    }

    /// Takes off the zeros at the end.
    #[inline(always)]
    pub(crate) fn trim_back_zeros(&mut self)
        ensures { self.new ≡ reverse (numbers.without_front_zeros (reverse self.old)) }
    {
        self.len = without_back_zeros(self.as_str()).len() as u8;
    }

    /// The digits.
    pub(crate) fn as_str(&self) -> &str
        ensures same { result.now ≡ self.now }
        ensures digits { Each is_digit result.now }
    {
        unsafe { str::from_utf8_unchecked(&self.bytes[..usize::from(self.len)]) }
    }
}
