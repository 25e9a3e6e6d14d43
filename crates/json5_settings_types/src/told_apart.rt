//! Types whose values are told apart by what counts of them.

ghost use Rattle.std.specs.Prelude.{◌^◌, ℕ, ℤ, List, nat_eq, string_bytes};
ghost use Rattle.std.specs.Ordering.{int_eq};
ghost use Rattle.std.specs.Str.{bytes_eq};
ghost use Rattle.std.proofs.Common.{refl};
ghost use Rattle.json5_de.specs.Convert.{signed_below, text_of, unsigned_below};
ghost use Rattle.json5_de.specs.Refinement.{refined};
ghost use Rattle.json5_settings_types.specs.Bounds.{if_within};
ghost use Rattle.json5_settings_types.specs.Durations.{duration_of};
ghost use Rattle.json5_settings_types.specs.Sizes.{size_of};

use crate::durations::Duration;
use crate::sizes::Size;
use crate::unique::TellsApart;
use crate::within::Within;
use json5_tokens::input::Input;

impl<I: Input> TellsApart<I> for String {
    ghost Meaning = { List ℕ };

    ghost meaning = { string_bytes };

    ghost means = { text_of };

    ghost same = { bytes_eq };

    ghost tells = { λ x y. refl };

    ghost reads = { λ t v is. is };

    ghost is_read = { λ t m is. (m, is) };

    fn expected() -> &'static str {
        "texts that differ"
    }
}

impl<I: Input> TellsApart<I> for u8 {
    ghost Meaning = { ℕ };

    ghost meaning = { λ n. n };

    ghost means = { unsigned_below (2 ^ 8) };

    ghost same = { nat_eq };

    ghost tells = { λ x y. refl };

    ghost reads = { λ t v is. is };

    ghost is_read = { λ t m is. (m, is) };

    fn expected() -> &'static str {
        "numbers that differ"
    }
}

impl<I: Input> TellsApart<I> for u16 {
    ghost Meaning = { ℕ };

    ghost meaning = { λ n. n };

    ghost means = { unsigned_below (2 ^ 16) };

    ghost same = { nat_eq };

    ghost tells = { λ x y. refl };

    ghost reads = { λ t v is. is };

    ghost is_read = { λ t m is. (m, is) };

    fn expected() -> &'static str {
        "numbers that differ"
    }
}

impl<I: Input> TellsApart<I> for u32 {
    ghost Meaning = { ℕ };

    ghost meaning = { λ n. n };

    ghost means = { unsigned_below (2 ^ 32) };

    ghost same = { nat_eq };

    ghost tells = { λ x y. refl };

    ghost reads = { λ t v is. is };

    ghost is_read = { λ t m is. (m, is) };

    fn expected() -> &'static str {
        "numbers that differ"
    }
}

impl<I: Input> TellsApart<I> for u64 {
    ghost Meaning = { ℕ };

    ghost meaning = { λ n. n };

    ghost means = { unsigned_below (2 ^ 64) };

    ghost same = { nat_eq };

    ghost tells = { λ x y. refl };

    ghost reads = { λ t v is. is };

    ghost is_read = { λ t m is. (m, is) };

    fn expected() -> &'static str {
        "numbers that differ"
    }
}

impl<I: Input> TellsApart<I> for i8 {
    ghost Meaning = { ℤ };

    ghost meaning = { λ n. n };

    ghost means = { signed_below (2 ^ 7) };

    ghost same = { int_eq };

    ghost tells = { λ x y. refl };

    ghost reads = { λ t v is. is };

    ghost is_read = { λ t m is. (m, is) };

    fn expected() -> &'static str {
        "numbers that differ"
    }
}

impl<I: Input> TellsApart<I> for i16 {
    ghost Meaning = { ℤ };

    ghost meaning = { λ n. n };

    ghost means = { signed_below (2 ^ 15) };

    ghost same = { int_eq };

    ghost tells = { λ x y. refl };

    ghost reads = { λ t v is. is };

    ghost is_read = { λ t m is. (m, is) };

    fn expected() -> &'static str {
        "numbers that differ"
    }
}

impl<I: Input> TellsApart<I> for i32 {
    ghost Meaning = { ℤ };

    ghost meaning = { λ n. n };

    ghost means = { signed_below (2 ^ 31) };

    ghost same = { int_eq };

    ghost tells = { λ x y. refl };

    ghost reads = { λ t v is. is };

    ghost is_read = { λ t m is. (m, is) };

    fn expected() -> &'static str {
        "numbers that differ"
    }
}

impl<I: Input> TellsApart<I> for i64 {
    ghost Meaning = { ℤ };

    ghost meaning = { λ n. n };

    ghost means = { signed_below (2 ^ 63) };

    ghost same = { int_eq };

    ghost tells = { λ x y. refl };

    ghost reads = { λ t v is. is };

    ghost is_read = { λ t m is. (m, is) };

    fn expected() -> &'static str {
        "numbers that differ"
    }
}

impl<I: Input, const LOW: i64, const HIGH: i64> TellsApart<I> for Within<LOW, HIGH> {
    ghost Meaning = { ℤ };

    ghost meaning = { λ w. w.number };

    ghost means = { refined (signed_below (2 ^ 63)) (if_within LOW HIGH) };

    ghost same = { int_eq };

    ghost tells = { λ x y. refl };

    ghost reads = { λ t v is. is };

    ghost is_read = { λ t m is. (m, is) };

    fn expected() -> &'static str {
        "numbers that differ"
    }
}

impl<I: Input> TellsApart<I> for Duration {
    ghost Meaning = { ℕ };

    ghost meaning = { λ d. d.nanoseconds };

    ghost means = { refined text_of duration_of };

    ghost same = { nat_eq };

    ghost tells = { λ x y. refl };

    ghost reads = { λ t v is. is };

    ghost is_read = { λ t m is. (m, is) };

    fn expected() -> &'static str {
        "durations that differ"
    }
}

impl<I: Input> TellsApart<I> for Size {
    ghost Meaning = { ℕ };

    ghost meaning = { λ s. s.bytes };

    ghost means = { refined text_of size_of };

    ghost same = { nat_eq };

    ghost tells = { λ x y. refl };

    ghost reads = { λ t v is. is };

    ghost is_read = { λ t m is. (m, is) };

    fn expected() -> &'static str {
        "sizes that differ"
    }
}
