//! What the functions below the scanner refuse with.

ghost use Rattle.std.specs.Prelude.{◌≡◌};

use json5_grammar::error_code::ErrorCode;
use std::alloc::AllocError;

/// A fault with the number of bytes that are left at its position, or that memory ran out.
#[derive(Clone, Copy)]
pub(crate) enum Refusal {
    /// A fault with a code; without a position if the input ends too early.
    TokenError {
        code: ErrorCode,
        remaining: Option<usize>,
    },
    /// A decimal run that is no literal.
    InvalidNumber(usize),
    /// A hexadecimal number after a minus past -2^127.
    TooLarge(usize),
    /// The escape of a surrogate without its other half, and the surrogate.
    UnpairedSurrogate(u16, usize),
    OutOfMemory,
}

impl From<AllocError> for Refusal {
    ghost use Rattle.json5_tokens.specs.declared.refusal.Refusal.{Refusal};

    ghost from_gives = { λ _ r. r ≡ Refusal.OutOfMemory };

    fn from(_error: AllocError) -> Refusal {
        Refusal::OutOfMemory
    }
}
