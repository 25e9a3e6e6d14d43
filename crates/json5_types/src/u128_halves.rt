//! Numbers of 128 bits in two halves, which lie at every eighth byte.

ghost use Rattle.std.specs.Prelude.{◌≡◌};

use std::fmt;
use std::marker::Model;

const HALF: u128 = 1 << 64;

/// A number of 128 bits. It makes a struct smaller than a `u128` does, which is aligned to 16 bytes.
#[derive(Clone, Copy, PartialEq, Eq, Hash)]
pub(crate) struct Wide {
    high: u64,
    low: u64,
}

impl Model for Wide {
    ghost use Rattle.std.specs.Prelude.{ℕ, ◌+◌, ◌*◌, ◌/◌, ◌%◌, ◌^◌, ◌<◌};
    ghost use Rattle.std.proofs.lemmas.Nat.{div-mul-add, mod-mul-add};

    ghost Value = { ℕ };

    ghost view = { λ w. w.high * 2 ^ 64 + w.low };

    ghost invariant = { λ w. w.low < 2 ^ 64 };

    ghost inverse = { λ n. record { high = n / 2 ^ 64; low = n % 2 ^ 64 } };

    ghost inverse_ok = { λ w h i. record {
      high = div-mul-add w.high (2 ^ 64) w.low h i;
      low = mod-mul-add w.high (2 ^ 64) w.low h i;
    } };
}

impl Wide {
    /// This number.
    pub(crate) fn new(number: u128) -> Wide
        ensures { result ≡ number }
    {
        Wide {
            high: (number / HALF) as u64,
            low: (number % HALF) as u64,
        }
    }

    /// The number.
    pub(crate) fn get(self) -> u128
        ensures { result ≡ self }
    {
        u128::from(self.high) * HALF + u128::from(self.low)
    }
}

impl fmt::Debug for Wide {
    fn fmt<W: fmt::Write>(&self, f: &mut fmt::Formatter<W>) -> fmt::Result {
        fmt::Debug::fmt(&self.get(), f)
    }
}
