//! Sizes: `'10MB'`, `'1GiB'`.

ghost use Rattle.std.specs.Prelude.{◌≡◌, ◌↔◌, ◌<◌, ◌^◌, ℕ, List, Some};
ghost use Rattle.std.specs.Str.{chars};
ghost use Rattle.json5_de.specs.Convert.{text_of};
ghost use Rattle.json5_de.specs.Refinement.{refined, RefusesOwn};
ghost use Rattle.json5_ser.specs.EscapeFreeMarks.{marks};
ghost use Rattle.json5_ser.specs.WrittenTrees.{text};
ghost use Rattle.json5_settings_types.specs.Sizes.{IsSize, size_of, size_text};

use crate::spelled::{Spelled, read_spelled};
use crate::sums::{amount, in_one_unit};
use crate::units::Unit;
use arrayvec::ArrayString;
use json5_de::{Deserialize, Deserializer, Spanned};
use json5_ser::{Serialize, Serializer};
use json5_tokens::input::Input;
use json5_types::error::Result;
use std::fmt;
use std::io::Write;

/// The units, by their bytes.
const UNITS: [Unit<'static>; 12] = [
    Unit {
        name: "PiB",
        size: 1_125_899_906_842_624,
    },
    Unit {
        name: "PB",
        size: 1_000_000_000_000_000,
    },
    Unit {
        name: "TiB",
        size: 1_099_511_627_776,
    },
    Unit {
        name: "TB",
        size: 1_000_000_000_000,
    },
    Unit {
        name: "GiB",
        size: 1_073_741_824,
    },
    Unit {
        name: "GB",
        size: 1_000_000_000,
    },
    Unit {
        name: "MiB",
        size: 1_048_576,
    },
    Unit {
        name: "MB",
        size: 1_000_000,
    },
    Unit {
        name: "KiB",
        size: 1_024,
    },
    Unit {
        name: "kB",
        size: 1_000,
    },
    Unit {
        name: "KB",
        size: 1_000,
    },
    Unit { name: "B", size: 1 },
];

/// A count of bytes: `'10MB'`, `'1GiB'`. The units are `B`, `kB` or `KB`, `MB`, `GB`, `TB` and `PB` by thousands, and `KiB`,
/// `MiB`, `GiB`, `TiB` and `PiB` by 1024.
#[derive(Clone, Copy, Debug, PartialEq, Eq, PartialOrd, Ord, Hash)]
pub struct Size {
    /// Its bytes.
    pub bytes: u64,
}

impl Size {
    /// The text of the size, in the greatest unit of which it is a whole number.
    pub(crate) fn written(self) -> ArrayString<192>
        ensures { result.bytes ≡ size_text self.bytes }
    {
        if self.bytes == 0 {
            let mut text = ArrayString::new();
            text.push_str("0B");
            return text;
        }
        in_one_unit(self.bytes, &UNITS)
    }
}

/// The bytes that a text means.
fn bytes_of(text: &str) -> Option<u64>
    ensures { result ≡ size_of text.now }
{
    if text.is_empty() {
        return None;
    }
    amount(text, &UNITS)
}

impl Spelled for Size {
    ghost Meaning = { ℕ };

    ghost meaning = { λ s. s.bytes };

    ghost spells = { size_of };

    fn expected() -> &'static str {
        "a size such as '10MB' or '1GiB'"
    }

    fn parse(text: &str) -> Option<Size> {
        let bytes = bytes_of(text)?;
        Some(Size { bytes })
    }
}

/// What is written of it, without quotes.
impl fmt::Display for Size {
    ghost output = { λ s. Some (size_text s.bytes) };

    fn fmt<W: fmt::Write>(&self, f: &mut fmt::Formatter<W>) -> fmt::Result {
        let text = self.written();
        f.write_str(text.as_str())
    }
}

/// A text that is a size; another one is refused at its quote.
impl<I: Input> Deserialize<I> for Size {
    ghost Content = { ℕ };

    ghost content = { λ s. s.bytes };

    ghost convert = { refined text_of size_of };

    ghost refuses = { RefusesOwn text_of size_of ⟦<Spanned<String> as Deserialize<I>>⟧.refuses };

    fn deserialize(de: &mut Deserializer<I>) -> Result<Size> {
        read_spelled(de)
    }
}

/// In the greatest unit of which it is a whole number: `'10MB'`.
impl Serialize for Size {
    ghost tree = { λ s. text (chars (size_text s.bytes)) };

    fn serialize<W: Write + Drop>(&self, ser: &mut Serializer<W>) -> Result<()> {
        let text = self.written();
        ser.serialize_str(text.as_str())
    }
}

/// The law of sizes: which texts are read, and that what is written reads back. The call does nothing.
pub fn sizes_read_back()
    ensures texts { (t : List ℕ) (n : ℕ) → size_of t ≡ Some n ↔ IsSize t n }
    ensures back { (n : ℕ) → n < 2 ^ 64 → refined text_of size_of (marks (text (chars (size_text n)))) ≡ Some n }
{}
