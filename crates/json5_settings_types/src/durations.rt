//! Durations: `'30s'`, `'1h30m'`.

ghost use Rattle.std.specs.Prelude.{◌≡◌, ◌↔◌, ◌/◌, ◌<◌, ◌^◌, ℕ, List, Some};
ghost use Rattle.std.specs.Str.{chars};
ghost use Rattle.json5_de.specs.Convert.{text_of};
ghost use Rattle.json5_de.specs.Refinement.{refined, RefusesOwn};
ghost use Rattle.json5_ser.specs.EscapeFreeMarks.{marks};
ghost use Rattle.json5_ser.specs.WrittenTrees.{text};
ghost use Rattle.json5_settings_types.specs.Durations.{IsDuration, duration_of, duration_text};

use crate::spelled::{Spelled, read_spelled};
use crate::sums::{parts_of, sum_of_parts};
use crate::units::Unit;
use arrayvec::ArrayString;
use json5_de::{Deserialize, Deserializer, Spanned};
use json5_ser::{Serialize, Serializer};
use json5_tokens::input::Input;
use json5_types::error::Result;
use std::fmt;
use std::io::Write;

/// The units, by their nanoseconds.
const UNITS: [Unit<'static>; 7] = [
    Unit {
        name: "d",
        size: 86_400_000_000_000,
    },
    Unit {
        name: "h",
        size: 3_600_000_000_000,
    },
    Unit {
        name: "m",
        size: 60_000_000_000,
    },
    Unit {
        name: "s",
        size: 1_000_000_000,
    },
    Unit {
        name: "ms",
        size: 1_000_000,
    },
    Unit {
        name: "us",
        size: 1_000,
    },
    Unit {
        name: "ns",
        size: 1,
    },
];

/// A length of time: `'30s'`, `'1h30m'`, `'1s500ms'`. The units are `d`, `h`, `m`, `s`, `ms`, `us` and `ns`; they stand in
/// this order, each at most once.
#[derive(Clone, Copy, Debug, PartialEq, Eq, PartialOrd, Ord, Hash)]
pub struct Duration {
    /// Its nanoseconds, which reach for 584 years.
    pub nanoseconds: u64,
}

impl Duration {
    /// The whole seconds.
    ///
    /// ```text
    /// let seconds = timeout.as_secs();    // 5400 of `'1h30m'`
    /// ```
    pub fn as_secs(self) -> u64
        ensures { result ≡ self.nanoseconds / 1000000000 }
    {
        self.nanoseconds / 1_000_000_000
    }

    /// The whole milliseconds.
    ///
    /// ```text
    /// let milliseconds = timeout.as_millis();    // 1500 of `'1s500ms'`
    /// ```
    pub fn as_millis(self) -> u64
        ensures { result ≡ self.nanoseconds / 1000000 }
    {
        self.nanoseconds / 1_000_000
    }

    /// The text of the duration, the greatest units first.
    pub(crate) fn written(self) -> ArrayString<192>
        ensures { result.bytes ≡ duration_text self.nanoseconds }
    {
        if self.nanoseconds == 0 {
            let mut text = ArrayString::new();
            text.push_str("0s");
            return text;
        }
        parts_of(self.nanoseconds, &UNITS)
    }
}

/// The nanoseconds of a text.
fn nanoseconds_of(text: &str) -> Option<u64>
    ensures { result ≡ duration_of text.now }
{
    if text.is_empty() {
        return None;
    }
    sum_of_parts(text, &UNITS)
}

impl Spelled for Duration {
    ghost Meaning = { ℕ };

    ghost meaning = { λ d. d.nanoseconds };

    ghost spells = { duration_of };

    fn expected() -> &'static str {
        "a duration such as '30s' or '1h30m'"
    }

    fn parse(text: &str) -> Option<Duration> {
        let nanoseconds = nanoseconds_of(text)?;
        Some(Duration { nanoseconds })
    }
}

/// What is written of it, without quotes.
impl fmt::Display for Duration {
    ghost output = { λ d. Some (duration_text d.nanoseconds) };

    fn fmt<W: fmt::Write>(&self, f: &mut fmt::Formatter<W>) -> fmt::Result {
        let text = self.written();
        f.write_str(text.as_str())
    }
}

/// A text that is a duration; another one is refused at its quote.
impl<I: Input> Deserialize<I> for Duration {
    ghost Content = { ℕ };

    ghost content = { λ d. d.nanoseconds };

    ghost convert = { refined text_of duration_of };

    ghost refuses = { RefusesOwn text_of duration_of ⟦<Spanned<String> as Deserialize<I>>⟧.refuses };

    fn deserialize(de: &mut Deserializer<I>) -> Result<Duration> {
        read_spelled(de)
    }
}

/// The greatest units first: `'1h30m'`.
impl Serialize for Duration {
    ghost tree = { λ d. text (chars (duration_text d.nanoseconds)) };

    fn serialize<W: Write + Drop>(&self, ser: &mut Serializer<W>) -> Result<()> {
        let text = self.written();
        ser.serialize_str(text.as_str())
    }
}

/// The law of durations: which texts are read, and that what is written reads back. The call does nothing.
pub fn durations_read_back()
    ensures texts { (t : List ℕ) (n : ℕ) → duration_of t ≡ Some n ↔ IsDuration t n }
    ensures back { (n : ℕ) → n < 2 ^ 64 → refined text_of duration_of (marks (text (chars (duration_text n)))) ≡ Some n }
{}
