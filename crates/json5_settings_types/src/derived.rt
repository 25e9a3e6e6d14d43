//! The types as fields of derived structs: `serde` reads and writes them.
//!
//! ```text
//! #[derive(Drop, Serialize, Deserialize)]
//! struct Settings { timeout: Duration, port: Within<1024, 65535>, hosts: NotEmpty<String> }
//! ```
//!
//! # Errors
//!
//! - As the format's, where no text, number or list stands.
//! - What json5 says of one that isn't taken, by `custom`: `expected a number from 1024 to 65535, found 80`. Where it has
//!   what was found, it is cut at 128 bytes.

ghost use Rattle.std.specs.Prelude.{IfOk, string_bytes};
ghost use Rattle.serde.specs.Event.{Logs, WritesSeq, signed, text};
ghost use Rattle.json5_settings_types.specs.Derived.{IsNumberWithin, MeansText, given};
ghost use Rattle.json5_settings_types.specs.Durations.{duration_of, duration_text};
ghost use Rattle.json5_settings_types.specs.Paths.{if_path, path_bytes};
ghost use Rattle.json5_settings_types.specs.Sizes.{size_of, size_text};
ghost use Rattle.json5_settings_types.specs.Spellings.{if_spelled, value_and_text};
ghost use Rattle.json5_settings_types.specs.Urls.{url_of};

use crate::durations::Duration;
use crate::not_empty::{EMPTY, NotEmpty};
use crate::paths::{FilePath, NO_PATH};
use crate::sizes::Size;
use crate::spelled::{AsSpelled, Spelled};
use crate::urls::{EXPECTED, url_in};
use crate::within::Within;
use serde::{
    Described, Deserialize, DeserializeOwned, Deserializer, Format, Serialize, Serializer,
};
use std::alloc::Global;
use std::fmt::InlineText;
use url::Url;

/// The fault of a text that spells no value, cut at 128 bytes.
#[cold]
fn not_spelled<F: Format>(from: &Deserializer<'_, '_, F>, expected: &str, found: &str) -> F::Error {
    let message = InlineText::<128>::of(format_args!("expected {expected}, found `{found}`"));
    from.custom(message.as_str())
}

/// Reads a text, and returns the value that it spells.
fn spelled<T: Spelled, F: Format>(
    alloc: Global,
    from: &mut Deserializer<'_, '_, F>,
) -> Result<T, F::Error>
    ensures { IfOk result (λ v. MeansText (given F.gives from.old from.new) T.spells (T.meaning v)) }
{
    let text = from.string(alloc)?;
    match T::parse(text.as_str()) {
        Some(value) => Ok(value),
        None => Err(not_spelled(from, T::expected(), text.as_str())),
    }
}

/// Reads a text that spells a value, and returns both.
fn with_text<T: Spelled, F: Format>(
    alloc: Global,
    from: &mut Deserializer<'_, '_, F>,
) -> Result<AsSpelled<T>, F::Error>
    ensures { IfOk result (λ s. MeansText (given F.gives from.old from.new) (if_spelled T.spells) (value_and_text T.meaning s)) }
{
    let text = from.string(alloc)?;
    match T::parse(text.as_str()) {
        Some(value) => Ok(AsSpelled { value, text }),
        None => Err(not_spelled(from, T::expected(), text.as_str())),
    }
}

/// Reads a URL, and returns its text too.
fn url_with_text<F: Format>(
    alloc: Global,
    from: &mut Deserializer<'_, '_, F>,
) -> Result<AsSpelled<Url>, F::Error>
    ensures { IfOk result (λ s. MeansText (given F.gives from.old from.new) (if_spelled url_of) (value_and_text (λ url. url) s)) }
{
    let text = from.string(alloc)?;
    match url_in(alloc, text.as_str()) {
        Ok(Some(value)) => Ok(AsSpelled { value, text }),
        Ok(None) => Err(not_spelled(from, EXPECTED, text.as_str())),
        Err(_) => Err(from.no_memory()),
    }
}

/// Reads the path of a file.
fn path<F: Format>(alloc: Global, from: &mut Deserializer<'_, '_, F>) -> Result<FilePath, F::Error>
    ensures { IfOk result (λ p. MeansText (given F.gives from.old from.new) if_path (path_bytes p)) }
{
    match FilePath::new(from.string(alloc)?) {
        Some(path) => Ok(path),
        None => Err(from.custom(NO_PATH)),
    }
}

/// Reads a number within the bounds.
fn within<F: Format, const LOW: i64, const HIGH: i64>(
    from: &mut Deserializer<'_, '_, F>,
) -> Result<Within<LOW, HIGH>, F::Error>
    ensures { IfOk result (λ w. IsNumberWithin (given F.gives from.old from.new) LOW HIGH w.number) }
{
    let found = from.i64()?;
    match Within::new(found) {
        Some(within) => Ok(within),
        None => {
            let message = format_args!("expected a number from {LOW} to {HIGH}, found {found}");
            Err(from.custom(InlineText::<128>::of(message).as_str()))
        }
    }
}

/// What it says of a value that it is read, whatever holds the input.
trait FromFormat {
    ghost use Rattle.serde.specs.Event.{Event};

    // The value, from what the format gave.
    ghost reads: { (Event → Type 0) → Self → Type 0 };
}

impl FromFormat for Duration {
    ghost reads = { λ gave d. MeansText gave duration_of d.nanoseconds };
}

/// A text that is a duration.
impl<'de> Deserialize<'de> for Duration {
    fn deserialize<F: Format>(
        alloc: Global,
        from: &mut Deserializer<'de, '_, F>,
    ) -> Result<Self, F::Error>
        ensures { IfOk result (⟦<Self as FromFormat>⟧.reads (given F.gives from.old from.new)) }
    {
        spelled(alloc, from)
    }
}

impl DeserializeOwned for Duration {
    fn deserialize_owned<F: Format>(
        alloc: Global,
        from: &mut Deserializer<'_, '_, F>,
    ) -> Result<Self, F::Error>
        ensures { IfOk result (⟦<Self as FromFormat>⟧.reads (given F.gives from.old from.new)) }
    {
        spelled(alloc, from)
    }
}

impl Described for Duration {
    ghost writes = { λ d old new. Logs old new (text (duration_text d.nanoseconds)) };
}

/// The greatest units first.
impl Serialize for Duration {
    fn serialize<S: Serializer>(&self, out: &mut S) -> Result<(), S::Error> {
        let text = self.written();
        out.str(text.as_str())
    }
}

impl FromFormat for Size {
    ghost reads = { λ gave s. MeansText gave size_of s.bytes };
}

/// A text that is a size.
impl<'de> Deserialize<'de> for Size {
    fn deserialize<F: Format>(
        alloc: Global,
        from: &mut Deserializer<'de, '_, F>,
    ) -> Result<Self, F::Error>
        ensures { IfOk result (⟦<Self as FromFormat>⟧.reads (given F.gives from.old from.new)) }
    {
        spelled(alloc, from)
    }
}

impl DeserializeOwned for Size {
    fn deserialize_owned<F: Format>(
        alloc: Global,
        from: &mut Deserializer<'_, '_, F>,
    ) -> Result<Self, F::Error>
        ensures { IfOk result (⟦<Self as FromFormat>⟧.reads (given F.gives from.old from.new)) }
    {
        spelled(alloc, from)
    }
}

impl Described for Size {
    ghost writes = { λ s old new. Logs old new (text (size_text s.bytes)) };
}

/// In the greatest unit of which it is a whole number.
impl Serialize for Size {
    fn serialize<S: Serializer>(&self, out: &mut S) -> Result<(), S::Error> {
        let text = self.written();
        out.str(text.as_str())
    }
}

impl<T: Spelled> FromFormat for AsSpelled<T> {
    ghost reads = { λ gave s. MeansText gave (if_spelled T.spells) (value_and_text T.meaning s) };
}

/// A text that spells a value.
impl<'de, T: Spelled> Deserialize<'de> for AsSpelled<T> {
    fn deserialize<F: Format>(
        alloc: Global,
        from: &mut Deserializer<'de, '_, F>,
    ) -> Result<Self, F::Error>
        ensures { IfOk result (⟦<Self as FromFormat>⟧.reads (given F.gives from.old from.new)) }
    {
        with_text(alloc, from)
    }
}

impl<T: Spelled> DeserializeOwned for AsSpelled<T> {
    fn deserialize_owned<F: Format>(
        alloc: Global,
        from: &mut Deserializer<'_, '_, F>,
    ) -> Result<Self, F::Error>
        ensures { IfOk result (⟦<Self as FromFormat>⟧.reads (given F.gives from.old from.new)) }
    {
        with_text(alloc, from)
    }
}

impl FromFormat for AsSpelled<Url> {
    ghost reads = { λ gave s. MeansText gave (if_spelled url_of) (value_and_text (λ url. url) s) };
}

/// A text that is a URL.
impl<'de> Deserialize<'de> for AsSpelled<Url> {
    fn deserialize<F: Format>(
        alloc: Global,
        from: &mut Deserializer<'de, '_, F>,
    ) -> Result<Self, F::Error>
        ensures { IfOk result (⟦<Self as FromFormat>⟧.reads (given F.gives from.old from.new)) }
    {
        url_with_text(alloc, from)
    }
}

impl DeserializeOwned for AsSpelled<Url> {
    fn deserialize_owned<F: Format>(
        alloc: Global,
        from: &mut Deserializer<'_, '_, F>,
    ) -> Result<Self, F::Error>
        ensures { IfOk result (⟦<Self as FromFormat>⟧.reads (given F.gives from.old from.new)) }
    {
        url_with_text(alloc, from)
    }
}

impl<T> Described for AsSpelled<T> {
    ghost writes = { λ s old new. Logs old new (text (string_bytes s.text)) };
}

/// The text.
impl<T> Serialize for AsSpelled<T> {
    fn serialize<S: Serializer>(&self, out: &mut S) -> Result<(), S::Error> {
        out.str(self.text.as_str())
    }
}

impl FromFormat for FilePath {
    ghost reads = { λ gave p. MeansText gave if_path (path_bytes p) };
}

/// A text that may be a path.
impl<'de> Deserialize<'de> for FilePath {
    fn deserialize<F: Format>(
        alloc: Global,
        from: &mut Deserializer<'de, '_, F>,
    ) -> Result<Self, F::Error>
        ensures { IfOk result (⟦<Self as FromFormat>⟧.reads (given F.gives from.old from.new)) }
    {
        path(alloc, from)
    }
}

impl DeserializeOwned for FilePath {
    fn deserialize_owned<F: Format>(
        alloc: Global,
        from: &mut Deserializer<'_, '_, F>,
    ) -> Result<Self, F::Error>
        ensures { IfOk result (⟦<Self as FromFormat>⟧.reads (given F.gives from.old from.new)) }
    {
        path(alloc, from)
    }
}

impl Described for FilePath {
    ghost writes = { λ p old new. Logs old new (text (path_bytes p)) };
}

/// The text.
impl Serialize for FilePath {
    fn serialize<S: Serializer>(&self, out: &mut S) -> Result<(), S::Error> {
        out.str(self.text.as_str())
    }
}

impl<const LOW: i64, const HIGH: i64> FromFormat for Within<LOW, HIGH> {
    ghost reads = { λ gave w. IsNumberWithin gave LOW HIGH w.number };
}

/// A number within the bounds.
impl<'de, const LOW: i64, const HIGH: i64> Deserialize<'de> for Within<LOW, HIGH> {
    fn deserialize<F: Format>(
        _alloc: Global,
        from: &mut Deserializer<'de, '_, F>,
    ) -> Result<Self, F::Error>
        ensures { IfOk result (⟦<Self as FromFormat>⟧.reads (given F.gives from.old from.new)) }
    {
        within(from)
    }
}

impl<const LOW: i64, const HIGH: i64> DeserializeOwned for Within<LOW, HIGH> {
    fn deserialize_owned<F: Format>(
        _alloc: Global,
        from: &mut Deserializer<'_, '_, F>,
    ) -> Result<Self, F::Error>
        ensures { IfOk result (⟦<Self as FromFormat>⟧.reads (given F.gives from.old from.new)) }
    {
        within(from)
    }
}

impl<const LOW: i64, const HIGH: i64> Described for Within<LOW, HIGH> {
    ghost writes = { λ w old new. Logs old new (signed w.number) };
}

/// The number.
impl<const LOW: i64, const HIGH: i64> Serialize for Within<LOW, HIGH> {
    fn serialize<S: Serializer>(&self, out: &mut S) -> Result<(), S::Error> {
        out.i64(self.number)
    }
}

/// A list that isn't empty.
impl<'de, T: Deserialize<'de>> Deserialize<'de> for NotEmpty<T> {
    fn deserialize<F: Format>(
        alloc: Global,
        from: &mut Deserializer<'de, '_, F>,
    ) -> Result<Self, F::Error> {
        match NotEmpty::new(Vec::<T>::deserialize(alloc, from)?) {
            Some(list) => Ok(list),
            None => Err(from.custom(EMPTY)),
        }
    }
}

impl<T: DeserializeOwned> DeserializeOwned for NotEmpty<T> {
    fn deserialize_owned<F: Format>(
        alloc: Global,
        from: &mut Deserializer<'_, '_, F>,
    ) -> Result<Self, F::Error> {
        match NotEmpty::new(Vec::<T>::deserialize_owned(alloc, from)?) {
            Some(list) => Ok(list),
            None => Err(from.custom(EMPTY)),
        }
    }
}

impl<T: Described> Described for NotEmpty<T> {
    ghost writes = { λ n. WritesSeq T.writes n.values.items };
}

/// The elements.
impl<T: Serialize> Serialize for NotEmpty<T> {
    fn serialize<S: Serializer>(&self, out: &mut S) -> Result<(), S::Error> {
        self.values.serialize(out)
    }
}
