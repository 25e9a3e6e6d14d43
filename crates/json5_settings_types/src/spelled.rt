//! Values that are spelled as texts.

ghost use Rattle.std.specs.Prelude.{◌≡◌, List, ℕ, string_bytes};
ghost use Rattle.json5_de.specs.Convert.{text_of};
ghost use Rattle.json5_de.specs.ConvertLists.{if_some};
ghost use Rattle.json5_de.specs.Refinement.{refined, RefusesOwn};
ghost use Rattle.json5_ser.specs.WrittenTrees.{text};
ghost use Rattle.std.specs.Str.{chars};
ghost use Rattle.json5_settings_types.specs.Bounds.{IsOwnFault, ReadsSpelled};
ghost use Rattle.json5_settings_types.specs.Spellings.{SpellingsReadBack, if_spelled, value_and_text};

use crate::faults::fault_at;
use json5_de::{Deserialize, Deserializer, Spanned};
use json5_ser::{Serialize, Serializer};
use json5_tokens::input::Input;
use json5_types::error::{Error, Result};
use std::io::Write;

/// A value that a text spells, as a duration is by `'30s'`.
///
/// ```text
/// impl Spelled for Duration {
///     fn expected() -> &'static str {
///         "a duration such as '30s' or '1h30m'"
///     }
///
///     fn parse(text: &str) -> Option<Duration> { .. }
/// }
/// ```
pub trait Spelled: Sized + Drop {
    ghost use Rattle.std.specs.Prelude.{◌≡◌, ℕ, List, Option};
    ghost use Rattle.json5_de.specs.ConvertLists.{if_some};

    // What of a value counts.
    ghost Meaning: { Type 0 };

    ghost meaning: { Self → Meaning };

    // What a text means, by its bytes.
    ghost spells: { List ℕ → Option Meaning };

    /// What is expected where another text stands.
    fn expected() -> &'static str;

    /// The value that the text spells, if it spells one.
    fn parse(text: &str) -> Option<Self>
        ensures { if_some meaning result ≡ spells text.now };
}

/// The fault of a text that spells no value.
pub(crate) fn not_spelled<I: Input>(
    de: &Deserializer<I>,
    text: &Spanned<String>,
    expected: &str,
) -> Error
    ensures { IsOwnFault de.now.input text.now.start result }
{
    let found = text.value.as_str();
    let message = format_args!("expected {expected}, found `{found}`");
    fault_at(de, text.start, message)
}

/// Reads a text, and returns the value that it spells.
///
/// ```text
/// let timeout = read_spelled::<I, Duration>(de)?;    // `'30s'`
/// ```
///
/// # Errors
///
/// - The faults of a `String`.
/// - ``expected a duration such as '30s' or '1h30m', found `30` ``, at the quote, where the text spells no value.
pub fn read_spelled<I: Input, T: Spelled>(de: &mut Deserializer<I>) -> Result<T>
    ensures { ReadsSpelled T.meaning T.spells ⟦<Spanned<String> as Deserialize<I>>⟧.refuses de.old de.new result }
{
    let text = match Spanned::<String>::deserialize(de) {
        Ok(text) => text,
        Err(e) => return Err(e),
    };
    let Some(value) = T::parse(text.value.as_str()) else {
        return Err(not_spelled(de, &text, T::expected()));
    };
    Ok(value)
}

/// A value and the text that spells it, which is what is written of it: `AsSpelled<SocketAddr>`, read from
/// `'127.0.0.1:8080'`.
#[derive(Drop)]
pub struct AsSpelled<T> {
    /// The value. That of one that is read, or made by `new`, is what the text spells.
    pub value: T,
    /// The text that is written.
    pub text: String,
}

impl<T: Spelled> AsSpelled<T> {
    /// The value that the text spells, if it spells one, with the text.
    ///
    /// ```text
    /// let address = AsSpelled::<IpAddr>::new(String::from_str(alloc, "::1")?).unwrap();
    /// ```
    pub fn new(text: String) -> Option<Self>
        ensures { if_some (value_and_text T.meaning) result ≡ if_spelled T.spells (string_bytes text) }
    {
        let value = T::parse(text.as_str())?;
        Some(AsSpelled { value, text })
    }
}

/// A text that spells a value; another one is refused at its quote, as `read_spelled` does.
impl<I: Input, T: Spelled> Deserialize<I> for AsSpelled<T> {
    ghost Content = { T.Meaning × List ℕ };

    ghost content = { value_and_text T.meaning };

    ghost convert = { refined text_of (if_spelled T.spells) };

    ghost refuses = { RefusesOwn text_of (if_spelled T.spells) ⟦<Spanned<String> as Deserialize<I>>⟧.refuses };

    fn deserialize(de: &mut Deserializer<I>) -> Result<Self> {
        let read = match Spanned::<String>::deserialize(de) {
            Ok(read) => read,
            Err(e) => return Err(e),
        };
        let Some(value) = T::parse(read.value.as_str()) else {
            return Err(not_spelled(de, &read, T::expected()));
        };
        let text = read.value;
        Ok(AsSpelled { value, text })
    }
}

/// The text.
impl<T> Serialize for AsSpelled<T> {
    ghost tree = { λ s. text (chars (string_bytes s.text)) };

    fn serialize<W: Write + Drop>(&self, ser: &mut Serializer<W>) -> Result<()> {
        ser.serialize_str(self.text.as_str())
    }
}

/// The law of values with their texts: what is written of a text that spells a value reads back as both. The call does
/// nothing.
pub fn spellings_read_back<T: Spelled>()
    ensures { SpellingsReadBack T.spells }
{}
