//! Fields that are spelled as a text, by `Display` and `FromStr`: `#[serde(with = "json5_serde::text")]`.
//!
//! ```text
//! #[derive(Drop, Serialize, Deserialize)]
//! struct Server {
//!     #[serde(with = "json5_serde::text")]
//!     address: IpAddr,
//! }
//! ```
//!
//! `{ address: '127.0.0.1' }` is read, and written so.

ghost use Rattle.std.specs.Prelude.{IfOk};
ghost use Rattle.json5_serde.specs.Spelled.{ReadsSpelled};

use serde::{Deserializer, Format, Serializer};
use std::alloc::Global;
use std::fmt::{Display, InlineText};
use std::str::FromStr;

/// Sends the text that `Display` prints.
///
/// # Errors
///
/// As the serializer's.
pub fn serialize<T: Display, S: Serializer>(x: &T, out: &mut S) -> Result<(), S::Error> {
    out.collect_str(x)
}

/// Reads a string, and gives its text to `FromStr`.
///
/// # Errors
///
/// - What `FromStr` says of a text that it refuses, as far as 128 bytes, at the string.
/// - As the format's, where no string stands.
pub fn deserialize<'de, T: FromStr + Drop, F: Format>(
    alloc: Global,
    from: &mut Deserializer<'de, '_, F>,
) -> Result<T, F::Error>
where
    T::Err: Display + Drop,
    ensures { IfOk result (λ x. ReadsSpelled F.gives T.from_str_gives from.old x from.new) }
{
    let text = from.string(alloc)?;
    match T::from_str(text.as_str()) {
        Ok(x) => Ok(x),
        Err(error) => Err(from.custom(InlineText::<128>::of(error).as_str())),
    }
}
