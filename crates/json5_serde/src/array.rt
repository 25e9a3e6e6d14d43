//! Fields that are arrays, read element by element: `#[serde(with = "json5_serde::array")]`.
//!
//! ```text
//! #[derive(Drop, Serialize, Deserialize)]
//! struct Range {
//!     #[serde(with = "json5_serde::array")]
//!     ends: [u16; 2],
//! }
//! ```
//!
//! The first element too many is refused where it stands. Without the attribute the kit's `serde` reads a whole list, and then
//! refuses its length.

use serde::{Deserialize, Deserializer, Format, Serialize, Serializer};
use std::alloc::Global;

/// Sends the elements.
///
/// # Errors
///
/// As the serializer's.
pub fn serialize<T: Serialize, S: Serializer, const N: usize>(
    x: &[T; N],
    out: &mut S,
) -> Result<(), S::Error> {
    x.serialize(out)
}

/// Reads as many elements as the array has, and the closing bracket.
///
/// # Errors
///
/// - `invalid length` at the bracket where there are too few.
/// - `ExpectedClosingBracket` at the first one too many.
/// - As the elements'.
pub fn deserialize<'de, T: Deserialize<'de>, F: Format, const N: usize>(
    alloc: Global,
    from: &mut Deserializer<'de, '_, F>,
) -> Result<[T; N], F::Error> {
    from.begin_seq()?;
    let mut items = Vec::new(alloc);
    for _ in 0..N {
        from.expect_item()?;
        let item = T::deserialize(alloc, from)?;
        if items.push(item).is_err() {
            return Err(from.no_memory());
        }
    }
    from.expect_end()?;
    match <[T; N]>::try_from(items) {
        Ok(array) => Ok(array),
        Err(_) => Err(from.wrong_len()),
    }
}
