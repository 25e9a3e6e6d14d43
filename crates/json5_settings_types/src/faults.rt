//! Faults of values that aren't taken.

ghost use Rattle.json5_settings_types.specs.Bounds.{IsOwnFault};

use json5_de::Deserializer;
use json5_tokens::input::Input;
use json5_types::error::Error;
use std::fmt;

/// A fault with this message at the offset.
#[cold]
pub(crate) fn fault_at<I: Input, D: fmt::Display + Drop>(
    de: &Deserializer<I>,
    offset: usize,
    message: D,
) -> Error
    ensures { IsOwnFault de.now.input offset result }
{
    let place = de.position_of(offset);
    match Error::custom_at(de.allocator(), place, message) {
        Ok(error) => error,
        Err(error) => error,
    }
}
