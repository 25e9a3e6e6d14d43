//! The text of a value as it stands, for types that read it themselves.

use serde::{Deserializer, Format, Name};

/// The name by which the text of the next value is asked for: no variant has it.
pub(crate) const RAW_TEXT: &str = "\0json5 text";

/// Returns the text of the next value as it stands, which it passes over: a field's type may read it itself. Only the
/// format of this crate knows this step, and another refuses it.
///
/// ```text
/// let text = json5_serde::raw_text(from)?;      // 0x1F of `{mask: 0x1F}`, at the value
/// ```
///
/// # Errors
///
/// As the format's: the value is no value of a document, or it is nested too deep.
pub fn raw_text<'de, F: Format>(from: &mut Deserializer<'de, '_, F>) -> Result<&'de str, F::Error> {
    from.variant(&[Name::exact(RAW_TEXT)])?;
    let bytes = from.borrowed_bytes()?;
    match std::str::from_utf8(bytes) {
        Ok(text) => Ok(text),
        Err(_) => Err(from.invalid()),
    }
}

/// Whether these names ask for the text of the next value.
pub(crate) fn is_raw_text(names: &[Name<'_>]) -> bool {
    match names {
        [only] => only.name == RAW_TEXT,
        _ => false,
    }
}
