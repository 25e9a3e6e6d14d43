//! Texts that are read without their unknown fields.

ghost use Rattle.std.specs.Prelude.{◌≡◌, codes, MatchResult};
ghost use Rattle.std.specs.Fn.{FnReturnsAt};
ghost use Rattle.json5_settings.specs.Known.{ReadsKnown, RefusesKnown, is_unknown_field};

use crate::remains::Remains;
use json5_types::error::{Error, Result};
use std::alloc::Global;

/// Returns what `read` gives for the text, and a warning for each unknown field that it refuses: the field is passed over.
///
/// ```text
/// let (settings, warnings) = read_known(alloc, &text, |text| json5::from_str::<Settings>(alloc, text))?;
/// for warning in &warnings {
///     println!(rt; "warning: {}", layers.report(&text, warning)?)?;
/// }
/// ```
///
/// A field that stands twice in its object is refused.
///
/// # Errors
///
/// - The first fault of reading that isn't of an unknown field.
/// - `OutOfMemory`, without a position, where a request for memory was refused.
pub fn read_known<T: Drop, F: Fn(&str) -> Result<T> + Drop>(
    alloc: Global,
    text: &str,
    read: F,
) -> Result<(T, Vec<Error>)>
    requires callable { F.IsAlwaysCallable read }
    ensures { MatchResult result (λ r. ReadsKnown (FnReturnsAt F.Fn read) text.now r.0 r.1.items) (RefusesKnown (FnReturnsAt F.Fn read) text.now) }
{
    let mut remains = Remains::of(alloc, text)?;
    for _ in 0..text.len() {
        let fault = match read(remains.text.as_str()) {
            Ok(value) => return Ok((value, remains.told)),
            Err(fault) => fault,
        };
        let told = fault.clone(alloc)?;
        if !is_of_unknown_field(&told) || !remains.pass(alloc, fault)? {
            return Err(told);
        }
    }
    let value = read(remains.text.as_str())?;
    Ok((value, remains.told))
}

/// Whether the fault is of an unknown field.
fn is_of_unknown_field(fault: &Error) -> bool
    ensures { result ≡ is_unknown_field fault.now }
{
    fault.message().as_bytes().starts_with(b"unknown field `")
}
