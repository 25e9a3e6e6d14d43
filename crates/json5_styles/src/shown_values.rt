//! A value that prints as its text.
//!
//! ```text
//! println!(rt; "{}", shown(&settings))?;
//! ```

ghost use Rattle.std.specs.Prelude.{◌≡◌};

use crate::sink::Sink;
use json5_types::nesting::Limit;
use json5_types::value::Value;
use json5_write::Printer;
use json5_write::refusal::Refused;
use json5_write::value::put_value;
use std::fmt;

/// A value that prints as its text. [`shown`] makes it.
#[derive(Clone, Copy)]
pub struct ShownValue<'v> {
    /// The value.
    pub value: &'v Value,
}

/// Returns what prints as the value's text, that of [`to_string`](json5_write::to_string), and takes no memory for it.
///
/// ```text
/// println!(rt; "{}", shown(&settings))?;
/// ```
pub fn shown(value: &Value) -> ShownValue<'_>
    ensures { result.value.now ≡ value.now }
{
    ShownValue { value }
}

/// Prints the value's text. Where more than 128 brackets are open at once, it prints the text up to the bracket past them.
impl fmt::Display for ShownValue<'_> {
    fn fmt<W: fmt::Write>(&self, f: &mut fmt::Formatter<W>) -> fmt::Result {
        let mut printer = Printer::within(Sink { out: f }, Limit::full());
        match put_value(self.value, &mut printer) {
            Ok(()) => Ok(()),
            Err(Refused::TooDeep) => Ok(()),
            Err(_) => Err(fmt::Error),
        }
    }
}
