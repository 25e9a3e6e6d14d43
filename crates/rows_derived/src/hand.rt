//! Impls by hand, which call the steps of a format in an order of their own.

use json5_serde_write::raw_number;
use serde::{Described, Deserialize, Deserializer, Format, Name, Serialize, Serializer};
use std::alloc::Global;

/// Passes over any value.
#[derive(Drop)]
pub struct Skip;

impl<'de> Deserialize<'de> for Skip {
    fn deserialize<F: Format>(
        _alloc: Global,
        from: &mut Deserializer<'de, '_, F>,
    ) -> Result<Skip, F::Error> {
        from.skip()?;
        Ok(Skip)
    }
}

/// Reads an object's key, and calls the steps that it names.
#[derive(Drop)]
pub struct Called;

impl<'de> Deserialize<'de> for Called {
    fn deserialize<F: Format>(
        _alloc: Global,
        from: &mut Deserializer<'de, '_, F>,
    ) -> Result<Called, F::Error> {
        from.begin_map()?;
        from.next_entry()?;
        let steps = from.borrowed_str()?;
        let mark = from.mark();
        for step in steps.chars() {
            match step {
                '<' => from.rewind(mark),
                '>' => from.release(mark),
                _ => call_step(step, from)?,
            }
        }
        Ok(Called)
    }
}

fn call_step<F: Format>(step: char, from: &mut Deserializer<'_, '_, F>) -> Result<(), F::Error> {
    match step {
        '_' => from.skip(),
        '[' => from.begin_seq(),
        '{' => from.begin_map(),
        'k' => match from.next_key(&[Name::exact("k")]) {
            Ok(_) => Ok(()),
            Err(error) => Err(error),
        },
        '1' => match from.u64() {
            Ok(_) => Ok(()),
            Err(error) => Err(error),
        },
        _ => Err(from.custom("no such step")),
    }
}

/// Sends a step for each character, as far as none is refused, or all of them.
#[derive(Drop)]
pub struct Sent<'a> {
    pub steps: &'a str,
    pub goes_on: bool,
}

impl Described for Sent<'_> {}

impl Serialize for Sent<'_> {
    fn serialize<S: Serializer>(&self, out: &mut S) -> Result<(), S::Error> {
        for step in self.steps.chars() {
            let sent = send_step(step, out);
            if !self.goes_on {
                sent?;
            }
        }
        Ok(())
    }
}

fn send_step<S: Serializer>(step: char, out: &mut S) -> Result<(), S::Error> {
    match step {
        '[' => out.begin_seq(None),
        ']' => out.end_seq(),
        '{' => out.begin_map(None),
        '}' => out.end_map(),
        '<' => out.begin_key(),
        '>' => out.end_key(),
        '~' => out.flatten_next(),
        'k' => out.key("k"),
        'n' => out.unit(),
        't' => out.bool(true),
        's' => out.str("s"),
        '1' => out.u64(1),
        '#' => raw_number(&"0x1F", out),
        '%' => raw_number(&"x", out),
        _ => Err(out.custom("no such step")),
    }
}
