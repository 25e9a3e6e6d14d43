//! The calls that are measured.

use crate::samples::Kind;
use anyhow::Result;
use indexmap::IndexMap;
use json5::{Decimal, Deserialize, IgnoredAny, Serialize, Value, format, from_str, to_string};
use std::collections::BTreeMap;
use std::time::{Duration, Instant};
use test_own_types::Settings;

/// A call of the library.
#[derive(Clone, Copy, Drop)]
pub(crate) enum Call {
    Read,
    Value,
    Skip,
    Write,
    Format,
}

/// What a call did: how many bytes it read or wrote, and how long that took.
#[derive(Drop)]
pub(crate) struct Measured {
    pub(crate) bytes: usize,
    pub(crate) time: Duration,
}

/// Every call by its name.
pub(crate) const CALLS: [(&str, Call); 5] = [
    ("read", Call::Read),
    ("value", Call::Value),
    ("skip", Call::Skip),
    ("write", Call::Write),
    ("format", Call::Format),
];

/// Makes the call on an input that is read as this kind.
pub(crate) fn make(rt: &HostRuntime, call: Call, kind: Kind, text: &str) -> Result<Measured> {
    match kind {
        Kind::Integers => make_as::<Vec<i64>>(rt, call, text),
        Kind::Lists => make_as::<Vec<Vec<u8>>>(rt, call, text),
        Kind::Strings => make_as::<Vec<String>>(rt, call, text),
        Kind::Slices => make_as::<Vec<&str>>(rt, call, text),
        Kind::OneString => make_as::<String>(rt, call, text),
        Kind::Decimals => make_as::<Vec<Decimal>>(rt, call, text),
        Kind::Settings => make_as::<Vec<Settings>>(rt, call, text),
        Kind::SortedMap => make_as::<BTreeMap<&str, i64>>(rt, call, text),
        Kind::IndexedMap => make_as::<IndexMap<String, i64>>(rt, call, text),
        Kind::Values | Kind::Document(_) => make_as::<Value>(rt, call, text),
    }
}

fn make_as<'de, T: Deserialize<&'de str> + Serialize>(
    rt: &HostRuntime,
    call: Call,
    text: &'de str,
) -> Result<Measured> {
    match call {
        Call::Read => read::<T>(rt, text),
        Call::Value => read::<Value>(rt, text),
        Call::Skip => read::<IgnoredAny>(rt, text),
        Call::Write => write::<T>(rt, text),
        Call::Format => formatted(rt, text),
    }
}

fn read<'de, T: Deserialize<&'de str>>(rt: &HostRuntime, text: &'de str) -> Result<Measured> {
    let start = Instant::now(rt)?;
    let _value = from_str::<T>(rt.alloc(), text)?;
    Ok(Measured {
        bytes: text.len(),
        time: start.elapsed(rt)?,
    })
}

fn write<'de, T: Deserialize<&'de str> + Serialize>(
    rt: &HostRuntime,
    text: &'de str,
) -> Result<Measured> {
    let value = from_str::<T>(rt.alloc(), text)?;
    let start = Instant::now(rt)?;
    let written = to_string(rt.alloc(), &value)?;
    Ok(Measured {
        bytes: written.len(),
        time: start.elapsed(rt)?,
    })
}

fn formatted(rt: &HostRuntime, text: &str) -> Result<Measured> {
    let start = Instant::now(rt)?;
    let written = format(rt.alloc(), text)?;
    Ok(Measured {
        bytes: written.len(),
        time: start.elapsed(rt)?,
    })
}
