//! Rows of types for settings: what is written of what was read.

use crate::described::{Plugin, Service};
use crate::outcomes::{Outcome, said};
use crate::rows::{text_of, wanted_of};
use json5::{Deserialize, Error, Limit, Result, Serialize, from_str, to_string};
use json5_settings_types::{
    AsSpelled, Duration, FilePath, Float, NotEmpty, Size, TextSet, Unique, UniqueKeys, UniqueTexts,
    Url, Within,
};
use json5_types::value::Value;
use std::alloc::Global;
use std::net::{IpAddr, SocketAddr};

const COLDEST: i64 = -40;

/// What comes of the row's text.
pub(crate) fn outcome_of(alloc: Global, row: &Value) -> Outcome {
    let wanted = wanted_of(row);
    match written(alloc, text_of(row, "type"), text_of(row, "text")) {
        Ok(made) if made.as_str() == wanted => Outcome::Wanted,
        Ok(made) => Outcome::Other(made),
        Err(error) => said(wanted, format!(in alloc; "{error}").ok()),
    }
}

/// The text, read as this type and written again.
fn written(alloc: Global, name: &str, text: &str) -> Result<String> {
    match name {
        "duration" => alike::<Duration>(alloc, text),
        "size" => alike::<Size>(alloc, text),
        "port" => alike::<Within<1024, 65535>>(alloc, text),
        "degrees" => alike::<Within<{ COLDEST }, 50>>(alloc, text),
        "address" => alike::<AsSpelled<IpAddr>>(alloc, text),
        "socket" => alike::<AsSpelled<SocketAddr>>(alloc, text),
        "url" => alike::<AsSpelled<Url>>(alloc, text),
        "path" => alike::<FilePath>(alloc, text),
        "hosts" => again::<UniqueTexts>(alloc, text),
        "numbers" => again::<Unique<u16>>(alloc, text),
        "ports" => again::<UniqueKeys<u16>>(alloc, text),
        "ratio" => again::<Float>(alloc, text),
        "roles" => again::<TextSet>(alloc, text),
        "service" => parts_of(alloc, text),
        "plugin" => plugin_of(alloc, text),
        _ => alike::<NotEmpty<Duration>>(alloc, text),
    }
}

fn again<'a, T: Deserialize<&'a str> + Serialize>(alloc: Global, text: &'a str) -> Result<String> {
    let value = from_str::<T>(alloc, text)?;
    to_string(alloc, &value)
}

/// The same, if `serde` reads, refuses and writes it with the same words.
fn alike<'a, T>(alloc: Global, text: &'a str) -> Result<String>
where
    T: Deserialize<&'a str>
        + Serialize
        + serde::Deserialize<'a>
        + serde::DeserializeOwned
        + serde::Serialize,
{
    let here = again::<T>(alloc, text);
    let borrowed = json5_serde::from_str::<T>(alloc, text);
    let owned = json5_serde::from_str_owned::<T>(alloc, Limit::full(), text);
    if here != by_serde(alloc, borrowed) || here != by_serde(alloc, owned) {
        return Err(Error::custom(alloc, "serde doesn't answer so")?);
    }
    here
}

fn by_serde<T: serde::Serialize + Drop>(alloc: Global, read: Result<T>) -> Result<String> {
    json5_serde::to_string(alloc, &read?)
}

/// What a service has, as a list.
fn parts_of(alloc: Global, text: &str) -> Result<String> {
    let service = from_str::<Service>(alloc, text)?;
    to_string(alloc, &(service.host, service.workers, service.ports))
}

/// The name of a plugin and its other members, as a list.
fn plugin_of(alloc: Global, text: &str) -> Result<String> {
    let plugin = from_str::<Plugin>(alloc, text)?;
    to_string(alloc, &(plugin.name, plugin.rest))
}
