//! Structs that are read by descriptions, and the types of test_own_types.

use crate::answers::Answer;
use crate::else_types::Defaults;
use crate::types::{Long, Only, Prefixes};
use json5::{Deserialize, Serialize};
use std::alloc::Global;
use std::collections::BTreeMap;
use test_own_types::{
    AtMost, Bounds, Color, Endpoint, Id, Labels, OpenPort, Pair, Reminder, Settings, Size,
};

/// What is written of the value that is read as the type with this name, its lines joined by blanks.
pub fn answer(alloc: Global, name: &str, text: &str) -> Answer {
    let written = written(alloc, name, text)?;
    on_one_line(alloc, written.as_str())
}

/// The words of a text, with a blank between them.
fn on_one_line(alloc: Global, text: &str) -> Answer {
    let mut line = String::new(alloc);
    for word in text.split_whitespace() {
        if !line.is_empty() {
            line.push(' ')?;
        }
        line.push_str(word)?;
    }
    Ok(line)
}

/// What is written of the value that is read.
fn again<'a, T: Deserialize<&'a str> + Serialize + Drop>(alloc: Global, text: &'a str) -> Answer {
    let value = json5::from_str::<T>(alloc, text)?;
    json5::to_string(alloc, &value)
}

fn pair_again(alloc: Global, text: &str) -> Answer {
    let pair: Pair = json5::from_str(alloc, text)?;
    json5::to_string(alloc, &(pair.a, pair.b))
}

fn bounds_again<'a, T: Deserialize<&'a str> + Serialize>(alloc: Global, text: &'a str) -> Answer {
    let bounds = json5::from_str::<Bounds<T>>(alloc, text)?;
    json5::to_string(alloc, &(bounds.low, bounds.high))
}

/// The same of the labels, the ports, the two ends or the numbers that a type holds.
fn held_again(alloc: Global, name: &str, text: &str) -> Answer {
    match name {
        "labels" => json5::to_string(alloc, &json5::from_str::<Labels>(alloc, text)?.texts),
        "at_most" => json5::to_string(
            alloc,
            &json5::from_str::<AtMost<OpenPort, 3>>(alloc, text)?.values,
        ),
        "label_lists" => json5::to_string(
            alloc,
            &json5::from_str::<Vec<Labels>>(alloc, text)?.len(),
        ),
        "pair" => pair_again(alloc, text),
        "bounds" => bounds_again::<i32>(alloc, text),
        "text_bounds" => bounds_again::<&str>(alloc, text),
        _ => json5::to_string(alloc, &json5::from_str::<Id>(alloc, text)?.number),
    }
}

fn written(alloc: Global, name: &str, text: &str) -> Answer {
    match name {
        "prefixes" => again::<Prefixes>(alloc, text),
        "only" => again::<Only>(alloc, text),
        "both" => again::<Vec<Only>>(alloc, text),
        "defaults" => again::<Defaults>(alloc, text),
        "labels" => held_again(alloc, name, text),
        "reminder" => again::<Reminder>(alloc, text),
        "size" => again::<Size>(alloc, text),
        _ => again::<Long>(alloc, text),
    }
}

/// The same of other types of test_own_types.
pub fn own(alloc: Global, name: &str, text: &str) -> Answer {
    let written = own_written(alloc, name, text)?;
    on_one_line(alloc, written.as_str())
}

fn own_written(alloc: Global, name: &str, text: &str) -> Answer {
    match name {
        "port" => again::<OpenPort>(alloc, text),
        "endpoint" => again::<Endpoint>(alloc, text),
        "endpoints" => again::<Vec<Endpoint>>(alloc, text),
        "color" => again::<Color>(alloc, text),
        "colors" => again::<Vec<Color>>(alloc, text),
        "color_keys" => again::<BTreeMap<Color, u8>>(alloc, text),
        "settings" => again::<Settings>(alloc, text),
        _ => held_again(alloc, name, text),
    }
}
