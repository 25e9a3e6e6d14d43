//! Calls within a limit: `within 2 Value` reads, `written 1 Value` writes what is read at the full limit.

use crate::call_results::{Answer, shown, unknown};
use crate::reads::{self, Asked};
use json5::{Limit, Value, format_within, from_str};
use std::alloc::Global;

/// Makes the call with the limit, a number; an unknown one where no limit is so large.
pub fn limited(alloc: Global, name: &str, words: &str, text: &str) -> Answer {
    let (number, target) = words.split_once(' ').unwrap_or((words, ""));
    let Some(limit) = number.parse::<u8>().ok().and_then(Limit::new) else {
        return unknown(alloc);
    };
    match name {
        "within" => reads::answer(alloc, Asked::Within(limit), target, text),
        "written" => reads::answer(alloc, Asked::Written(limit), target, text),
        "format_within" => format_within(alloc, limit, text),
        _ => fits(alloc, limit, text),
    }
}

/// Whether there is a limit of so many brackets, and how many it is.
pub fn limit(alloc: Global, number: &str) -> Answer {
    let Ok(number) = number.parse::<u8>() else {
        return unknown(alloc);
    };
    match Limit::new(number) {
        Some(limit) => shown(alloc, Ok((limit.get(), limit == Limit::full()))),
        None => shown(alloc, Ok(())),
    }
}

fn fits(alloc: Global, limit: Limit, text: &str) -> Answer {
    let value = from_str::<Value>(alloc, text)?;
    shown(alloc, Ok(value.fits_within(limit)))
}
