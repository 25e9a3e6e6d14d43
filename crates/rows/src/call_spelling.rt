//! How types and calls are spelled, and the calls of an access or of a collection: `(u8,u8,end)`.

use crate::call_results::{Answer, Printed, push_answer, push_text};
use json5::Result;
use std::alloc::Global;
use std::mem::forget;

/// The place of the name in the list, or the length of the list.
pub fn place_of(name: &str, names: &[&str]) -> usize {
    for (place, other) in names.iter().enumerate() {
        if *other == name {
            return place;
        }
    }
    names.len()
}

/// Takes what stands beside the name in the list, and what follows the list for all other names. Each name has its place before
/// it, which makes the proof a third as long as a match on the names.
macro_rules! by_name {
    ($name:expr; $($place:literal $s:literal => $call:expr),*; $others:expr) => {
        match $crate::call_spelling::place_of($name, &[$($s),*]) {
            $($place => $call,)*
            _ => $others,
        }
    };
}

pub(crate) use by_name;

/// Makes the call with the type that stands beside the name, as `by_name` does.
macro_rules! by_type {
    ($name:expr, $call:ident $values:tt; $($place:literal $s:literal => $t:ty),*; $others:expr) => {
        match $crate::call_spelling::place_of($name, &[$($s),*]) {
            $($place => $call::<$t> $values,)*
            _ => $others,
        }
    };
}

pub(crate) use by_type;

/// What becomes of it after its calls.
#[derive(Clone, Copy)]
enum Close {
    /// `end`
    End,
    /// `leak`
    Leak,
    /// Anything else.
    Drop,
}

/// The calls but the last, which says what becomes of it.
fn split_close(steps: &str) -> (&str, Close) {
    let steps = steps.trim_end_matches(')');
    if let Some(steps) = steps.strip_suffix("end") {
        return (steps, Close::End);
    }
    match steps.strip_suffix("leak") {
        Some(steps) => (steps, Close::Leak),
        None => (steps, Close::Drop),
    }
}

/// An access or a collection.
pub trait Opened: Drop {
    /// What the call with this name gives.
    fn call(&mut self, name: &str, alloc: Global) -> Answer;

    /// What `end` gives.
    fn finish(self, alloc: Global) -> Answer;
}

/// Makes the calls of what was opened.
pub fn walk<A: Opened>(
    opened: Result<A>,
    steps: &str,
    alloc: Global,
    answers: &mut String,
) -> Printed<()> {
    match opened {
        Ok(opened) => walk_opened(opened, steps, alloc, answers),
        Err(e) => push_answer(alloc, Err(e), answers),
    }
}

fn walk_opened<A: Opened>(
    opened: A,
    steps: &str,
    alloc: Global,
    answers: &mut String,
) -> Printed<()> {
    let mut opened = opened;
    let (steps, close) = split_close(steps);
    push_text("opened", answers)?;
    for step in steps.split_terminator(',') {
        push_answer(alloc, opened.call(step, alloc), answers)?;
    }
    match close {
        Close::End => push_answer(alloc, opened.finish(alloc), answers),
        Close::Leak => {
            forget(opened);
            push_text("leaked", answers)
        }
        Close::Drop => {
            drop(opened);
            push_text("dropped", answers)
        }
    }
}
