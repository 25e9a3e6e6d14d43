//! Shows people why a text was refused: where, what was found there, and what to write instead.
//!
//! A `Report` is made of a text and the `Error` of reading it, and never while reading.
#![tactic(auto)]

mod advice;
mod around;
mod bare_texts;
mod bytes;
mod comments;
mod course;
mod custom;
mod entities;
mod excerpt;
mod fault;
mod field_messages;
mod fields;
mod foreign;
mod found;
mod hints;
mod keys;
mod leftovers;
mod lexemes;
mod lookalikes;
mod members;
mod message;
mod near;
mod number_parts;
mod numbers;
mod open_hints;
mod painted;
mod parts;
mod path;
mod place;
mod report;
mod texts;
mod unclosed;
mod values;
mod widths;
mod wording;
mod words;

pub use report::{Coloured, Report};
