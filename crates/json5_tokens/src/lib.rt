//! The tokens of JSON5.
//!
//! A `Scanner` takes tokens from the front of a text: names, strings, numbers and words, and the white space and comments between
//! them. `char` says which characters begin and continue a name; `positions` where a position is in a text.
#![tactic(auto)]

mod blanks;
pub mod byte_runs;
pub mod char;
mod escapes;
pub mod input;
mod names;
mod numbers;
pub mod positions;
mod refusal;
pub mod scanner;
pub mod short_texts;
pub mod strings;
mod strings_and_names;
pub mod text_token;
mod words;

pub use positions::{InText, utf16_units};
