//! The lexemes of JSON5 texts: whether two have the same, but for commas, and whether they are those of JSON.
#![tactic(auto)]

mod byte_runs;
mod json_words;
pub mod laws;
mod pieces;
mod plain;
mod rest;
mod runs;
mod same;
mod shared;

pub use byte_runs::blanks_len;
pub use pieces::{Piece, Pieces};
pub use plain::{is_plain, is_plain_with, keeps_plain};
pub use rest::{front, past_byte};
pub use runs::Run;
pub use same::{alike_lexemes, same_lexemes};
pub use shared::{ends_word, past_blanks, past_same, past_same_name, past_token};
