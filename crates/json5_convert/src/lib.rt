//! Spells the tokens of a JSON5 document anew, as JSON or as JSON5, and keeps its comments where they are; reads values from
//! TOML and from documents in a row, of a text or a reader, and writes them so.
//!
//! ```text
//! respell(alloc, "{port: 0x50,} // web", Spelling::json())?    // {"port": 80} // web
//! ```
#![tactic(auto)]

mod faults;
mod gaps;
pub mod laws;
mod lines;
mod numbers;
mod respelled;
mod sources;
mod spelled_anew;
mod spelling;
mod streams;
mod strings;
mod tokens;
mod toml_texts;
mod toml_values;

pub use faults::{RespellError, Result};
pub use lines::{Values, from_lines, to_lines};
pub use respelled::respell;
pub use spelling::{Blanks, Comments, Keys, LastCommas, Numbers, Quotes, Spelling};
pub use streams::ValueStream;
pub use toml_texts::{to_toml, to_toml_with_dates};
pub use toml_values::from_toml;
