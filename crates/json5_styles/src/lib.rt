//! The text of a value in a layout, as JSON5 or as JSON.
//!
//! ```text
//! let text = to_string_in(alloc, Layout::compact(), &value)?;    // {a:[1,2]}
//! let json = to_json(alloc, &value)?;                            // for readers of JSON
//! ```
#![tactic(auto)]

pub mod json_runs;
pub mod json_values;
pub mod laws;
pub mod layout;
mod lines;
pub mod shown_values;
mod sink;
mod strings;
mod value;
mod whole_texts;
mod writers;

pub use json_values::is_json;
pub use layout::{Layout, Spelling};
pub use shown_values::{ShownValue, shown};
pub use whole_texts::{
    to_json, to_json_compact, to_json_in, to_json_string, to_string_in, to_vec_in,
};
pub use writers::{to_json_writer, to_json_writer_in, to_writer_in};
